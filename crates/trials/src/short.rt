// A file that ends where a field should be is short, and the place is its length.
use crate::outcome::{Case, try_all};
use refusal::CircuitFault::File;
use refusal::FileFault::Short;
use std::test::Fail;

const CASES: [Case; 23] = [
    // in the head
    ("no bytes at all", &[], Err(File(Short(0)))),
    ("no input count", &[0], Err(File(Short(1)))),
    ("no gate count", &[0, 2], Err(File(Short(2)))),
    ("no output count", &[0, 2, 1], Err(File(Short(3)))),
    ("no output", &[0, 2, 1, 1], Err(File(Short(4)))),
    ("one output of two", &[0, 2, 2, 2, 2], Err(File(Short(5)))),
    ("no start byte", &[1, 8, 1, 1, 8], Err(File(Short(5)))),
    (
        "one start byte of two",
        &[1, 8, 1, 1, 8, 0],
        Err(File(Short(6))),
    ),
    (
        "five start bytes of six",
        &[1, 8, 40, 1, 8, 0, 0, 0, 0, 0],
        Err(File(Short(10))),
    ),
    // in a gate
    ("no gate map", &[0, 2, 1, 1, 2], Err(File(Short(5)))),
    ("no pin count", &[0, 2, 1, 1, 2, 0], Err(File(Short(6)))),
    ("no pin", &[0, 2, 1, 1, 2, 0, 2], Err(File(Short(7)))),
    (
        "one pin of two",
        &[0, 2, 1, 1, 2, 0, 2, 0],
        Err(File(Short(8))),
    ),
    (
        "no mask of a C-element",
        &[0, 2, 1, 1, 2, 2, 2, 0, 1],
        Err(File(Short(9))),
    ),
    (
        "no product count",
        &[0, 2, 1, 1, 2, 1, 2, 0, 1],
        Err(File(Short(9))),
    ),
    (
        "one used mask of two",
        &[0, 2, 1, 1, 2, 1, 2, 0, 1, 2, 1],
        Err(File(Short(11))),
    ),
    (
        "one inverted mask of two",
        &[0, 2, 1, 1, 2, 3, 2, 0, 1, 2, 1, 2, 0],
        Err(File(Short(13))),
    ),
    (
        "no second gate",
        &[0, 2, 2, 1, 2, 0, 2, 0, 1],
        Err(File(Short(9))),
    ),
    // in the faults
    (
        "no fault count",
        &[2, 2, 1, 1, 2, 0, 2, 0, 1],
        Err(File(Short(9))),
    ),
    (
        "no fault map",
        &[2, 2, 1, 1, 2, 0, 2, 0, 1, 1],
        Err(File(Short(10))),
    ),
    (
        "no line",
        &[2, 2, 1, 1, 2, 0, 2, 0, 1, 1, 1],
        Err(File(Short(11))),
    ),
    (
        "no pin",
        &[2, 2, 1, 1, 2, 0, 2, 0, 1, 1, 3, 2],
        Err(File(Short(12))),
    ),
    (
        "one fault of two",
        &[2, 2, 1, 1, 2, 0, 2, 0, 1, 2, 1, 0],
        Err(File(Short(12))),
    ),
];

#[test]
fn short_files(rt: HostRuntime) -> Result<(), Fail> {
    try_all(&rt, &CASES)
}
