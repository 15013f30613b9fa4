// Where several things are wrong, the leftmost field decides; then come bytes left over, and last the start.
use crate::outcome::{Case, try_all};
use refusal::CircuitFault::File;
use refusal::FileFault::{Nowhere, Overlong, Range, Short, Stray};
use std::test::Fail;

const CASES: [Case; 17] = [
    // the leftmost field
    ("map, inputs and gates", &[4, 9, 41, 0], Err(File(Stray(0)))),
    ("inputs and gates", &[0, 9, 41, 0], Err(File(Range(1)))),
    ("gates and outputs", &[0, 2, 41, 9], Err(File(Range(2)))),
    (
        "an output and a gate map",
        &[0, 2, 1, 1, 1, 4, 2],
        Err(File(Nowhere(4))),
    ),
    (
        "start bits and a gate map",
        &[1, 2, 1, 1, 2, 8, 4, 2],
        Err(File(Stray(5))),
    ),
    (
        "a pin and a product count",
        &[0, 2, 1, 1, 2, 1, 2, 3, 1, 9],
        Err(File(Nowhere(7))),
    ),
    (
        "a later used mask and an earlier inverted one",
        &[0, 2, 1, 1, 2, 3, 2, 0, 1, 2, 1, 4, 2, 0],
        Err(File(Range(11))),
    ),
    (
        "an inverted mask and a fault count",
        &[2, 2, 1, 1, 2, 2, 2, 0, 1, 4, 0],
        Err(File(Stray(9))),
    ),
    // a wrong field before the end of the file
    ("inputs", &[0, 9], Err(File(Range(1)))),
    ("an output of two", &[0, 2, 2, 2, 1], Err(File(Nowhere(4)))),
    ("a gate map", &[0, 2, 1, 1, 2, 4], Err(File(Stray(5)))),
    ("a pin count", &[0, 2, 1, 1, 2, 0, 1], Err(File(Range(6)))),
    (
        "a pin of two",
        &[0, 2, 1, 1, 2, 0, 2, 3],
        Err(File(Nowhere(7))),
    ),
    (
        "a fault map of two",
        &[2, 2, 1, 1, 2, 0, 2, 0, 1, 2, 4],
        Err(File(Stray(10))),
    ),
    // before a start that is not at rest
    (
        "a missing pin",
        &[1, 2, 1, 1, 2, 4, 0, 2, 0],
        Err(File(Short(9))),
    ),
    (
        "a fault count",
        &[3, 2, 1, 1, 2, 4, 0, 2, 0, 1, 0],
        Err(File(Range(10))),
    ),
    (
        "a byte left over",
        &[1, 2, 1, 1, 2, 4, 0, 2, 0, 1, 0],
        Err(File(Overlong(10))),
    ),
];

#[test]
fn several_wrong(rt: HostRuntime) -> Result<(), Fail> {
    try_all(&rt, &CASES)
}
