// A line or a pin that is not there, or not where it may be named.
use crate::outcome::{Case, try_all};
use refusal::CircuitFault::File;
use refusal::FileFault::Nowhere;
use std::test::Fail;

const CASES: [Case; 19] = [
    // outputs
    (
        "the only gate again",
        &[0, 2, 1, 2, 2, 2],
        Err(File(Nowhere(5))),
    ),
    (
        "an input",
        &[0, 2, 1, 1, 1, 0, 2, 0, 1],
        Err(File(Nowhere(4))),
    ),
    (
        "line 3 of three",
        &[0, 2, 1, 1, 3, 0, 2, 0, 1],
        Err(File(Nowhere(4))),
    ),
    ("line 255", &[0, 2, 2, 2, 255, 0], Err(File(Nowhere(4)))),
    ("the same again", &[0, 2, 2, 2, 2, 2], Err(File(Nowhere(5)))),
    ("a lower one", &[0, 2, 2, 2, 3, 2], Err(File(Nowhere(5)))),
    (
        "then line 4 of four",
        &[0, 2, 2, 2, 3, 4],
        Err(File(Nowhere(5))),
    ),
    (
        "the third not above",
        &[0, 2, 4, 3, 2, 4, 3],
        Err(File(Nowhere(6))),
    ),
    // pins
    (
        "pin 0 at line 3 of three",
        &[0, 2, 1, 1, 2, 0, 2, 3, 0],
        Err(File(Nowhere(7))),
    ),
    (
        "pin 1 at line 3 of three",
        &[0, 2, 1, 1, 2, 0, 2, 0, 3],
        Err(File(Nowhere(8))),
    ),
    (
        "pin 1 at line 255",
        &[0, 2, 1, 1, 2, 1, 2, 0, 255, 1, 1],
        Err(File(Nowhere(8))),
    ),
    (
        "the second gate at line 4 of four",
        &[0, 2, 2, 1, 2, 0, 2, 0, 1, 0, 2, 0, 4],
        Err(File(Nowhere(12))),
    ),
    // faults
    (
        "line 3 of three",
        &[2, 2, 1, 1, 2, 0, 2, 0, 1, 1, 0, 3],
        Err(File(Nowhere(11))),
    ),
    (
        "a second at line 3",
        &[2, 2, 1, 1, 2, 0, 2, 0, 1, 2, 0, 2, 1, 3],
        Err(File(Nowhere(13))),
    ),
    (
        "a pin of an input",
        &[2, 2, 1, 1, 2, 0, 2, 0, 1, 1, 2, 1, 0],
        Err(File(Nowhere(11))),
    ),
    (
        "a pin of line 3",
        &[2, 2, 1, 1, 2, 0, 2, 0, 1, 1, 3, 3, 0],
        Err(File(Nowhere(11))),
    ),
    (
        "pin 2 of two",
        &[2, 2, 1, 1, 2, 0, 2, 0, 1, 1, 2, 2, 2],
        Err(File(Nowhere(12))),
    ),
    (
        "pin 255",
        &[2, 2, 1, 1, 2, 0, 2, 0, 1, 1, 2, 2, 255],
        Err(File(Nowhere(12))),
    ),
    (
        "pin 1 of the gate with one",
        &[
            2, 1, 2, 1, 1, 0, 2, 0, 0, 1, 1, 0, 1, 1, 2, 2, 1, 1, 2, 2, 1,
        ],
        Err(File(Nowhere(20))),
    ),
];

#[test]
fn lines_and_pins(rt: HostRuntime) -> Result<(), Fail> {
    try_all(&rt, &CASES)
}
