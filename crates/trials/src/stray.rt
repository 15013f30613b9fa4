// A bit that has no use.
use crate::outcome::{Case, try_all};
use refusal::CircuitFault::File;
use refusal::FileFault::Stray;
use std::test::Fail;

const CASES: [Case; 17] = [
    // maps
    (
        "bit 2 of the map",
        &[4, 2, 1, 1, 2, 0, 2, 0, 1],
        Err(File(Stray(0))),
    ),
    (
        "bit 7 of the map",
        &[128, 2, 1, 1, 2, 0, 2, 0, 1],
        Err(File(Stray(0))),
    ),
    (
        "bit 2 of a gate map",
        &[0, 2, 1, 1, 2, 4, 2, 0, 1],
        Err(File(Stray(5))),
    ),
    (
        "bit 7 of a gate map alone",
        &[0, 2, 1, 1, 2, 128],
        Err(File(Stray(5))),
    ),
    (
        "bit 3 of a second gate map",
        &[0, 2, 2, 1, 2, 0, 2, 0, 1, 8, 2, 0, 1],
        Err(File(Stray(9))),
    ),
    (
        "bit 2 of a fault map",
        &[2, 2, 1, 1, 2, 0, 2, 0, 1, 1, 4, 0],
        Err(File(Stray(10))),
    ),
    (
        "bit 7 of a second fault map",
        &[2, 2, 1, 1, 2, 0, 2, 0, 1, 2, 1, 0, 128, 0],
        Err(File(Stray(12))),
    ),
    // start bits
    (
        "line 3 of three, and no gate",
        &[1, 2, 1, 1, 2, 8],
        Err(File(Stray(5))),
    ),
    (
        "line 3 of three",
        &[1, 2, 1, 1, 2, 8, 0, 2, 0, 1],
        Err(File(Stray(5))),
    ),
    (
        "line 7 of three",
        &[1, 2, 1, 1, 2, 128, 0, 2, 0, 1],
        Err(File(Stray(5))),
    ),
    (
        "line 9 of nine",
        &[1, 8, 1, 1, 8, 255, 2, 0, 2, 0, 1],
        Err(File(Stray(6))),
    ),
    (
        "line 47 of 47",
        &[1, 7, 40, 1, 7, 255, 255, 255, 255, 255, 128],
        Err(File(Stray(10))),
    ),
    // inverted bits
    (
        "pin 2 of a C-element of two",
        &[0, 2, 1, 1, 2, 2, 2, 0, 1, 4],
        Err(File(Stray(9))),
    ),
    (
        "pin 7 of a C-element of two",
        &[0, 2, 1, 1, 2, 2, 2, 0, 1, 128],
        Err(File(Stray(9))),
    ),
    (
        "a pin not in the product",
        &[0, 2, 1, 1, 2, 3, 2, 0, 1, 1, 1, 2],
        Err(File(Stray(11))),
    ),
    (
        "a pin in the other product",
        &[0, 2, 1, 1, 2, 3, 2, 0, 1, 2, 1, 2, 1, 1],
        Err(File(Stray(13))),
    ),
    (
        "a pin past the gate's",
        &[0, 2, 1, 1, 2, 3, 2, 0, 1, 1, 3, 7],
        Err(File(Stray(11))),
    ),
];

#[test]
fn bits_of_no_use(rt: HostRuntime) -> Result<(), Fail> {
    try_all(&rt, &CASES)
}
