// A count outside its range, or a used mask that is 0 or reaches past the pins.
use crate::outcome::{Case, try_all};
use refusal::CircuitFault::File;
use refusal::FileFault::Range;
use std::test::Fail;

const CASES: [Case; 24] = [
    // in the head
    ("no inputs", &[0, 0, 1, 1], Err(File(Range(1)))),
    ("9 inputs", &[0, 9, 1, 1], Err(File(Range(1)))),
    ("255 inputs", &[0, 255, 1, 1], Err(File(Range(1)))),
    ("no gates", &[0, 2, 0, 1], Err(File(Range(2)))),
    ("41 gates", &[0, 2, 41, 1], Err(File(Range(2)))),
    ("255 gates", &[0, 1, 255, 1], Err(File(Range(2)))),
    ("no outputs", &[0, 2, 1, 0, 2], Err(File(Range(3)))),
    ("9 outputs", &[0, 2, 9, 9, 2, 3], Err(File(Range(3)))),
    // pin counts
    (
        "a complex gate of no pins",
        &[0, 2, 1, 1, 2, 1, 0, 1, 1],
        Err(File(Range(6))),
    ),
    (
        "a complex gate of 9 pins",
        &[0, 2, 1, 1, 2, 1, 9, 0, 0],
        Err(File(Range(6))),
    ),
    (
        "a C-element of no pins",
        &[0, 2, 1, 1, 2, 0, 0],
        Err(File(Range(6))),
    ),
    (
        "a C-element of 1 pin",
        &[0, 2, 1, 1, 2, 0, 1, 0],
        Err(File(Range(6))),
    ),
    (
        "a C-element of 9 pins",
        &[0, 2, 1, 1, 2, 0, 9, 0, 0],
        Err(File(Range(6))),
    ),
    (
        "a second gate of 1 pin",
        &[0, 2, 2, 1, 2, 0, 2, 0, 1, 0, 1, 0],
        Err(File(Range(10))),
    ),
    // products
    (
        "no products",
        &[0, 2, 1, 1, 2, 1, 2, 0, 1, 0],
        Err(File(Range(9))),
    ),
    (
        "9 products",
        &[0, 2, 1, 1, 2, 1, 2, 0, 1, 9, 1, 1],
        Err(File(Range(9))),
    ),
    (
        "a product of no pins",
        &[0, 2, 1, 1, 2, 1, 2, 0, 1, 1, 0],
        Err(File(Range(10))),
    ),
    (
        "a second product of no pins",
        &[0, 2, 1, 1, 2, 1, 2, 0, 1, 2, 3, 0],
        Err(File(Range(11))),
    ),
    (
        "pin 2 of two pins",
        &[0, 2, 1, 1, 2, 1, 2, 0, 1, 1, 4],
        Err(File(Range(10))),
    ),
    (
        "pin 1 of one pin",
        &[0, 2, 1, 1, 2, 1, 1, 0, 1, 2],
        Err(File(Range(9))),
    ),
    (
        "pin 7 of seven pins",
        &[0, 1, 1, 1, 1, 1, 7, 0, 0, 0, 0, 0, 0, 0, 1, 128],
        Err(File(Range(15))),
    ),
    // fault counts
    (
        "no faults",
        &[2, 2, 1, 1, 2, 0, 2, 0, 1, 0],
        Err(File(Range(9))),
    ),
    (
        "193 faults",
        &[2, 2, 1, 1, 2, 0, 2, 0, 1, 193, 0, 0],
        Err(File(Range(9))),
    ),
    (
        "255 faults",
        &[2, 2, 1, 1, 2, 0, 2, 0, 1, 255, 0, 0],
        Err(File(Range(9))),
    ),
];

#[test]
fn counts_and_used_masks(rt: HostRuntime) -> Result<(), Fail> {
    try_all(&rt, &CASES)
}
