// Bytes after the last field: the first of them is named, however many there are.
use crate::outcome::{Case, try_all, try_one};
use refusal::CircuitFault::File;
use refusal::FileFault::{Overlong, Stray};
use std::test::Fail;

const CASES: [Case; 5] = [
    (
        "one after a C-element",
        &[0, 2, 1, 1, 2, 0, 2, 0, 1, 0],
        Err(File(Overlong(9))),
    ),
    (
        "six after a C-element",
        &[0, 2, 1, 1, 2, 0, 2, 0, 1, 255, 0, 0, 0, 0, 0],
        Err(File(Overlong(9))),
    ),
    (
        "a mask that no map announced",
        &[0, 1, 1, 1, 1, 1, 1, 0, 1, 1, 1],
        Err(File(Overlong(10))),
    ),
    (
        "one after a mask",
        &[0, 2, 1, 1, 2, 2, 2, 0, 1, 0, 0],
        Err(File(Overlong(10))),
    ),
    (
        "a second fault of one",
        &[2, 2, 1, 1, 2, 0, 2, 0, 1, 1, 1, 0, 1, 0],
        Err(File(Overlong(12))),
    ),
];

#[test]
fn left_over(rt: HostRuntime) -> Result<(), Fail> {
    try_all(&rt, &CASES)
}

#[test]
fn a_long_tail(rt: HostRuntime) -> Result<(), Fail> {
    let mut file = Vec::new(rt.alloc());
    file.extend_from_slice(&[0, 2, 1, 1, 2, 0, 2, 0, 1])?;
    file.resize(70009, 0)?;
    assert_eq!(rt; file.len(), 70009);
    try_one(&rt, &file, Err(File(Overlong(9))))
}

#[test]
fn noise(rt: HostRuntime) -> Result<(), Fail> {
    try_one(&rt, &[255; 8192], Err(File(Stray(0))))
}
