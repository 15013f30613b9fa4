// Files that are accepted, at the ends of what their fields may be.
use crate::build::{buffers, fullest};
use crate::outcome::{Case, try_all, try_one};
use std::test::Fail;

const CASES: [Case; 15] = [
    // gates
    (
        "the shortest job",
        &[0, 2, 1, 1, 2, 0, 2, 0, 1],
        Ok((2, 1, 1, 10)),
    ),
    (
        "a complex gate of one pin",
        &[0, 1, 1, 1, 1, 1, 1, 0, 1, 1],
        Ok((1, 1, 1, 6)),
    ),
    (
        "eight pins in one product",
        &[0, 1, 1, 1, 1, 1, 8, 0, 0, 0, 0, 0, 0, 0, 0, 1, 255],
        Ok((1, 1, 1, 20)),
    ),
    (
        "a C-element of eight pins",
        &[0, 1, 1, 1, 1, 0, 8, 0, 0, 0, 0, 0, 0, 0, 0],
        Ok((1, 1, 1, 20)),
    ),
    (
        "eight equal products",
        &[0, 1, 1, 1, 1, 1, 1, 0, 8, 1, 1, 1, 1, 1, 1, 1, 1],
        Ok((1, 1, 1, 6)),
    ),
    (
        "a pin in no product",
        &[0, 2, 1, 1, 2, 1, 2, 0, 1, 1, 1],
        Ok((2, 1, 1, 10)),
    ),
    (
        "a pin on the gate's own line",
        &[0, 1, 1, 1, 1, 0, 2, 0, 1],
        Ok((1, 1, 1, 8)),
    ),
    (
        "a pin on a later gate's line",
        &[0, 1, 2, 1, 1, 0, 2, 0, 2, 1, 1, 0, 1, 1],
        Ok((1, 2, 1, 12)),
    ),
    // parts that may be left out
    (
        "start values of 0",
        &[1, 2, 1, 1, 2, 0, 0, 2, 0, 1],
        Ok((2, 1, 1, 10)),
    ),
    (
        "all start values at 1",
        &[1, 2, 1, 1, 2, 7, 0, 2, 0, 1],
        Ok((2, 1, 1, 10)),
    ),
    (
        "a C-element's mask of 0",
        &[0, 2, 1, 1, 2, 2, 2, 0, 1, 0],
        Ok((2, 1, 1, 10)),
    ),
    (
        "inverted masks of 0",
        &[0, 2, 1, 1, 2, 3, 2, 0, 1, 2, 1, 2, 0, 0],
        Ok((2, 1, 1, 10)),
    ),
    (
        "one fault",
        &[2, 2, 1, 1, 2, 0, 2, 0, 1, 1, 1, 2],
        Ok((2, 1, 1, 1)),
    ),
    (
        "the same fault twice",
        &[2, 2, 1, 1, 2, 0, 2, 0, 1, 2, 0, 1, 0, 1],
        Ok((2, 1, 1, 2)),
    ),
    (
        "start values and a pin fault",
        &[3, 2, 1, 1, 2, 7, 0, 2, 0, 1, 1, 3, 2, 1],
        Ok((2, 1, 1, 1)),
    ),
];

#[test]
fn small_jobs(rt: HostRuntime) -> Result<(), Fail> {
    try_all(&rt, &CASES)
}

#[test]
fn most_of_each(rt: HostRuntime) -> Result<(), Fail> {
    let eight_outputs = buffers(rt.alloc(), &[0, 1, 8, 8, 1, 2, 3, 4, 5, 6, 7, 8], 8)?;
    try_one(&rt, &eight_outputs, Ok((1, 8, 8, 34)))?;
    let forty_gates = buffers(rt.alloc(), &[0, 8, 40, 2, 8, 47], 40)?;
    try_one(&rt, &forty_gates, Ok((8, 40, 2, 176)))
}

#[test]
fn the_longest_job(rt: HostRuntime) -> Result<(), Fail> {
    let file = fullest(rt.alloc())?;
    assert_eq!(rt; file.len(), 1675);
    try_one(&rt, &file, Ok((8, 40, 8, 192)))
}
