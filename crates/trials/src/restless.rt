// The start has to be at rest: every gate line at the value that its gate drives.
use crate::outcome::{Case, try_all};
use refusal::CircuitFault::Restless;
use std::test::Fail;

const CASES: [Case; 19] = [
    // C-elements
    (
        "all at 0",
        &[1, 2, 1, 1, 2, 0, 0, 2, 0, 1],
        Ok((2, 1, 1, 10)),
    ),
    (
        "all at 1",
        &[1, 2, 1, 1, 2, 7, 0, 2, 0, 1],
        Ok((2, 1, 1, 10)),
    ),
    (
        "one pin up, held at 0",
        &[1, 2, 1, 1, 2, 1, 0, 2, 0, 1],
        Ok((2, 1, 1, 10)),
    ),
    (
        "one pin up, held at 1",
        &[1, 2, 1, 1, 2, 6, 0, 2, 0, 1],
        Ok((2, 1, 1, 10)),
    ),
    (
        "pin 1 inverted, held at 0",
        &[0, 2, 1, 1, 2, 2, 2, 0, 1, 2],
        Ok((2, 1, 1, 10)),
    ),
    (
        "at 1 over pins at 0",
        &[1, 2, 1, 1, 2, 4, 0, 2, 0, 1],
        Err(Restless(2)),
    ),
    (
        "at 0 over pins at 1",
        &[1, 2, 1, 1, 2, 3, 0, 2, 0, 1],
        Err(Restless(2)),
    ),
    (
        "at 0 over inverted pins at 0",
        &[0, 2, 1, 1, 2, 2, 2, 0, 1, 3],
        Err(Restless(2)),
    ),
    (
        "line 8 of nine",
        &[1, 8, 1, 1, 8, 0, 1, 0, 2, 0, 1],
        Err(Restless(8)),
    ),
    // complex gates
    (
        "an inverter at 1",
        &[1, 1, 1, 1, 1, 2, 3, 1, 0, 1, 1, 1],
        Ok((1, 1, 1, 6)),
    ),
    (
        "an inverter at 0",
        &[0, 1, 1, 1, 1, 3, 1, 0, 1, 1, 1],
        Err(Restless(1)),
    ),
    (
        "an AND at 0, one pin up",
        &[1, 2, 1, 1, 2, 1, 1, 2, 0, 1, 1, 3],
        Ok((2, 1, 1, 10)),
    ),
    (
        "an OR at 0, pin 1 up",
        &[1, 2, 1, 1, 2, 2, 1, 2, 0, 1, 2, 1, 2],
        Err(Restless(2)),
    ),
    (
        "an OR at 1, pin 1 up",
        &[1, 2, 1, 1, 2, 6, 1, 2, 0, 1, 2, 1, 2],
        Ok((2, 1, 1, 10)),
    ),
    (
        "pin 0 and not pin 1, at 1",
        &[1, 2, 1, 1, 2, 5, 3, 2, 0, 1, 1, 3, 2],
        Ok((2, 1, 1, 10)),
    ),
    (
        "pin 0 and not pin 1, at 0",
        &[1, 2, 1, 1, 2, 1, 3, 2, 0, 1, 1, 3, 2],
        Err(Restless(2)),
    ),
    // the lowest line
    (
        "a buffer, then an inverter",
        &[0, 1, 2, 1, 1, 1, 1, 0, 1, 1, 3, 1, 0, 1, 1, 1],
        Err(Restless(2)),
    ),
    (
        "two inverters",
        &[0, 1, 2, 1, 1, 3, 1, 0, 1, 1, 1, 3, 1, 0, 1, 1, 1],
        Err(Restless(1)),
    ),
    (
        "an inverter with a fault named",
        &[2, 1, 1, 1, 1, 3, 1, 0, 1, 1, 1, 1, 0, 0],
        Err(Restless(1)),
    ),
];

#[test]
fn starts(rt: HostRuntime) -> Result<(), Fail> {
    try_all(&rt, &CASES)
}
