// A made list has 192 faults at most: two for each line and two for each pin.
use crate::build::c_elements;
use crate::outcome::try_one;
use refusal::CircuitFault::{Crowded, File, Restless};
use refusal::FileFault::Overlong;
use std::test::Fail;

#[test]
fn the_limit(rt: HostRuntime) -> Result<(), Fail> {
    try_one(
        &rt,
        &c_elements(rt.alloc(), 0, &[], 10, 6)?,
        Ok((8, 10, 1, 192)),
    )?;
    try_one(
        &rt,
        &c_elements(rt.alloc(), 0, &[], 10, 7)?,
        Err(Crowded(194)),
    )?;
    try_one(
        &rt,
        &c_elements(rt.alloc(), 0, &[], 40, 8)?,
        Err(Crowded(736)),
    )
}

#[test]
fn a_named_list_is_never_crowded(rt: HostRuntime) -> Result<(), Fail> {
    let mut file = c_elements(rt.alloc(), 2, &[], 10, 7)?;
    file.extend_from_slice(&[1, 3, 17, 6])?;
    try_one(&rt, &file, Ok((8, 10, 1, 1)))
}

#[test]
fn left_over_then_crowded_then_restless(rt: HostRuntime) -> Result<(), Fail> {
    let raised = [0, 1, 0];
    let mut above = c_elements(rt.alloc(), 1, &raised, 10, 7)?;
    try_one(&rt, &above, Err(Crowded(194)))?;
    above.push(0)?;
    try_one(&rt, &above, Err(File(Overlong(107))))?;
    try_one(
        &rt,
        &c_elements(rt.alloc(), 1, &raised, 10, 6)?,
        Err(Restless(8)),
    )
}
