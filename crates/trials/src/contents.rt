// What a job keeps of its file: the circuit.
use crate::outcome::accepted;
use circuit::gate::{Function, Gate, Sum};
use std::process::Abort;
use std::test::Fail;

// The lines that the first two pins read, after the number of pins.
fn pins(gate: &Gate) -> (u8, u8, u8) {
    (gate.pins, gate.pin[0], gate.pin[1])
}

// The products of a complex gate.
fn products(gate: &Gate) -> Result<Sum, Fail> {
    match gate.function {
        Function::Complex(sum) => Ok(sum),
        Function::CElement { .. } => Err(Fail::new("a C-element")),
    }
}

// The inverted mask of a C-element.
fn c_element_mask(gate: &Gate) -> Result<u8, Fail> {
    match gate.function {
        Function::Complex(_) => Err(Fail::new("a complex gate")),
        Function::CElement { inverted } => Ok(inverted),
    }
}

// Checks that a gate is an OR of two products, with these used and inverted masks.
fn check_products(
    rt: &impl Abort,
    gate: &Gate,
    used: [u8; 2],
    inverted: [u8; 2],
) -> Result<(), Fail> {
    let sum = products(gate)?;
    assert_eq!(rt; sum.products, 2);
    assert_eq!(rt; [sum.used[0], sum.used[1]], used);
    assert_eq!(rt; [sum.inverted[0], sum.inverted[1]], inverted);
    Ok(())
}

#[test]
fn c_elements(rt: HostRuntime) -> Result<(), Fail> {
    let job = accepted(&[0, 2, 2, 1, 3, 0, 2, 0, 3, 2, 3, 2, 1, 0, 6])?;
    let gate = &job.circuit().netlist().gate;
    assert_eq!(rt; pins(&gate[0]), (2, 0, 3));
    assert_eq!(rt; c_element_mask(&gate[0])?, 0);
    assert_eq!(rt; pins(&gate[1]), (3, 2, 1));
    assert_eq!(rt; c_element_mask(&gate[1])?, 6);
    Ok(())
}

#[test]
fn complex_gates(rt: HostRuntime) -> Result<(), Fail> {
    let job = accepted(&[1, 1, 1, 1, 1, 2, 3, 2, 0, 1, 2, 1, 2, 1, 2])?;
    let gate = &job.circuit().netlist().gate[0];
    assert_eq!(rt; pins(gate), (2, 0, 1));
    check_products(&rt, gate, [1, 2], [1, 2])
}

// Checks that no pin of a C-element and of a complex gate is inverted.
fn check_plain(rt: &impl Abort, file: &[u8]) -> Result<(), Fail> {
    let job = accepted(file)?;
    let gate = &job.circuit().netlist().gate;
    assert_eq!(rt; c_element_mask(&gate[0])?, 0);
    check_products(rt, &gate[1], [1, 1], [0, 0])
}

#[test]
fn masks_of_0(rt: HostRuntime) -> Result<(), Fail> {
    check_plain(&rt, &[0, 1, 2, 1, 2, 2, 2, 1, 0, 0, 3, 1, 2, 2, 1, 1, 0, 0])
}

#[test]
fn no_masks(rt: HostRuntime) -> Result<(), Fail> {
    check_plain(&rt, &[0, 1, 2, 1, 2, 0, 2, 1, 0, 1, 1, 2, 2, 1, 1])
}

// Lines 1, 7 and 8 of ten start at 1; line 8 reads line 7, and line 9 reads line 0.
#[test]
fn outputs_and_start_bits(rt: HostRuntime) -> Result<(), Fail> {
    let job = accepted(&[1, 8, 2, 2, 8, 9, 130, 1, 1, 1, 7, 1, 1, 1, 1, 0, 1, 1])?;
    let netlist = job.circuit().netlist();
    assert_eq!(rt; [netlist.output[0], netlist.output[1]], [8, 9]);
    let start = &netlist.start;
    assert_eq!(rt; [start[0], start[1], start[2]], [false, true, false]);
    assert_eq!(rt;
        [start[6], start[7], start[8], start[9]],
        [false, true, true, false]
    );
    Ok(())
}
