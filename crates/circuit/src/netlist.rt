// A circuit as it is written down, whether or not it is lawful.
use crate::gate::Gate;

// Kept, rule of the project: nothing is allocated and a circuit is Copy, so gates, outputs and start are fixed tables with counts.
/// Lines below `inputs` are the inputs; gate k drives line `inputs` + k.
#[derive(Clone, Copy)]
pub struct Netlist {
    pub inputs: u8,
    pub gates: u8,
    pub gate: [Gate; 40],
    pub outputs: u8,
    pub output: [u8; 8],
    pub start: [bool; 48],
}
