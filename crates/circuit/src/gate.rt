// Gates as a netlist gives them: plain values, with no invariant of their own.

// Kept, rule of the project: nothing is allocated, so a sum is fixed rows with a count, and as in a job file all used masks stand before the inverted ones.
/// An OR of products. Product p is the AND of the pins in its used mask, each inverted where its other mask has a bit; bit j is pin j.
#[derive(Clone, Copy)]
pub struct Sum {
    pub products: u8,
    pub used: [u8; 8],
    pub inverted: [u8; 8],
}

/// What a gate computes of its pins.
#[derive(Clone, Copy)]
pub enum Function {
    Complex(Sum),
    CElement { inverted: u8 },
}

// Kept, rule of the project: nothing is allocated, so the pins are a fixed table with a count.
/// A gate: how many pins it has, the line that each pin reads, and its function.
#[derive(Clone, Copy)]
pub struct Gate {
    pub pins: u8,
    pub pin: [u8; 8],
    pub function: Function,
}
