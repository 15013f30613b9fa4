// Circuits of complex gates and C-elements, and where a fault sits in one.
#![tactic(auto)]

pub mod chip;
pub mod circuit;
pub mod design;
pub mod drive;
pub mod gate;
pub mod netlist;
pub mod site;
