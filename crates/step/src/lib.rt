// One step of a gate in all circuits at once: what its line is to be, from the rows of the table.
#![tactic(auto)]

pub mod gate;
pub mod rows;
pub mod target;
