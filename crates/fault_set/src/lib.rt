// Fault sets: which of the numbers 0 to 191 are in a set, and nothing else about it.
#![tactic(auto)]

pub mod set;
pub mod walk;
