// Tracks: what the good circuit and all faulty ones say of a line, by one answer and a fault set.
#![tactic(auto)]

pub mod line;
pub mod pairs;
pub mod rules;
pub mod same;
pub mod signal;
pub mod table;
