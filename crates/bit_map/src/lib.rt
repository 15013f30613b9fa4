// A kind of fault set: one bit for each of the numbers 0 to 191.
#![tactic(auto)]

pub mod map;
mod words;
