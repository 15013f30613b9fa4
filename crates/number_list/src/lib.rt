// A fault set kept as an ordered list of its numbers.
#![tactic(auto)]

pub mod list;
mod numbers;
mod rise;
