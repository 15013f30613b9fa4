// Trials of fault sets: the same tables for every kind.
#![tactic(auto)]

#[cfg(test)]
mod cases;
#[cfg(test)]
mod rows;
