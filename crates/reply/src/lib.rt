// What the program answers to its input: the text that it prints, from the bytes that it read.
#![tactic(auto)]

pub mod input;
pub mod text;
