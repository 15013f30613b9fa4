// The records of a job file: functions from what is left of the file to a value and what is left after it.
#![tactic(auto)]

mod fault;
mod flags;
mod gate;
mod head;
pub mod parts;
