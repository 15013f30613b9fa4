// A job: a lawful circuit and the faults to grade.
#![tactic(auto)]

pub mod job;
mod made;
pub mod read;
