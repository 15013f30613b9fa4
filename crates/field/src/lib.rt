// The fields of a job file: one byte each, with what the byte may be.
#![tactic(auto)]

pub mod byte;
pub mod row;
pub mod unread;
