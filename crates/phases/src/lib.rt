// Passes of both phases over all circuits side by side.
#![tactic(auto)]

pub mod changes;
pub mod commit;
pub mod drafts;
mod pass;
