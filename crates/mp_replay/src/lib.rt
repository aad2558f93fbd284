//! The audit of the history of a served pool: one conversation is asked its lines again.
#![tactic(auto)]

mod asking;
mod entries;
mod fault;
mod replaying;

pub use fault::ReplayFault;
pub use replaying::replay;
