//! Histories: what each caller asked and what the pool replied, and whether a history is legal.
#![tactic(auto)]

mod entry;
mod fault;
mod history;
mod laws;
mod word;

pub use entry::Entry;
pub use fault::AuditFault;
pub use history::{audit, audit_successor};
pub use laws::{audit_faults, interleavings, successors};
pub use word::{Caller, CommitRight, Front, History, NewName, PoolName, look};
