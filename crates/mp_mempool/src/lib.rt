//! The mempool that many callers share. Any number of threads submit, remove, sync and read. Each answer is that of one
//! sequential pool at some point of a single legal history.
#![tactic(auto)]

mod config;
mod jobs;
mod mempool;
mod opening;
mod read;
mod readers;
mod refusal;
mod successor;
pub mod under_lock;
pub mod write;

pub use config::Config;
pub use jobs::{Job, run_all};
pub use mempool::{Handover, Mempool, Opened};
pub use read::{Pass, Reader, Receipt, SnapshotFor};
pub use refusal::{OpenRefusal, Refusal, SuccessorRefusal};
