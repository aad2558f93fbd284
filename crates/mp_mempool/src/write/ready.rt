//! Steps for which everything is allocated.

use mp_history::Entry;
use mp_memory::Memory;
use mp_seqpool::Prepared;
use mp_versions::Version;
use std::sync::Arc;

/// Owners of one version, one for each holder.
#[derive(Drop)]
pub struct Owners {
    pub for_pass: Arc<Version, Memory>,
    pub for_lock: Arc<Version, Memory>,
    pub for_board: Arc<Version, Memory>,
}

/// What is allocated before a step is taken: the entry that records it, and the version after it.
#[derive(Drop)]
pub struct Outcome {
    pub entry: Entry,
    pub owners: Owners,
}

/// A step that can be taken without allocating.
#[derive(Drop)]
pub struct Ready {
    pub prepared: Prepared,
    pub outcome: Outcome,
}
