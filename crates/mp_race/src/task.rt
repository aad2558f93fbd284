//! The tasks of a worker.

use mp_seqpool::Command;

/// A task of a worker of a race.
#[derive(Drop)]
pub enum Task {
    /// Make this change.
    Change(Command),
    /// Take a snapshot.
    Read,
}
