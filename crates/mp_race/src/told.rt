//! The records of a race's commands.

use mp_mempool::Receipt;
use mp_seqpool::Reply;

/// An entry of a history, as its line records it.
#[derive(Drop)]
pub struct Told {
    /// Its place in the history, from 0.
    pub place: u64,
    /// The number of the worker, from 0.
    pub worker: u32,
    /// The number of the scenario's command, from 0.
    pub task: u64,
    pub reply: Reply,
}

/// A command that was refused.
#[derive(Clone, Copy, Debug, PartialEq, Eq)]
pub struct Refused {
    /// The number of the worker, from 0.
    pub worker: u32,
    /// The number of the scenario's command, from 0.
    pub task: u64,
    /// How many entries the history had at the refusal.
    pub entries: u64,
}

/// A change that a worker has made.
#[derive(Drop)]
pub struct Done {
    /// The number of the scenario's command, from 0.
    pub task: u64,
    pub receipt: Receipt,
}
