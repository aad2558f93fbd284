//! What a caller gets for a change.

use mp_history::Entry;

/// What a caller gets for a change that it has made: the entry of the change, and its place in the pool's history, from 0.
#[derive(Drop)]
pub struct Receipt {
    /// The place: how many entries precede it.
    pub place: u64,
    /// The caller, its command and the reply.
    pub entry: Entry,
}
