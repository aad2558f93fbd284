//! The content of a picture.

/// The result of a command.
#[derive(Clone, Copy, Debug, PartialEq, Eq)]
pub enum Kind {
    Accepted,
    Removed,
    Synced,
    Refused,
}

/// One command of a race, and its result.
#[derive(Clone, Copy, Debug, PartialEq, Eq)]
pub struct Mark {
    /// The worker that ran it, from 0.
    pub worker: u32,
    /// The place of its entry in the history, from 0. For a refusal, the number of entries at that time.
    pub place: u64,
    pub kind: Kind,
}
