//! The configuration of a mempool.

/// The configuration of a mempool.
#[derive(Clone, Copy, Debug, PartialEq, Eq)]
pub struct Config {
    /// The most changes that the pool makes: 1 to 2^32.
    pub limit: u64,
    /// The ticket before the first one that the pool gives.
    pub last: u64,
}
