//! The configuration of a pool.

ghost use Rattle.std.specs.Prelude.{◌^◌, ◌≤◌};

/// The configuration of a pool.
#[derive(Clone, Copy, Debug, PartialEq, Eq)]
pub struct Config {
    /// The greatest number of changes: 1 to 2^32.
    pub limit: u64,
    /// The ticket before the first one that the pool gives.
    pub last: u64,
    ghost least: { 1 ≤ limit },
    ghost greatest: { limit ≤ 2 ^ 32 },
}
