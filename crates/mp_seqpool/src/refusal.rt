//! Why the pool refuses a command.

ghost use Rattle.std.specs.Prelude.{◌≡◌};
ghost use Rattle.mp_seqpool.specs.declared.refusal.Refusal.TheVariants as refusals;
ghost use Rattle.mp_seqpool.specs.Refusal as told;

use mp_memory::NoMemory;
use mp_rules::Invalid;
use std::alloc::{AllocError, AllocFailed};
use thiserror::Error;

/// Why the pool refuses a command. If there are several reasons, the one with the least number is returned. `NoMemory`
/// may be returned instead of any answer. A refusal changes nothing.
#[derive(Clone, Copy, Debug, PartialEq, Eq, Error)]
pub enum Refusal {
    #[error("no memory")]
    NoMemory,
    /// The number of changes has reached the limit of the configuration.
    #[error("the history is full")]
    HistoryFull,
    /// The last ticket is the greatest one, 2^64 - 1.
    #[error("the tickets are spent")]
    TicketsSpent,
    /// A transaction with this id is in the pool. Its ticket is given.
    #[error("already in the pool under ticket {0}")]
    AlreadyInPool(u64),
    /// The size of the transaction, and the number of free bytes: twice the ledger's block bytes, less the bytes of the
    /// pool.
    #[error("the pool is full: {need} bytes are needed and {free} are free")]
    Full { need: u64, free: u64 },
    /// The rule that the transaction breaks. It is never `Invalid::NoMemory`: an allocation failure is `NoMemory`
    /// above.
    #[error("the transaction is invalid: {0}")]
    Invalid(Invalid),
}

impl Refusal {
    /// The number of the refusal: 1 to 6.
    pub const fn number(&self) -> u64
        ensures { result ≡ told.number self.now }
    {
        match self {
            Refusal::NoMemory => 1,
            Refusal::HistoryFull => 2,
            Refusal::TicketsSpent => 3,
            Refusal::AlreadyInPool(_) => 4,
            Refusal::Full { .. } => 5,
            Refusal::Invalid(_) => 6,
        }
    }
}

impl From<Invalid> for Refusal {
    ghost use Rattle.mp_seqpool.specs.Inside.Rules.{refusal_for};

    ghost from_gives = { λ fault e. e ≡ refusal_for fault };

    fn from(fault: Invalid) -> Refusal {
        match fault {
            Invalid::NoMemory => Refusal::NoMemory,
            fault => Refusal::Invalid(fault),
        }
    }
}

impl From<NoMemory> for Refusal {
    ghost from_gives = { λ _ e. e ≡ refusals.NoMemory };

    fn from(_error: NoMemory) -> Refusal {
        Refusal::NoMemory
    }
}

impl From<AllocError> for Refusal {
    ghost from_gives = { λ _ e. e ≡ refusals.NoMemory };

    fn from(_error: AllocError) -> Refusal {
        Refusal::NoMemory
    }
}

impl<T: Drop> From<AllocFailed<T>> for Refusal {
    ghost from_gives = { λ _ e. e ≡ refusals.NoMemory };

    fn from(_refused: AllocFailed<T>) -> Refusal {
        Refusal::NoMemory
    }
}
