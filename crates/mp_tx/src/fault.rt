//! Why bytes or parts make no transaction.

ghost use Rattle.std.specs.Prelude.{◌≡◌};
ghost use Rattle.mp_tx.specs.declared.fault.TxFault.TheVariants as tx_faults;
ghost use Rattle.mp_tx.specs.TxFault as tx_fault;

use mp_memory::NoMemory;
use std::alloc::{AllocError, AllocFailed};
use thiserror::Error;

/// Why bytes or parts make no transaction. `NoMemory` may be returned instead of any answer.
#[derive(Clone, Copy, Debug, PartialEq, Eq, Error)]
pub enum TxFault {
    #[error("no memory")]
    NoMemory,
    /// Some bytes of a field are missing.
    #[error("the bytes end within the transaction")]
    Truncated,
    #[error("bytes follow the transaction")]
    Trailing,
    /// The first byte is neither 1 nor 2.
    #[error("the version is not 1 or 2")]
    BadVersion,
    /// An input, a reference, a policy script or a signature isn't greater than the one before it.
    #[error("a part isn't greater than the one before it")]
    NotRising,
    /// A name has more than 32 bytes, a quantity is 0 or -2^63, or an entry isn't greater than the one before it.
    #[error("a bundle is malformed")]
    BadBundle,
    /// A validator or a policy script is no script.
    #[error("a script is malformed")]
    BadScript,
    /// A datum or a redeemer is no datum.
    #[error("a datum is malformed")]
    BadData,
    /// The first tick is greater than the last.
    #[error("the interval ends before it begins")]
    BadInterval,
    /// There are more than 256 inputs, references or outputs, or more than 16,384 bytes.
    #[error("the transaction is too large")]
    TooLarge,
    /// A reference is also spent by an input of the transaction.
    #[error("a reference is also an input")]
    ReferenceSpent,
    /// The transaction has format 2, and no references.
    #[error("format 2 has no references")]
    NoReferences,
}

impl TxFault {
    /// The number of the fault: 1 to 12.
    pub const fn number(self) -> u64
        ensures { result ≡ tx_fault.number self }
    {
        match self {
            TxFault::NoMemory => 1,
            TxFault::Truncated => 2,
            TxFault::Trailing => 3,
            TxFault::BadVersion => 4,
            TxFault::NotRising => 5,
            TxFault::BadBundle => 6,
            TxFault::BadScript => 7,
            TxFault::BadData => 8,
            TxFault::BadInterval => 9,
            TxFault::TooLarge => 10,
            TxFault::ReferenceSpent => 11,
            TxFault::NoReferences => 12,
        }
    }
}

impl From<NoMemory> for TxFault {
    ghost from_gives = { λ _ e. e ≡ tx_faults.NoMemory };

    fn from(_error: NoMemory) -> TxFault {
        TxFault::NoMemory
    }
}

impl From<AllocError> for TxFault {
    ghost from_gives = { λ _ e. e ≡ tx_faults.NoMemory };

    fn from(_error: AllocError) -> TxFault {
        TxFault::NoMemory
    }
}

impl<T: Drop> From<AllocFailed<T>> for TxFault {
    ghost from_gives = { λ _ e. e ≡ tx_faults.NoMemory };

    fn from(_refused: AllocFailed<T>) -> TxFault {
        TxFault::NoMemory
    }
}
