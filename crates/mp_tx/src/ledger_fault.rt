//! Why outputs make no ledger state.

ghost use Rattle.std.specs.Prelude.{◌≡◌};
ghost use Rattle.mp_tx.specs.declared.ledger_fault.LedgerFault.TheVariants as ledger_faults;
ghost use Rattle.mp_tx.specs.LedgerFault as ledger_fault;

use mp_memory::NoMemory;
use std::alloc::{AllocError, AllocFailed};
use thiserror::Error;

/// Why outputs make no ledger state. `NoMemory` may be returned instead of any answer.
#[derive(Clone, Copy, Debug, PartialEq, Eq, Error)]
pub enum LedgerFault {
    #[error("no memory")]
    NoMemory,
    /// The first index, from 0, whose reference an earlier output has. Reported only if the block bytes are in range.
    #[error("output {0} has the reference of an earlier one")]
    Repeated(usize),
    /// The block bytes are 0, or greater than 2^39.
    #[error("the block bytes are not 1 to 549755813888")]
    BadBlockBytes,
}

impl LedgerFault {
    /// The number of the fault: 1 to 3.
    pub const fn number(self) -> u64
        ensures { result ≡ ledger_fault.number self }
    {
        match self {
            LedgerFault::NoMemory => 1,
            LedgerFault::Repeated(_) => 2,
            LedgerFault::BadBlockBytes => 3,
        }
    }
}

impl From<AllocError> for LedgerFault {
    ghost from_gives = { λ _ e. e ≡ ledger_faults.NoMemory };

    fn from(_error: AllocError) -> LedgerFault {
        LedgerFault::NoMemory
    }
}

impl<T: Drop> From<AllocFailed<T>> for LedgerFault {
    ghost from_gives = { λ _ e. e ≡ ledger_faults.NoMemory };

    fn from(_refused: AllocFailed<T>) -> LedgerFault {
        LedgerFault::NoMemory
    }
}

impl From<NoMemory> for LedgerFault {
    ghost from_gives = { λ _ e. e ≡ ledger_faults.NoMemory };

    fn from(_error: NoMemory) -> LedgerFault {
        LedgerFault::NoMemory
    }
}
