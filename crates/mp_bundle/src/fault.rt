//! Why entries make no bundle.

ghost use Rattle.std.specs.Prelude.{◌≡◌};
ghost use Rattle.mp_bundle.specs.declared.fault.BundleFault.TheVariants as faults;
ghost use Rattle.mp_bundle.specs.BundleFault as bundle_fault;

use mp_memory::NoMemory;
use std::alloc::{AllocError, AllocFailed};
use thiserror::Error;

/// Why entries make no bundle.
#[derive(Clone, Copy, Debug, PartialEq, Eq, Error)]
pub enum BundleFault {
    #[error("no memory")]
    NoMemory,
    #[error("a token doesn't come after the one before it")]
    NotRising,
    #[error("a quantity is zero")]
    ZeroQuantity,
    #[error("a name has more than 32 bytes")]
    NameTooLong,
    #[error("a quantity is -9223372036854775808")]
    QuantityRange,
}

impl BundleFault {
    /// The number of the fault: 1 to 5.
    pub const fn number(self) -> u64
        ensures { result ≡ bundle_fault.number self }
    {
        match self {
            BundleFault::NoMemory => 1,
            BundleFault::NotRising => 2,
            BundleFault::ZeroQuantity => 3,
            BundleFault::NameTooLong => 4,
            BundleFault::QuantityRange => 5,
        }
    }
}

impl From<AllocError> for BundleFault {
    ghost from_gives = { λ _ e. e ≡ faults.NoMemory };

    fn from(_error: AllocError) -> BundleFault {
        BundleFault::NoMemory
    }
}

impl<T: Drop> From<AllocFailed<T>> for BundleFault {
    ghost from_gives = { λ _ e. e ≡ faults.NoMemory };

    fn from(_error: AllocFailed<T>) -> BundleFault {
        BundleFault::NoMemory
    }
}

impl From<NoMemory> for BundleFault {
    ghost from_gives = { λ _ e. e ≡ faults.NoMemory };

    fn from(_error: NoMemory) -> BundleFault {
        BundleFault::NoMemory
    }
}
