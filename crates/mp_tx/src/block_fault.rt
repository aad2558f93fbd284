//! Why a block can't be applied to a ledger state.

ghost use Rattle.std.specs.Prelude.{◌≡◌};
ghost use Rattle.mp_tx.specs.declared.block_fault.BlockFault.TheVariants as block_faults;

use mp_memory::NoMemory;
use std::alloc::AllocError;
use thiserror::Error;

/// Why a block can't be applied to a ledger state. The checks are made in this order: `BadBlockBytes`, `Missing`,
/// `Repeated`. `NoMemory` may be returned instead of any answer.
#[derive(Clone, Copy, Debug, PartialEq, Eq, Error)]
pub enum BlockFault {
    #[error("no memory")]
    NoMemory,
    /// The block bytes are 0, or greater than 2^39.
    #[error("the block bytes are not 1 to 549755813888")]
    BadBlockBytes,
    /// The first index in what is spent, from 0, whose reference leads to no output or occurs at an earlier index.
    #[error("spent reference {0} leads to no output")]
    Missing(usize),
    /// The first index in what is made, from 0, whose reference is already taken. It occurs at an earlier index, or
    /// leads to an output that the block doesn't spend.
    #[error("output {0} has the reference of another one")]
    Repeated(usize),
}

impl From<AllocError> for BlockFault {
    ghost from_gives = { λ _ e. e ≡ block_faults.NoMemory };

    fn from(_error: AllocError) -> BlockFault {
        BlockFault::NoMemory
    }
}

impl From<NoMemory> for BlockFault {
    ghost from_gives = { λ _ e. e ≡ block_faults.NoMemory };

    fn from(_error: NoMemory) -> BlockFault {
        BlockFault::NoMemory
    }
}
