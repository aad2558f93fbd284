//! Why a block is refused.

ghost use Rattle.std.specs.Prelude.{◌≡◌};
ghost use Rattle.mp_rules.specs.declared.block.refusal.BlockRefusal.TheVariants as refusals;
ghost use Rattle.mp_rules.specs.Inside.RefusedBlock.{refusal_at};

use crate::invalid::Invalid;
use mp_memory::NoMemory;
use std::alloc::AllocError;
use thiserror::Error;

/// Why a block is refused. `BadBlockBytes` is checked first. `NoMemory` may be returned instead of any answer.
#[derive(Clone, Copy, Debug, PartialEq, Eq, Error)]
pub enum BlockRefusal {
    #[error("no memory")]
    NoMemory,
    /// The block bytes are 0, or greater than 2^39.
    #[error("the block bytes are not 1 to 549755813888")]
    BadBlockBytes,
    /// The index, from 0, of the first transaction that isn't valid after those before it, and the rule that fails. The
    /// rule is never `Invalid::NoMemory`: an allocation failure is `NoMemory` above.
    #[error("transaction {0} is invalid: {1}")]
    Invalid(usize, Invalid),
}

impl BlockRefusal {
    /// The refusal for this fault of the transaction at the index.
    pub(crate) fn at(place: usize, fault: Invalid) -> BlockRefusal
        ensures { result ≡ refusal_at place fault }
    {
        match fault {
            Invalid::NoMemory => BlockRefusal::NoMemory,
            fault => BlockRefusal::Invalid(place, fault),
        }
    }
}

impl From<AllocError> for BlockRefusal {
    ghost from_gives = { λ _ e. e ≡ refusals.NoMemory };

    fn from(_error: AllocError) -> BlockRefusal {
        BlockRefusal::NoMemory
    }
}

impl From<NoMemory> for BlockRefusal {
    ghost from_gives = { λ _ e. e ≡ refusals.NoMemory };

    fn from(_error: NoMemory) -> BlockRefusal {
        BlockRefusal::NoMemory
    }
}
