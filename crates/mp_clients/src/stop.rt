//! Why a line gets no answer of its own.

ghost use Rattle.std.specs.Prelude.{◌≡◌};
ghost use Rattle.mp_clients.specs.declared.stop.ClientStop.TheVariants as stops;

use mp_memory::NoMemory;
use std::alloc::{AllocError, AllocFailed};

/// Why a line gets no answer of its own.
#[derive(Clone, Copy, Debug, PartialEq, Eq)]
pub enum ClientStop {
    /// An allocation failed. No change was made.
    NoMemory,
    /// An allocation failed after a change was made.
    Untold,
    /// The pool has an entry of this conversation that it doesn't know.
    Foreign,
}

impl From<NoMemory> for ClientStop {
    ghost from_gives = { λ _ e. e ≡ stops.NoMemory };

    fn from(_error: NoMemory) -> ClientStop {
        ClientStop::NoMemory
    }
}

impl From<AllocError> for ClientStop {
    ghost from_gives = { λ _ e. e ≡ stops.NoMemory };

    fn from(_error: AllocError) -> ClientStop {
        ClientStop::NoMemory
    }
}

impl<T: Drop> From<AllocFailed<T>> for ClientStop {
    ghost from_gives = { λ _ e. e ≡ stops.NoMemory };

    fn from(_refused: AllocFailed<T>) -> ClientStop {
        ClientStop::NoMemory
    }
}
