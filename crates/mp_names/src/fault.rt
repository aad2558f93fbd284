//! Why a line does nothing.

ghost use Rattle.std.specs.Prelude.{◌≡◌};
ghost use Rattle.mp_names.specs.declared.fault.LineFault.TheVariants as line_faults;

use crate::reason::Reason;
use mp_memory::NoMemory;
use std::alloc::{AllocError, AllocFailed};

/// Why a line does nothing.
#[derive(Clone, Copy)]
pub enum LineFault<'a> {
    NoMemory,
    /// The line isn't in the language, for this reason.
    Bad(Reason<'a>),
}

impl<'a> From<Reason<'a>> for LineFault<'a> {
    ghost from_gives = { λ reason e. e ≡ line_faults.Bad reason };

    fn from(reason: Reason<'a>) -> LineFault<'a> {
        LineFault::Bad(reason)
    }
}

impl<'a> From<NoMemory> for LineFault<'a> {
    ghost from_gives = { λ _ e. e ≡ line_faults.NoMemory };

    fn from(_error: NoMemory) -> LineFault<'a> {
        LineFault::NoMemory
    }
}

impl<'a, T: Drop> From<AllocFailed<T>> for LineFault<'a> {
    ghost from_gives = { λ _ e. e ≡ line_faults.NoMemory };

    fn from(_refused: AllocFailed<T>) -> LineFault<'a> {
        LineFault::NoMemory
    }
}

impl<'a> From<AllocError> for LineFault<'a> {
    ghost from_gives = { λ _ e. e ≡ line_faults.NoMemory };

    fn from(_error: AllocError) -> LineFault<'a> {
        LineFault::NoMemory
    }
}
