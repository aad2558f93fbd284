//! Why a text can't be read.

ghost use Rattle.std.specs.Prelude.{◌≡◌};

use crate::fault::RaceFault;
use mp_memory::NoMemory;
use mp_names::Reason;

/// Why a text can't be read.
#[derive(Clone, Copy)]
pub enum RaceStop<'a> {
    NoMemory,
    /// The number of the first bad line, from 1, and what is wrong with it.
    BadLine(u64, Reason<'a>),
}

impl<'a> RaceStop<'a> {
    ghost use Rattle.std.specs.Prelude.{◌≡◌};
    ghost use Rattle.mp_race.specs.Reading.{fault_of, bad_line_of};

    /// The number of the bad line, and what is wrong with it.
    pub fn bad_line(&self) -> Option<(u64, Reason<'a>)>
        ensures { result ≡ bad_line_of self.now }
    {
        match self {
            RaceStop::NoMemory => None,
            RaceStop::BadLine(number, reason) => Some((*number, *reason)),
        }
    }

    /// The fault that the program reports.
    pub fn to_fault(&self) -> RaceFault
        ensures { result ≡ fault_of self.now }
    {
        match self {
            RaceStop::NoMemory => RaceFault::NoMemory,
            RaceStop::BadLine(number, _) => RaceFault::BadLine(*number),
        }
    }
}

impl From<NoMemory> for RaceStop<'_> {
    ghost use Rattle.mp_race.specs.declared.stop.RaceStop.TheVariants as stops;

    ghost from_gives = { λ _ e. e ≡ stops.NoMemory };

    fn from(_error: NoMemory) -> Self {
        RaceStop::NoMemory
    }
}
