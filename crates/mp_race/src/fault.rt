//! Why a race ends without a report.

ghost use Rattle.std.specs.Prelude.{◌≡◌};
ghost use Rattle.mp_race.specs.RaceFault as told;
ghost use Rattle.mp_race.specs.declared.fault.RaceFault.TheVariants as faults;

use mp_history::AuditFault;
use mp_memory::NoMemory;
use mp_session::{NO_MEMORY_FAULT, READ_FAULT, WRITE_FAULT, put_bad_line};
use std::alloc::{AllocError, AllocFailed};
use std::fmt;

/// Why a race ends without a report. The program prints its text.
#[derive(Drop)]
pub enum RaceFault {
    NoMemory,
    /// The number of the line, from 1.
    BadLine(u64),
    ReadFault,
    WriteFault,
    /// A history isn't legal. No race ends with this.
    Audit(AuditFault),
    /// The least place of the history with no receipt or two; or the number of receipts, if the pool has more entries.
    MissingEntry(u64),
}

impl RaceFault {
    /// The number of the fault: 1 to 6.
    pub fn number(&self) -> u64
        ensures { result ≡ told.number self.now }
    {
        match self {
            RaceFault::NoMemory => 1,
            RaceFault::BadLine(_) => 2,
            RaceFault::ReadFault => 3,
            RaceFault::WriteFault => 4,
            RaceFault::Audit(_) => 5,
            RaceFault::MissingEntry(_) => 6,
        }
    }
}

impl From<NoMemory> for RaceFault {
    ghost from_gives = { λ _ e. e ≡ faults.NoMemory };

    fn from(_error: NoMemory) -> RaceFault {
        RaceFault::NoMemory
    }
}

impl<T: Drop> From<AllocFailed<T>> for RaceFault {
    ghost from_gives = { λ _ e. e ≡ faults.NoMemory };

    fn from(_refused: AllocFailed<T>) -> RaceFault {
        RaceFault::NoMemory
    }
}

impl From<AllocError> for RaceFault {
    ghost from_gives = { λ _ e. e ≡ faults.NoMemory };

    fn from(_error: AllocError) -> RaceFault {
        RaceFault::NoMemory
    }
}

// The place of an audit's fault, or that an allocation failed.
fn put_audit<W: fmt::Write>(f: &mut fmt::Formatter<W>, fault: &AuditFault) -> fmt::Result {
    match fault {
        AuditFault::NoMemory => f.write_str(NO_MEMORY_FAULT),
        AuditFault::WrongReply(place) | AuditFault::StrangeCaller(place) => {
            write!(f, "fault: audit {place}")
        }
    }
}

impl fmt::Display for RaceFault {
    fn fmt<W: fmt::Write>(&self, f: &mut fmt::Formatter<W>) -> fmt::Result {
        match self {
            RaceFault::NoMemory => f.write_str(NO_MEMORY_FAULT),
            RaceFault::BadLine(line) => put_bad_line(f, *line),
            RaceFault::ReadFault => f.write_str(READ_FAULT),
            RaceFault::WriteFault => f.write_str(WRITE_FAULT),
            RaceFault::Audit(fault) => put_audit(f, fault),
            RaceFault::MissingEntry(place) => write!(f, "fault: missing entry {place}"),
        }
    }
}
