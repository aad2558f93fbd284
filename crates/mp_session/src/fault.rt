//! Why a run fails.

ghost use Rattle.std.specs.Prelude.{◌≡◌};
ghost use Rattle.mp_session.specs.RunFault as run_fault;

use crate::fault_text::{NO_MEMORY_FAULT, READ_FAULT, WRITE_FAULT, put_bad_line};
use std::fmt;

/// Why a run ended before its input. `Display` writes the line that the program prints.
#[derive(Clone, Copy, Debug, PartialEq, Eq)]
pub enum RunFault {
    NoMemory,
    /// The number of the line, from 1.
    BadLine(u64),
    ReadFault,
    WriteFault,
}

impl RunFault {
    /// The number of the fault: 1 to 4.
    pub fn number(&self) -> u64
        ensures { result ≡ run_fault.number self.now }
    {
        match self {
            RunFault::NoMemory => 1,
            RunFault::BadLine(_) => 2,
            RunFault::ReadFault => 3,
            RunFault::WriteFault => 4,
        }
    }
}

impl fmt::Display for RunFault {
    fn fmt<W: fmt::Write>(&self, f: &mut fmt::Formatter<W>) -> fmt::Result {
        match self {
            RunFault::NoMemory => f.write_str(NO_MEMORY_FAULT),
            RunFault::BadLine(line) => put_bad_line(f, *line),
            RunFault::ReadFault => f.write_str(READ_FAULT),
            RunFault::WriteFault => f.write_str(WRITE_FAULT),
        }
    }
}
