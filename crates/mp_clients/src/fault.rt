//! Why a conversation ends before its input does.

use mp_session::{MANY_LINES_FAULT, NO_MEMORY_FAULT, READ_FAULT, WRITE_FAULT};
use std::fmt;

/// Why a conversation ends before its input does. The program prints its text.
#[derive(Clone, Copy, Debug, PartialEq, Eq)]
pub enum ClientFault {
    /// An allocation failed before the conversations went on.
    NoMemory,
    ReadFault,
    WriteFault,
    /// At least 2^64 - 2 lines were answered.
    ManyLines,
    /// The pool has an entry of this conversation that it doesn't know. It isn't expected.
    Foreign,
    /// An allocation failed after a change was made, so its answer is lost.
    Untold,
}

impl fmt::Display for ClientFault {
    fn fmt<W: fmt::Write>(&self, f: &mut fmt::Formatter<W>) -> fmt::Result {
        f.write_str(match self {
            ClientFault::NoMemory => NO_MEMORY_FAULT,
            ClientFault::ReadFault => READ_FAULT,
            ClientFault::WriteFault => WRITE_FAULT,
            ClientFault::ManyLines => MANY_LINES_FAULT,
            ClientFault::Foreign => "fault: foreign",
            ClientFault::Untold => "fault: an answer was lost",
        })
    }
}
