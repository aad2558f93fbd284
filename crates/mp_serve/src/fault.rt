//! Why a conversation ends before its input does.

use mp_session::{MANY_LINES_FAULT, NO_MEMORY_FAULT, READ_FAULT, WRITE_FAULT};
use std::fmt;

/// Why a conversation ends before its input does. The program prints its text.
#[derive(Clone, Copy, Debug, PartialEq, Eq)]
pub enum ConversationFault {
    /// An allocation failed before the first line.
    NoMemory,
    ReadFault,
    WriteFault,
    /// 2^64 - 2 lines were answered.
    ManyLines,
}

impl fmt::Display for ConversationFault {
    fn fmt<W: fmt::Write>(&self, f: &mut fmt::Formatter<W>) -> fmt::Result {
        f.write_str(match self {
            ConversationFault::NoMemory => NO_MEMORY_FAULT,
            ConversationFault::ReadFault => READ_FAULT,
            ConversationFault::WriteFault => WRITE_FAULT,
            ConversationFault::ManyLines => MANY_LINES_FAULT,
        })
    }
}
