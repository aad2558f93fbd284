//! Why a text isn't a legal history.

use mp_names::Reason;
use mp_session::{NO_MEMORY_FAULT, put_bad_line};
use std::fmt;

/// Why a text isn't a legal history. The numbers are those of lines, from 1. The program prints its text.
#[derive(Clone, Copy)]
pub enum ReplayFault<'a> {
    /// An allocation failed.
    NoMemory,
    /// The conversation can't be asked this line, for this reason.
    BadLine(u64, Reason<'a>),
    /// The history ends after this line, which has no answer.
    NoAnswer(u64),
    /// This line records another answer.
    WrongAnswer(u64),
    /// This line is an entry, but not with the next place.
    WrongPlace(u64),
    /// This line is an entry with the next place, but has no caller from 0 to 63.
    BadCaller(u64),
}

impl<'a> ReplayFault<'a> {
    ghost use Rattle.std.specs.Prelude.{◌≡◌};
    ghost use Rattle.mp_replay.specs.ReplayFault.{bad_line_of};

    /// The number of the bad line, and what is wrong with it.
    pub fn bad_line(&self) -> Option<(u64, Reason<'a>)>
        ensures { result ≡ bad_line_of self.now }
    {
        match self {
            ReplayFault::BadLine(number, reason) => Some((*number, *reason)),
            _ => None,
        }
    }
}

impl fmt::Display for ReplayFault<'_> {
    fn fmt<W: fmt::Write>(&self, f: &mut fmt::Formatter<W>) -> fmt::Result {
        match self {
            ReplayFault::NoMemory => f.write_str(NO_MEMORY_FAULT),
            ReplayFault::BadLine(number, _) | ReplayFault::BadCaller(number) => put_bad_line(
                f, *number,
            ),
            ReplayFault::NoAnswer(number) => write!(f, "fault: missing answer {number}"),
            ReplayFault::WrongAnswer(number) => write!(f, "fault: audit {number}"),
            ReplayFault::WrongPlace(number) => write!(f, "fault: missing entry {number}"),
        }
    }
}
