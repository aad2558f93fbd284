//! The texts of faults, once for all programs.

use std::fmt;

pub const NO_MEMORY_FAULT: &str = "fault: no memory";

pub const READ_FAULT: &str = "fault: read";

pub const WRITE_FAULT: &str = "fault: write";

pub const MANY_LINES_FAULT: &str = "fault: lines";

/// Writes the text of a fault at this line, a number from 1.
pub fn put_bad_line<W: fmt::Write>(f: &mut fmt::Formatter<W>, line: u64) -> fmt::Result {
    write!(f, "fault: bad line {line}")
}
