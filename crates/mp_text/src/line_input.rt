//! Reading a line of which at most a limit is kept.

ghost use Rattle.std.specs.Prelude.{◌≡◌, ◌≤◌, length, IfSome, IfOk, OnOk};
ghost use Rattle.std.specs.Io.BufRead.{DropsThrough};
ghost use Rattle.mp_text.specs.LineInput.{IsLine};
ghost use Rattle.mp_text.specs.Inside.LineInput.{IsStep};

use crate::scan::length_before;
use mp_memory::Memory;
use std::io::{BufRead, ErrorKind};
use thiserror::Error;

const LINE_FEED: u8 = b'\n';

/// The result of reading a line.
#[derive(Clone, Copy, Debug, PartialEq, Eq)]
pub enum LineRead {
    /// The input had ended.
    End,
    /// The line was kept.
    Whole,
    /// The line is longer than the limit.
    TooLong,
    /// Its allocation failed.
    Lost,
}

/// A read failed.
#[derive(Clone, Copy, Debug, PartialEq, Eq, Error)]
#[error("the input could not be read")]
pub struct ReadFault;

// The result of reading a part of a line.
#[derive(Clone, Copy, PartialEq, Eq)]
enum Step {
    More,
    Feed,
    End,
    TooLong,
    Lost,
}

// Adds what the reader shows of the line, and consumes the feed that ends it. If it can't be added, nothing is consumed.
fn read_part<R: BufRead>(
    reader: &mut R,
    line: &mut Vec<u8, Memory>,
    limit: usize,
) -> Result<Step, ReadFault>
    requires { length line.old.items ≤ limit }
    ensures step { IfOk result (λ step. IsStep limit (R.remaining reader.old) (R.remaining reader.new)
        line.old.items line.new.items step) }
    ensures bounded { length line.new.items ≤ limit }
{
    let shown = match reader.fill_buf() {
        Ok(shown) => shown,
        Err(error) if error.kind() == ErrorKind::Interrupted => return Ok(Step::More),
        Err(_) => return Err(ReadFault),
    };
    if shown.is_empty() {
        return Ok(Step::End);
    }
    let end = length_before(shown, LINE_FEED);
    if end > limit - line.len() {
        return Ok(Step::TooLong);
    }
    if line.extend_from_slice(&shown[..end]).is_err() {
        return Ok(Step::Lost);
    }
    if end < shown.len() {
        reader.consume(end + 1);
        return Ok(Step::Feed);
    }
    reader.consume(end);
    Ok(Step::More)
}

// Reads the rest of the line and keeps none of it.
fn skip<R: BufRead>(reader: &mut R, read: LineRead) -> Result<LineRead, ReadFault>
    ensures read { IfOk result (λ r. r ≡ read) }
    ensures rest { OnOk result
        (DropsThrough (R.remaining reader.old) (R.remaining reader.new) 10) }
{
    match reader.skip_until(LINE_FEED) {
        Ok(_) => Ok(read),
        Err(_) => Err(ReadFault),
    }
}

/// Reads a line with its line feed, or what is left of the input. A line of at most `limit` bytes replaces the former content,
/// without its feed. Of a longer one, or if an allocation fails, at most `limit` bytes are kept.
///
/// # Errors
/// If a read fails. Then the contract says nothing about the reader.
pub fn read_line<R: BufRead>(
    reader: &mut R,
    line: &mut Vec<u8, Memory>,
    limit: usize,
) -> Result<LineRead, ReadFault>
    ensures rest { OnOk result
        (DropsThrough (R.remaining reader.old) (R.remaining reader.new) 10) }
    ensures line { IfSome (R.remaining reader.old)
        (λ bytes. IfOk result (λ read. IsLine limit bytes read line.new.items)) }
    ensures bounded { length line.new.items ≤ limit }
{
    line.clear();
    for _ in 0..u64::MAX {
        match read_part(reader, line, limit)? {
            Step::More => {}
            Step::Feed => return Ok(LineRead::Whole),
            Step::End if line.is_empty() => return Ok(LineRead::End),
            Step::End => return Ok(LineRead::Whole),
            Step::TooLong => return skip(reader, LineRead::TooLong),
            Step::Lost => return skip(reader, LineRead::Lost),
        }
    }
    Err(ReadFault)
}
