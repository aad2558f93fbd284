//! Writing all of some bytes.

ghost use Rattle.std.specs.Prelude.{ℕ, ◌<◌, ◌≤◌, length, take, IfSome, IfNone, OnOk, OnErr};
ghost use Rattle.std.specs.Io.KnownBytes.{Appends, Keeps};
ghost use Rattle.mp_text.specs.Output.{AppendsFront};

use std::io::Write;
use thiserror::Error;

/// A write failed, or took none of the bytes that were left.
#[derive(Clone, Copy, Debug, PartialEq, Eq, Error)]
#[error("the output could not be written")]
pub struct WriteFault;

// One write. It returns how many bytes were taken, or `None` if it failed.
fn write_once<W: Write>(writer: &mut W, bytes: &[u8]) -> Option<usize>
    ensures taken { IfSome result (λ n. 0 < n) }
    ensures within { IfSome result (λ n. n ≤ length bytes.now) }
    ensures some { IfSome result
        (λ n. Appends (W.contents writer.old) (W.contents writer.new) (take n bytes.now)) }
    ensures none { IfNone result (Keeps (W.contents writer.old) (W.contents writer.new)) }
{
    match writer.write(bytes) {
        Ok(0) | Err(_) => None,
        Ok(taken) => Some(taken),
    }
}

/// Writes all the bytes, in as many writes as the writer needs, and doesn't flush. After an `Err` the writer has taken a prefix
/// of the bytes, and never all.
pub fn write_all<W: Write>(writer: &mut W, bytes: &[u8]) -> Result<(), WriteFault>
    ensures ok { OnOk result (Appends (W.contents writer.old) (W.contents writer.new) bytes.now) }
    ensures err { OnErr result
        (AppendsFront (W.contents writer.old) (W.contents writer.new) bytes.now) }
{
    let mut written = 0;
    while written < bytes.len() {
        match write_once(writer, &bytes[written..]) {
            Some(taken) => written += taken,
            None => return Err(WriteFault),
        }
    }
    Ok(())
}
