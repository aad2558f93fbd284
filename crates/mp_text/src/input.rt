//! All the bytes of a reader.

ghost use Rattle.std.specs.Prelude.{◌≡◌, ℕ, ◌<◌, ◌≤◌, ◌↔◌, ◌+◌, ◌++◌, length, take, vec_len, IfSome, IfOk, OnOk, IsErrOf};
ghost use Rattle.std.specs.Io.KnownBytes.{Consumes, IsAtEnd};
ghost use Rattle.mp_text.specs.declared.input.InputFault.TheVariants as input_faults;

use mp_memory::Memory;
use std::alloc::AllocError;
use std::io::Read;
use thiserror::Error;

/// The most bytes that an input may have.
pub const MAX_BYTES: usize = 1 << 24;

/// The most reads of an input, with the one that finds its end. Each other read returns at least one byte.
pub const MAX_READS: u64 = 1 << 25;

const CHUNK_BYTES: usize = 4096;

/// Why an input was not read.
#[derive(Clone, Copy, Debug, PartialEq, Eq, Error)]
pub enum InputFault {
    #[error("no memory")]
    NoMemory,
    /// A read failed, the input has more than 2^24 bytes, or 2^25 reads didn't find its end.
    #[error("the input could not be read")]
    Read,
}

impl From<AllocError> for InputFault {
    ghost from_gives = { λ _ e. e ≡ input_faults.NoMemory };

    fn from(_error: AllocError) -> InputFault {
        InputFault::NoMemory
    }
}

// One read into the chunk. It returns how many bytes came: 0 only at the end.
fn read_once<R: Read>(reader: &mut R, chunk: &mut [u8]) -> Result<usize, InputFault>
    requires { 0 < length chunk.old }
    ensures within { IfOk result (λ n. n ≤ length chunk.new) }
    ensures bytes { IfOk result
        (λ n. Consumes (R.remaining reader.old) (R.remaining reader.new) (take n chunk.new)) }
    ensures end { IfOk result (λ n. n ≡ 0 → IsAtEnd (R.remaining reader.new)) }
{
    reader.read(chunk).map_err(|_| InputFault::Read)
}

fn append(text: &mut Vec<u8, Memory>, bytes: &[u8]) -> Result<(), InputFault>
    requires { vec_len text.old ≤ MAX_BYTES }
    ensures bytes { OnOk result (text.new.items ≡ text.old.items ++ bytes.now) }
    ensures most { OnOk result (vec_len text.new ≤ MAX_BYTES) }
    ensures over { IsErrOf result InputFault.Read
        ↔ (MAX_BYTES < vec_len text.old + length bytes.now) }
{
    if bytes.len() > MAX_BYTES - text.len() {
        return Err(InputFault::Read);
    }
    text.extend_from_slice(bytes)?;
    Ok(())
}

/// Returns all the bytes that a reader has left, at most 2^24.
///
/// # Errors
/// `Read` if a read fails, if there are more bytes, or if 2^25 reads don't find the end. `NoMemory` may replace any other answer.
/// After an `Err` the contract says nothing about the reader.
pub fn read_all<R: Read>(memory: Memory, reader: &mut R) -> Result<Vec<u8, Memory>, InputFault>
    ensures bytes { IfOk result
        (λ text. IfSome (R.remaining reader.old) (λ bytes. text.items ≡ bytes)) }
    ensures most { IfOk result (λ text. vec_len text ≤ MAX_BYTES) }
    ensures end { OnOk result (IsAtEnd (R.remaining reader.new)) }
{
    let mut text = Vec::new(memory);
    let mut chunk = [0; CHUNK_BYTES];
    for _ in 0..MAX_READS {
        let count = read_once(reader, &mut chunk)?;
        if count == 0 {
            return Ok(text);
        }
        append(&mut text, &chunk[..count])?;
    }
    Err(InputFault::Read)
}
