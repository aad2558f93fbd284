//! All the bytes of a history's text.

ghost use Rattle.std.specs.Prelude.{◌≡◌, ℕ, ◌<◌, ◌≤◌, ◌++◌, length, take, IfSome, IfOk, OnOk};
ghost use Rattle.std.specs.Io.KnownBytes.{Consumes, IsAtEnd};

use mp_memory::Memory;
use mp_text::InputFault;
use std::io::Read;

/// The most bytes of a history's text: more than any has. A scenario of 2^24 bytes has fewer than 2^22 changes, since the
/// shortest, `sync 0`, takes 7 bytes with its line feed. An entry names no ticket twice, and each is of a submit of the scenario.
///
/// Of n submits and m other changes, n times m is at most 2^42. A ticket takes up to 21 bytes, and the rest of an entry up to
/// 100. That is less than 2^47 bytes in all, and memory ends long before.
pub const MAX_HISTORY_BYTES: u64 = 1 << 47;

const CHUNK_BYTES: usize = 4096;

// One read into the chunk. It returns how many bytes came: 0 only at the end.
fn read_once<R: Read>(reader: &mut R, chunk: &mut [u8]) -> Result<usize, InputFault>
    requires { 0 < length chunk.old }
    ensures within { IfOk result (λ n. n ≤ length chunk.new) }
    ensures bytes { IfOk result
        (λ n. Consumes (R.remaining reader.old) (R.remaining reader.new) (take n chunk.new)) }
    ensures end { IfOk result (λ n. n ≡ 0 → IsAtEnd (R.remaining reader.new)) }
{
    reader.read(chunk).map_err(|_| InputFault::Read)
}

fn append(text: &mut Vec<u8, Memory>, bytes: &[u8]) -> Result<(), InputFault>
    ensures { OnOk result (text.new.items ≡ text.old.items ++ bytes.now) }
{
    if bytes.len() as u64 > MAX_HISTORY_BYTES.saturating_sub(text.len() as u64) {
        return Err(InputFault::Read);
    }
    text.extend_from_slice(bytes)?;
    Ok(())
}

/// Returns all the bytes that a reader has left, at most `MAX_HISTORY_BYTES`.
///
/// # Errors
/// `Read` if a read fails or there are more bytes. `NoMemory` may replace any other answer. After an `Err` the contract says
/// nothing about the reader.
pub fn read_history_text<R: Read>(
    memory: Memory,
    reader: &mut R,
) -> Result<Vec<u8, Memory>, InputFault>
    ensures { IfOk result (λ text. IfSome (R.remaining reader.old) (λ bytes. text.items ≡ bytes)) }
{
    let mut text = Vec::new(memory);
    let mut chunk = [0; CHUNK_BYTES];
    for _ in 0..=MAX_HISTORY_BYTES {
        let count = read_once(reader, &mut chunk)?;
        if count == 0 {
            return Ok(text);
        }
        append(&mut text, &chunk[..count])?;
    }
    Err(InputFault::Read)
}
