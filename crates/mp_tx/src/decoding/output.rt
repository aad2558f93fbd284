//! Reading outputs.

ghost use Rattle.std.specs.Prelude.{◌≡◌, [], None, Option};
ghost use Rattle.mp_tx.specs.declared.output.Output as told;
ghost use Rattle.mp_tx.specs.Reading.{Reads, items_read, few_read, output_read, itself};

use super::bundle::read_bundle;
use super::field::read_count;
use crate::fault::TxFault;
use crate::output::Output;
use mp_bytes::split_array;
use mp_memory::Memory;

#[tactic(auto, unfolding(crate::specs::Reading::output_read))]
fn read_output(memory: Memory, bytes: &[u8]) -> Result<(Output, &[u8]), TxFault>
    ensures { (before : Option told.Output) →
        Reads (λ x. (x.0, x.1.now)) result (output_read before bytes.now) }
{
    let Some((address, rest)) = split_array::<32>(bytes) else {
        return Err(TxFault::Truncated);
    };
    let Some((datum_hash, rest)) = split_array::<32>(rest) else {
        return Err(TxFault::Truncated);
    };
    let (value, rest) = read_bundle(memory, rest)?;
    let output = Output {
        address: *address,
        datum_hash: *datum_hash,
        value,
    };
    Ok((output, rest))
}

// Puts this many outputs into an empty vector, and returns the bytes after them.
fn put_outputs<'a>(
    memory: Memory,
    outputs: &mut Vec<Output, Memory>,
    count: u16,
    bytes: &'a [u8],
) -> Result<&'a [u8], TxFault>
    requires { outputs.old.items ≡ [] }
    ensures { Reads (λ rest. (outputs.new.items, rest.now)) result
        (items_read itself output_read None count bytes.now) }
{
    let mut rest = bytes;
    for _ in 0..count {
        match read_output(memory, rest) {
            Ok((output, after)) => {
                outputs.push(output)?;
                rest = after;
            }
            Err(fault) => return Err(fault),
        }
    }
    Ok(rest)
}

/// Puts a count of at most 256 outputs into an empty vector, and returns the bytes after them.
pub fn fill_outputs<'a>(
    memory: Memory,
    outputs: &mut Vec<Output, Memory>,
    bytes: &'a [u8],
) -> Result<&'a [u8], TxFault>
    requires { outputs.old.items ≡ [] }
    ensures { Reads (λ rest. (outputs.new.items, rest.now)) result
        (few_read itself output_read bytes.now) }
{
    let (count, rest) = read_count(bytes)?;
    outputs.reserve_exact(count as usize)?;
    put_outputs(memory, outputs, count, rest)
}
