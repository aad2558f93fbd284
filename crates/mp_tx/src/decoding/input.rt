//! Reading inputs.

ghost use Rattle.std.specs.Prelude.{◌≡◌, [], None};
ghost use Rattle.mp_tx.specs.Reading.{Reads, items_read, few_read, input_read};

use super::field::{read_count, read_data, read_ref, read_script};
use crate::fault::TxFault;
use crate::input::Input;
use crate::order::ref_follows;
use crate::reference::OutRef;
use mp_memory::Memory;

#[tactic(auto, unfolding(crate::specs::Reading::input_read))]
fn read_input(
    memory: Memory,
    before: Option<OutRef>,
    bytes: &[u8],
) -> Result<(Input, &[u8]), TxFault>
    ensures { Reads (λ x. (x.0, x.1.now)) result (input_read before bytes.now) }
{
    let (from, rest) = read_ref(bytes)?;
    if !ref_follows(before, &from) {
        return Err(TxFault::NotRising);
    }
    let (validator, rest) = read_script(memory, rest)?;
    let (datum, rest) = read_data(memory, rest)?;
    let (redeemer, rest) = read_data(memory, rest)?;
    let input = Input {
        from,
        validator,
        datum,
        redeemer,
    };
    Ok((input, rest))
}

// Puts this many inputs into an empty vector, and returns the bytes after them.
fn put_inputs<'a>(
    memory: Memory,
    inputs: &mut Vec<Input, Memory>,
    count: u16,
    bytes: &'a [u8],
) -> Result<&'a [u8], TxFault>
    requires { inputs.old.items ≡ [] }
    ensures { Reads (λ rest. (inputs.new.items, rest.now)) result
        (items_read (λ i. i.from) input_read None count bytes.now) }
{
    let mut before = None;
    let mut rest = bytes;
    for _ in 0..count {
        match read_input(memory, before, rest) {
            Ok((input, after)) => {
                before = Some(input.from);
                inputs.push(input)?;
                rest = after;
            }
            Err(fault) => return Err(fault),
        }
    }
    Ok(rest)
}

/// Puts a count of at most 256 inputs into an empty vector, and returns the bytes after them.
pub fn fill_inputs<'a>(
    memory: Memory,
    inputs: &mut Vec<Input, Memory>,
    bytes: &'a [u8],
) -> Result<&'a [u8], TxFault>
    requires { inputs.old.items ≡ [] }
    ensures { Reads (λ rest. (inputs.new.items, rest.now)) result
        (few_read (λ i. i.from) input_read bytes.now) }
{
    let (count, rest) = read_count(bytes)?;
    inputs.reserve_exact(count as usize)?;
    put_inputs(memory, inputs, count, rest)
}
