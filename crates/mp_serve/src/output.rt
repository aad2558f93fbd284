//! An output by its bytes, and its reference by its id and index.

ghost use Rattle.std.specs.Prelude.{◌≡◌, IfOk, option_copied};
ghost use Rattle.std.specs.Result.{result_ok};
ghost use Rattle.mp_names.specs.Fault.{Reads};
ghost use Rattle.mp_serve.specs.Output.{around, has_nothing_else, sole_output, output_in, id_in, ref_by, ref_in};

use mp_lines::bytes_of;
use mp_memory::{Memory, NoMemory};
use mp_names::{LineFault, Reason, number_in, split_once};
use mp_tx::{OutRef, Output, Tx, TxFault, TxId};

// The bytes before and after those of the only output of a transaction of format 1, which has nothing else.
const BEFORE: [u8; 5] = [1, 0, 0, 0, 1];

const BEHIND: [u8; 22] = [
    0, 0, 0, 0, 0, 0, 0, 0, 255, 255, 255, 255, 255, 255, 255, 255, 0, 0, 0, 0, 0, 0,
];

/// How many bytes a transaction has in addition to those of its output, if it has nothing else.
pub const AROUND_BYTES: usize = 27;

const MAX_INDEX: u64 = (1 << 16) - 1;

fn around(memory: Memory, bytes: &[u8]) -> Result<Vec<u8, Memory>, NoMemory>
    ensures { IfOk result (λ v. v.items ≡ around bytes.now) }
{
    let mut whole = Vec::new(memory);
    whole.extend_from_slice(&BEFORE)?;
    whole.extend_from_slice(bytes)?;
    whole.extend_from_slice(&BEHIND)?;
    Ok(whole)
}

fn has_nothing_else(tx: &Tx) -> bool
    ensures { result ≡ has_nothing_else tx.now }
{
    tx.inputs().len() == 0
        && tx.from() == 0
        && tx.to() == u64::MAX
        && tx.forge().is_empty()
        && tx.scripts().len() == 0
        && tx.signatures().len() == 0
}

fn sole_output(tx: &Tx) -> Result<Option<Output>, NoMemory>
    ensures { IfOk result (λ o. o ≡ sole_output tx.now) }
{
    if !has_nothing_else(tx) {
        return Ok(None);
    }
    match tx.outputs().get(0) {
        Some(output) => Ok(Some(output.share()?)),
        None => Ok(None),
    }
}

/// The output that has these bytes in a transaction.
pub fn output_in(memory: Memory, bytes: &[u8]) -> Result<Option<Output>, NoMemory>
    ensures { IfOk result (λ o. o ≡ output_in bytes.now) }
{
    let whole = around(memory, bytes)?;
    match Tx::decode(memory, &whole) {
        Ok(tx) => sole_output(&tx),
        Err(TxFault::NoMemory) => Err(NoMemory),
        Err(_) => Ok(None),
    }
}

fn id_in(bytes: &[u8]) -> Option<TxId>
    ensures { result ≡ id_in bytes.now }
{
    bytes.as_array::<32>().copied()
}

fn ref_by<'a>(
    memory: Memory,
    word: &'a [u8],
    digits: &'a [u8],
    index: &'a [u8],
) -> Result<OutRef, LineFault<'a>>
    ensures { Reads (ref_by digits.now (Some index.now)) result }
{
    let bytes = bytes_of(memory, digits)?;
    let Some(id) = id_in(&bytes) else {
        return Err(LineFault::Bad(Reason::NoOutput(word)));
    };
    let index = number_in(index, 0, MAX_INDEX)?;
    Ok(OutRef {
        id,
        index: index as u16,
    })
}

/// The reference that a word `ID#INDEX` is.
#[tactic(auto, unfolding(crate::specs::Output::ref_in))]
pub fn ref_in<'a>(memory: Memory, word: &'a [u8]) -> Result<OutRef, LineFault<'a>>
    ensures { Reads (ref_in word.now) result }
{
    let (digits, index) = split_once(word, b'#');
    match index {
        Some(index) => ref_by(memory, word, digits, index),
        None => Err(LineFault::Bad(Reason::NoOutput(word))),
    }
}
