//! Ledger states.

use crate::answer::is_fault;
use crate::plain::output;
use crate::references::reference;
use crate::wrong::{Result, Wrong};
use mp_memory::Memory;
use mp_tx::{Ledger, OutRef, Output, Salt};

// The outputs of a ledger state.
type Outputs = Vec<(OutRef, Output), Memory>;

// Adds the output of a word like `32*00:7/5`: the reference, then the coin.
fn add_output(memory: Memory, outputs: &mut Outputs, word: &str) -> Result<()> {
    let (place, coin) = word.split_once('/').ok_or(Wrong("no output"))?;
    let reference = reference(memory, place)?;
    let output = output(memory, coin)?;
    outputs.push((reference, output))?;
    Ok(())
}

fn add_outputs(memory: Memory, outputs: &mut Outputs, words: &str) -> Result<()> {
    for word in words.split_whitespace() {
        add_output(memory, outputs, word)?;
    }
    Ok(())
}

// The tick, the block bytes and the words of the outputs.
fn parted(given: &str) -> Result<(u64, u64, &str)> {
    let (tick, others) = given.split_once(' ').ok_or(Wrong("no number"))?;
    let (block_bytes, words) = others.split_once(' ').unwrap_or((others, ""));
    Ok((tick.parse::<u64>()?, block_bytes.parse::<u64>()?, words))
}

// Whether a reference leads to an output of this much coin, or to none.
fn is_held(memory: Memory, ledger: &Ledger, word: &str) -> Result<bool> {
    let (place, coin) = word.split_once('/').ok_or(Wrong("no output"))?;
    match ledger.get(&reference(memory, place)?) {
        None => Ok(coin == "none"),
        Some(_) if coin == "none" => Ok(false),
        Some(found) => Ok(*found == output(memory, coin)?),
    }
}

// Whether `ok` is expected, and the outputs are the expected ones.
fn has_outputs(memory: Memory, ledger: &Ledger, wanted: &str) -> Result<bool> {
    let Some(words) = wanted.strip_prefix("ok") else {
        return Ok(false);
    };
    for word in words.split_whitespace() {
        if !is_held(memory, ledger, word)? {
            return Ok(false);
        }
    }
    Ok(true)
}

/// Whether outputs make a ledger state with these outputs, or have this fault.
pub fn holds(memory: Memory, given: &str, wanted: &str) -> Result<bool> {
    let (tick, block_bytes, words) = parted(given)?;
    let mut outputs = Vec::new(memory);
    add_outputs(memory, &mut outputs, words)?;
    match Ledger::of_outputs(memory, Salt::new(7), tick, block_bytes, outputs) {
        Ok(ledger) => has_outputs(memory, &ledger, wanted),
        Err(fault) => is_fault(memory, &fault, wanted),
    }
}
