//! The parts of a case in addition to the transaction.

use crate::vectors::names::Names;
use crate::vectors::plain;
use crate::vectors::wrong::{Result, Wrong};
use mp_memory::Memory;
use mp_tx::{Ledger, OutRef, Output, Salt, TxId};

// The tick of `tick=7`, or 0 without one.
fn tick(words: &str) -> Result<u64> {
    for word in words.split_whitespace() {
        if let Some(("tick", digits)) = word.split_once('=') {
            return Ok(digits.parse::<u64>()?);
        }
    }
    Ok(0)
}

// Adds the output of a word like `3.0:100@s`: the reference, then the output.
fn add_referred(
    names: &Names,
    own: Option<TxId>,
    outputs: &mut Vec<(OutRef, Output), Memory>,
    word: &str,
) -> Result<()> {
    let (place, written) = word.split_once(':').ok_or(Wrong::Because("no output"))?;
    let reference = plain::reference(names, own, place)?;
    let output = plain::output(names, written)?;
    Ok(outputs.push((reference, output))?)
}

fn add_all_referred(
    names: &Names,
    own: Option<TxId>,
    outputs: &mut Vec<(OutRef, Output), Memory>,
    words: &str,
) -> Result<()> {
    for word in words.split_whitespace() {
        if let Some(("has", written)) = word.split_once('=') {
            add_referred(names, own, outputs, written)?;
        }
    }
    Ok(())
}

/// The ledger of all outputs like `has=3.0:100`, at the tick of `tick=7`.
pub fn ledger(names: &Names, own: Option<TxId>, words: &str) -> Result<Ledger> {
    let tick = tick(words)?;
    let mut outputs = Vec::new(names.memory());
    add_all_referred(names, own, &mut outputs, words)?;
    Ok(Ledger::of_outputs(names.memory(), Salt::new(7), tick, 1, outputs)?)
}

fn add_upon(names: &Names, outputs: &mut Vec<Output, Memory>, words: &str) -> Result<()> {
    for word in words.split_whitespace() {
        if let Some(("upon", written)) = word.split_once('=') {
            let output = plain::output(names, written)?;
            outputs.push(output)?;
        }
    }
    Ok(())
}

/// All outputs like `upon=100@s`, in their order.
pub fn upon(names: &Names, words: &str) -> Result<Vec<Output, Memory>> {
    let mut outputs = Vec::new(names.memory());
    add_upon(names, &mut outputs, words)?;
    Ok(outputs)
}
