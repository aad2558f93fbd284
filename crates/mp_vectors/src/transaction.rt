//! Transactions by their parts.

use crate::answer::is_fault;
use crate::bundle::bundle;
use crate::pieces;
use crate::plain::{UNIT, input, output};
use crate::references::{add_run, run};
use crate::wrong::{Result, Wrong};
use mp_bundle::Bundle;
use mp_memory::Memory;
use mp_tx::{Input, OutRef, Output, Script, Signature, Tx, TxParts};

// Adds the inputs of a word like `32*00:7`, `32*00:0-255`, or `32*00:7/0200021234` with another datum.
fn add_inputs(memory: Memory, inputs: &mut Vec<Input, Memory>, word: &str) -> Result<()> {
    let (spent, datum) = word.split_once('/').unwrap_or((word, UNIT));
    let (OutRef { id, index: first }, last) = run(memory, spent)?;
    for index in first..=last {
        let input = input(memory, OutRef { id, index }, datum)?;
        inputs.push(input)?;
    }
    Ok(())
}

// Adds the outputs of a word: `100` for one with this much coin, `152*100` for 152 of them.
fn add_outputs(memory: Memory, outputs: &mut Vec<Output, Memory>, word: &str) -> Result<()> {
    let (times, coin) = word.split_once('*').unwrap_or(("1", word));
    for _ in 0..times.parse::<u16>()? {
        let output = output(memory, coin)?;
        outputs.push(output)?;
    }
    Ok(())
}

fn add_script(memory: Memory, scripts: &mut Vec<Script, Memory>, word: &str) -> Result<()> {
    let script = pieces::script(memory, word)?;
    Ok(scripts.push(script)?)
}

// Adds the signature of a word like `32*05/64*00`: the key, then the signature.
fn add_signature(
    memory: Memory,
    signatures: &mut Vec<Signature, Memory>,
    word: &str,
) -> Result<()> {
    let (key, sig) = word.split_once('/').ok_or(Wrong("no signature"))?;
    let (key, sig) = (pieces::array(memory, key)?, pieces::array(memory, sig)?);
    Ok(signatures.push(Signature { key, sig })?)
}

fn no_parts(memory: Memory) -> TxParts {
    TxParts {
        inputs: Vec::new(memory),
        references: Vec::new(memory),
        outputs: Vec::new(memory),
        from: 0,
        to: u64::MAX,
        forge: Bundle::empty(),
        scripts: Vec::new(memory),
        signatures: Vec::new(memory),
    }
}

fn put_word(memory: Memory, parts: &mut TxParts, kind: &str, word: &str) -> Result<()> {
    match kind {
        "in" => add_inputs(memory, &mut parts.inputs, word),
        "see" => add_run(memory, &mut parts.references, word),
        "out" => add_outputs(memory, &mut parts.outputs, word),
        "scripts" => add_script(memory, &mut parts.scripts, word),
        "signed" => add_signature(memory, &mut parts.signatures, word),
        _ => Err(Wrong("no such word")),
    }
}

fn put_words(memory: Memory, parts: &mut TxParts, kind: &str, words: &str) -> Result<()> {
    for word in words.split_whitespace() {
        put_word(memory, parts, kind, word)?;
    }
    Ok(())
}

fn put_part(memory: Memory, parts: &mut TxParts, written: &str) -> Result<()> {
    let (kind, words) = written.split_once(' ').unwrap_or((written, ""));
    match kind {
        "from" => parts.from = words.parse::<u64>()?,
        "to" => parts.to = words.parse::<u64>()?,
        "forge" => parts.forge = bundle(memory, words)?,
        _ => put_words(memory, parts, kind, words)?,
    }
    Ok(())
}

fn put_parts(memory: Memory, parts: &mut TxParts, given: &str) -> Result<()> {
    if given == "-" {
        return Ok(());
    }
    for written in given.split('|') {
        put_part(memory, parts, written.trim())?;
    }
    Ok(())
}

// Whether a transaction has this size, this id or these bytes.
fn is_transaction(memory: Memory, tx: &Tx, wanted: &str) -> Result<bool> {
    match wanted.split_once(' ') {
        Some(("size", word)) => Ok(tx.size() == word.parse::<u64>()?),
        Some(("id", word)) => Ok(*tx.id() == pieces::array(memory, word)?),
        Some(("bytes", words)) => {
            let bytes = tx.encode(memory)?;
            pieces::spell(memory, words, &bytes)
        }
        _ => Ok(false),
    }
}

/// Whether parts make the expected transaction, or have this fault.
pub fn holds(memory: Memory, given: &str, wanted: &str) -> Result<bool> {
    let mut parts = no_parts(memory);
    put_parts(memory, &mut parts, given)?;
    match Tx::of_parts(memory, parts) {
        Ok(tx) => is_transaction(memory, &tx, wanted),
        Err(fault) => is_fault(memory, &fault, wanted),
    }
}
