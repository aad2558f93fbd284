//! Transactions as the lines write them.

use crate::vectors::names::Names;
use crate::vectors::wrong::{Result, Wrong};
use crate::vectors::{pieces, plain};
use mp_bundle::Bundle;
use mp_memory::Memory;
use mp_testing::parts;
use mp_tx::{Input, OutRef, Output, Script, Signature, Tx, TxId, TxParts};

fn add_input(names: &Names, inputs: &mut Vec<Input, Memory>, value: &str) -> Result<()> {
    let input = plain::input(names, value)?;
    Ok(inputs.push(input)?)
}

fn add_reference(names: &Names, references: &mut Vec<OutRef, Memory>, value: &str) -> Result<()> {
    let reference = plain::reference(names, None, value)?;
    Ok(references.push(reference)?)
}

fn add_output(names: &Names, outputs: &mut Vec<Output, Memory>, value: &str) -> Result<()> {
    let output = plain::output(names, value)?;
    Ok(outputs.push(output)?)
}

fn add_script(names: &Names, scripts: &mut Vec<Script, Memory>, value: &str) -> Result<()> {
    let script = pieces::script(names, value)?;
    Ok(scripts.push(script)?)
}

// Adds a signature: the key followed by the id, with these bits of the first byte flipped.
fn add_signature(
    signatures: &mut Vec<Signature, Memory>,
    id: &TxId,
    word: &str,
    turned: u8,
) -> Result<()> {
    let key = [word.parse::<u8>()?; 32];
    let mut sig = [0; 64];
    sig[..32].copy_from_slice(&key);
    sig[32..].copy_from_slice(id);
    sig[0] ^= turned;
    Ok(signatures.push(Signature { key, sig })?)
}

fn put_bundle(names: &Names, forge: &mut Bundle, value: &str) -> Result<()> {
    *forge = plain::bundle(names, value)?;
    Ok(())
}

fn put_number(number: &mut u64, digits: &str) -> Result<()> {
    *number = digits.parse::<u64>()?;
    Ok(())
}

// Adds the part of a word like `in=3.0`. It skips words of other kinds.
fn put_part(names: &Names, parts: &mut TxParts, id: &TxId, word: &str) -> Result<()> {
    let (kind, value) = word.split_once('=').ok_or(Wrong::Because("no '='"))?;
    match kind {
        "in" => add_input(names, &mut parts.inputs, value),
        "see" => add_reference(names, &mut parts.references, value),
        "out" => add_output(names, &mut parts.outputs, value),
        "from" => put_number(&mut parts.from, value),
        "to" => put_number(&mut parts.to, value),
        "forge" => put_bundle(names, &mut parts.forge, value),
        "policy" => add_script(names, &mut parts.scripts, value),
        "sign" => add_signature(&mut parts.signatures, id, value, 0),
        "badsign" => add_signature(&mut parts.signatures, id, value, 1),
        _ => Ok(()),
    }
}

fn put_parts(names: &Names, parts: &mut TxParts, id: &TxId, words: &str) -> Result<()> {
    for word in words.split_whitespace() {
        put_part(names, parts, id, word)?;
    }
    Ok(())
}

fn signed_for(names: &Names, id: &TxId, words: &str) -> Result<Tx> {
    let mut parts = parts(names.memory(), &[], &[])?;
    put_parts(names, &mut parts, id, words)?;
    Ok(Tx::of_parts(names.memory(), parts)?)
}

/// The transaction of words like `in=3.0 out=100`. It skips words that are no part of it.
pub fn transaction(names: &Names, words: &str) -> Result<Tx> {
    // Its id doesn't depend on the signatures.
    let unsigned = signed_for(names, &[0; 32], words)?;
    signed_for(names, unsigned.id(), words)
}
