//! The bytes of a transaction.

ghost use Rattle.std.specs.Prelude.{◌≡◌, ◌<◌, ◌+◌, ◌^◌, ◌++◌, length, flat_map, OnOk};
ghost use Rattle.mp_bundle.specs.Token.{coin};
ghost use Rattle.std.specs.Int.{w16, to_be_bytes};
ghost use Rattle.mp_bytes.specs.Spelling.{sized, counted};
ghost use Rattle.mp_tx.specs.Spelling.{ref_bytes, input_bytes, entry_bytes, bundle_bytes, output_bytes, signature_bytes, interval_bytes, version_of, references_bytes, body};
ghost use Rattle.mp_tx.specs.Inside.Lent.{lent};

use crate::input::Input;
use crate::output::Output;
use crate::parts::Parts;
use crate::reference::OutRef;
use crate::signature::Signature;
use mp_bundle::{Bundle, Token, TokenEntry};
use mp_memory::{Memory, NoMemory};
use mp_script::Script;

// The last two bytes of a count. A transaction with a greater count is too large anyway.
fn last_bytes(count: usize) -> [u8; 2]
    ensures { result ≡ to_be_bytes w16 count }
{
    [(count / 256 % 256) as u8, (count % 256) as u8]
}

fn put_count(out: &mut Vec<u8, Memory>, count: usize) -> Result<(), NoMemory>
    ensures { OnOk result (out.new.items ≡ out.old.items ++ to_be_bytes w16 count) }
{
    out.extend_from_slice(&last_bytes(count))?;
    Ok(())
}

fn put_sized(out: &mut Vec<u8, Memory>, bytes: &[u8]) -> Result<(), NoMemory>
    ensures { OnOk result (out.new.items ≡ out.old.items ++ sized bytes.now) }
{
    put_count(out, bytes.len())?;
    out.extend_from_slice(bytes)?;
    Ok(())
}

#[tactic(auto, unfolding(crate::specs::Spelling::ref_bytes))]
fn put_ref(out: &mut Vec<u8, Memory>, reference: &OutRef) -> Result<(), NoMemory>
    ensures { OnOk result (out.new.items ≡ out.old.items ++ ref_bytes reference.now) }
{
    out.extend_from_slice(&reference.id)?;
    out.extend_from_slice(&reference.index.to_be_bytes())?;
    Ok(())
}

#[tactic(auto, unfolding(crate::specs::Spelling::input_bytes))]
fn put_input(out: &mut Vec<u8, Memory>, input: &Input) -> Result<(), NoMemory>
    ensures { OnOk result (out.new.items ≡ out.old.items ++ input_bytes input.now) }
{
    put_ref(out, &input.from)?;
    put_sized(out, input.validator.bytes())?;
    put_sized(out, input.datum.bytes())?;
    put_sized(out, input.redeemer.bytes())
}

fn put_inputs(out: &mut Vec<u8, Memory>, inputs: &[Input]) -> Result<(), NoMemory>
    ensures { OnOk result (out.new.items ≡ out.old.items ++ counted input_bytes inputs.now) }
{
    put_count(out, inputs.len())?;
    for input in inputs {
        put_input(out, input)?;
    }
    Ok(())
}

fn put_counted_refs(out: &mut Vec<u8, Memory>, references: &[OutRef]) -> Result<(), NoMemory>
    ensures { OnOk result (out.new.items ≡ out.old.items ++ counted ref_bytes references.now) }
{
    put_count(out, references.len())?;
    for reference in references {
        put_ref(out, reference)?;
    }
    Ok(())
}

// Format 1 has no references.
fn put_references(out: &mut Vec<u8, Memory>, references: &[OutRef]) -> Result<(), NoMemory>
    ensures { OnOk result (out.new.items ≡ out.old.items ++ references_bytes references.now) }
{
    if references.is_empty() {
        return Ok(());
    }
    put_counted_refs(out, references)
}

#[tactic(auto, unfolding(crate::specs::Spelling::entry_bytes))]
fn put_entry(out: &mut Vec<u8, Memory>, entry: &TokenEntry) -> Result<(), NoMemory>
    ensures { OnOk result (out.new.items ≡ out.old.items ++ entry_bytes entry.now) }
{
    let (token, quantity) = entry;
    let name = token.name.as_slice();
    out.extend_from_slice(&token.policy)?;
    out.push(name.len() as u8)?;
    out.extend_from_slice(name)?;
    out.extend_from_slice(&quantity.to_be_bytes())?;
    Ok(())
}

#[tactic(auto, unfolding(crate::specs::Spelling::bundle_bytes))]
fn put_bundle(out: &mut Vec<u8, Memory>, bundle: &Bundle) -> Result<(), NoMemory>
    ensures { OnOk result (out.new.items ≡ out.old.items ++ bundle_bytes bundle.now) }
{
    let others = bundle.others();
    match bundle.coin() {
        0 => put_count(out, others.len())?,
        quantity => put_coin(out, quantity, others.len())?,
    }
    put_entries(out, others)
}

// Appends the number of entries, which are one of coin and `others` more, and then the entry of coin.
fn put_coin(out: &mut Vec<u8, Memory>, quantity: i64, others: usize) -> Result<(), NoMemory>
    requires { others < 2 ^ 63 }
    ensures { OnOk result (out.new.items
        ≡ out.old.items ++ to_be_bytes w16 (others + 1) ++ entry_bytes (coin, quantity)) }
{
    put_count(out, others + 1)?;
    put_entry(out, &(Token::COIN, quantity))
}

fn put_entries(out: &mut Vec<u8, Memory>, entries: &[TokenEntry]) -> Result<(), NoMemory>
    ensures { OnOk result (out.new.items ≡ out.old.items ++ flat_map entry_bytes entries.now) }
{
    for entry in entries {
        put_entry(out, entry)?;
    }
    Ok(())
}

/// Appends the bytes of an output, as a transaction has them.
#[tactic(auto, unfolding(crate::specs::Spelling::output_bytes))]
pub fn put_output(out: &mut Vec<u8, Memory>, output: &Output) -> Result<(), NoMemory>
    ensures { OnOk result (out.new.items ≡ out.old.items ++ output_bytes output.now) }
{
    out.extend_from_slice(&output.address)?;
    out.extend_from_slice(&output.datum_hash)?;
    put_bundle(out, &output.value)
}

fn put_outputs(out: &mut Vec<u8, Memory>, outputs: &[Output]) -> Result<(), NoMemory>
    ensures { OnOk result (out.new.items ≡ out.old.items ++ counted output_bytes outputs.now) }
{
    put_count(out, outputs.len())?;
    for output in outputs {
        put_output(out, output)?;
    }
    Ok(())
}

#[tactic(auto, unfolding(crate::specs::Spelling::interval_bytes))]
fn put_interval(out: &mut Vec<u8, Memory>, from: u64, to: u64) -> Result<(), NoMemory>
    ensures { OnOk result (out.new.items ≡ out.old.items ++ interval_bytes (from, to)) }
{
    out.extend_from_slice(&from.to_be_bytes())?;
    out.extend_from_slice(&to.to_be_bytes())?;
    Ok(())
}

fn put_scripts(out: &mut Vec<u8, Memory>, scripts: &[Script]) -> Result<(), NoMemory>
    ensures { OnOk result (out.new.items ≡ out.old.items ++ counted sized scripts.now) }
{
    put_count(out, scripts.len())?;
    for script in scripts {
        put_sized(out, script.bytes())?;
    }
    Ok(())
}

#[tactic(auto, unfolding(crate::specs::Spelling::signature_bytes))]
fn put_signature(out: &mut Vec<u8, Memory>, signature: &Signature) -> Result<(), NoMemory>
    ensures { OnOk result (out.new.items ≡ out.old.items ++ signature_bytes signature.now) }
{
    out.extend_from_slice(&signature.key)?;
    out.extend_from_slice(&signature.sig)?;
    Ok(())
}

/// Appends the signatures.
pub fn put_signatures(out: &mut Vec<u8, Memory>, signatures: &[Signature]) -> Result<(), NoMemory>
    ensures { OnOk result
        (out.new.items ≡ out.old.items ++ counted signature_bytes signatures.now) }
{
    put_count(out, signatures.len())?;
    for signature in signatures {
        put_signature(out, signature)?;
    }
    Ok(())
}

fn version_of(references: &[OutRef]) -> u8
    ensures { result ≡ version_of references.now }
{
    if references.is_empty() { 1 } else { 2 }
}

/// Appends everything before the signatures.
#[tactic(auto, unfolding(crate::specs::Spelling::body))]
pub fn put_body(out: &mut Vec<u8, Memory>, parts: &Parts<'_>) -> Result<(), NoMemory>
    ensures { OnOk result (out.new.items ≡ out.old.items ++ body (lent parts.now)) }
{
    out.push(version_of(parts.references))?;
    put_inputs(out, parts.inputs)?;
    put_references(out, parts.references)?;
    put_outputs(out, parts.outputs)?;
    put_interval(out, parts.from, parts.to)?;
    put_bundle(out, parts.forge)?;
    put_scripts(out, parts.scripts)
}
