//! Reading a transaction from its bytes, from the left.

mod bundle;
mod field;
mod input;
mod output;
mod policy;
mod reference;
mod signature;

ghost use Rattle.std.specs.Prelude.{◌≡◌, IfOk};
ghost use Rattle.mp_bytes.specs.Reading.{seen};
ghost use Rattle.mp_tx.specs.Spelling.{body};
ghost use Rattle.mp_tx.specs.TxFault.{parts_of};
ghost use Rattle.mp_tx.specs.Inside.Empty.{AreEmpty};
ghost use Rattle.mp_tx.specs.Reading.{Reads, version_read, body_read, transaction_of};

use crate::fault::TxFault;
use crate::tx::{MAX_BYTES, TxParts};
use bundle::read_bundle;
use field::{read_byte, read_interval};
use input::fill_inputs;
use mp_memory::Memory;
use output::fill_outputs;
use policy::fill_policies;
use reference::fill_references;
use signature::fill_signatures;

// The version: 1 or 2.
#[tactic(auto, unfolding(crate::specs::Reading::version_read))]
fn read_version(bytes: &[u8]) -> Result<(u8, &[u8]), TxFault>
    ensures { seen (λ x. (x.0, x.1.now)) result ≡ version_read bytes.now }
{
    let (version, rest) = read_byte(bytes)?;
    match version {
        1 | 2 => Ok((version, rest)),
        _ => Err(TxFault::BadVersion),
    }
}

// Fills empty parts with everything before the signatures, and returns the bytes after it.
#[tactic(auto, unfolding(crate::specs::Reading::body_read))]
fn fill_body<'a>(memory: Memory, parts: &mut TxParts, bytes: &'a [u8]) -> Result<&'a [u8], TxFault>
    requires { AreEmpty parts.old }
    ensures read { Reads (λ rest. (parts_of parts.new, rest.now)) result (body_read bytes.now) }
    ensures signatures { parts.new.signatures ≡ parts.old.signatures }
{
    let (version, rest) = read_version(bytes)?;
    let rest = fill_inputs(memory, &mut parts.inputs, rest)?;
    let rest = fill_references(&mut parts.references, version, &parts.inputs, rest)?;
    let rest = fill_outputs(memory, &mut parts.outputs, rest)?;
    let (interval, rest) = read_interval(rest)?;
    (parts.from, parts.to) = interval;
    let (forge, rest) = read_bundle(memory, rest)?;
    parts.forge = forge;
    fill_policies(memory, &mut parts.scripts, rest)
}

/// Fills empty parts with the transaction that the bytes spell, and returns the bytes before its signatures.
#[tactic(auto, unfolding(crate::specs::Reading::transaction_of))]
pub fn fill_parts<'a>(
    memory: Memory,
    parts: &mut TxParts,
    bytes: &'a [u8],
) -> Result<&'a [u8], TxFault>
    requires { AreEmpty parts.old }
    ensures read { Reads (λ _. parts_of parts.new) result (transaction_of bytes.now) }
    ensures body { IfOk result (λ before. before.now ≡ body (parts_of parts.new)) }
{
    if bytes.len() > MAX_BYTES {
        return Err(TxFault::TooLarge);
    }
    let rest = fill_body(memory, parts, bytes)?;
    let body = &bytes[..bytes.len() - rest.len()];
    let left = fill_signatures(&mut parts.signatures, rest)?;
    if !left.is_empty() {
        return Err(TxFault::Trailing);
    }
    Ok(body)
}
