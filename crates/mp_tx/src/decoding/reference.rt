//! Reading references (CIP-31).

ghost use Rattle.std.specs.Prelude.{◌≡◌, [], None};
ghost use Rattle.mp_bytes.specs.Reading.{seen};
ghost use Rattle.mp_tx.specs.Reading.{Reads, items_read, itself, reference_read, references_read};

use super::field::read_ref;
use crate::fault::TxFault;
use crate::input::Input;
use crate::order::{ref_follows, spends};
use crate::reference::OutRef;
use crate::tx::MAX_PARTS;
use mp_bytes::split_count;
use mp_memory::Memory;

const FORMAT_WITHOUT_REFERENCES: u8 = 1;

#[tactic(auto, unfolding(crate::specs::Reading::reference_read))]
fn read_reference<'a>(
    inputs: &[Input],
    before: Option<OutRef>,
    bytes: &'a [u8],
) -> Result<(OutRef, &'a [u8]), TxFault>
    ensures { seen (λ x. (x.0, x.1.now)) result ≡ reference_read inputs.now before bytes.now }
{
    let (reference, rest) = read_ref(bytes)?;
    if !ref_follows(before, &reference) {
        return Err(TxFault::NotRising);
    }
    if spends(inputs, &reference) {
        return Err(TxFault::ReferenceSpent);
    }
    Ok((reference, rest))
}

// Puts this many references into an empty vector, and returns the bytes after them.
fn put_references<'a>(
    references: &mut Vec<OutRef, Memory>,
    inputs: &[Input],
    count: u16,
    bytes: &'a [u8],
) -> Result<&'a [u8], TxFault>
    requires { references.old.items ≡ [] }
    ensures { Reads (λ rest. (references.new.items, rest.now)) result
        (items_read itself (reference_read inputs.now) None count bytes.now) }
{
    let mut before = None;
    let mut rest = bytes;
    for _ in 0..count {
        match read_reference(inputs, before, rest) {
            Ok((reference, after)) => {
                before = Some(reference);
                references.push(reference)?;
                rest = after;
            }
            Err(fault) => return Err(fault),
        }
    }
    Ok(rest)
}

/// Puts the references into an empty vector, and returns the bytes after them. Format 1 has none, and format 2 has 1 to
/// 256.
#[tactic(auto, unfolding(crate::specs::Reading::references_read))]
pub fn fill_references<'a>(
    references: &mut Vec<OutRef, Memory>,
    version: u8,
    inputs: &[Input],
    bytes: &'a [u8],
) -> Result<&'a [u8], TxFault>
    requires { references.old.items ≡ [] }
    ensures { Reads (λ rest. (references.new.items, rest.now)) result
        (references_read version inputs.now bytes.now) }
{
    if version == FORMAT_WITHOUT_REFERENCES {
        return Ok(bytes);
    }
    let Some((count, rest)) = split_count(bytes) else {
        return Err(TxFault::Truncated);
    };
    if count == 0 {
        return Err(TxFault::NoReferences);
    }
    if count as usize > MAX_PARTS {
        return Err(TxFault::TooLarge);
    }
    references.reserve_exact(count as usize)?;
    put_references(references, inputs, count, rest)
}
