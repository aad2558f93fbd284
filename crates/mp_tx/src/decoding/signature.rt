//! Reading signatures.

ghost use Rattle.std.specs.Prelude.{◌≡◌, [], None};
ghost use Rattle.mp_bytes.specs.Reading.{seen};
ghost use Rattle.mp_tx.specs.Reading.{Reads, items_read, counted_read, itself, signature_read};

use crate::fault::TxFault;
use crate::order::signature_follows;
use crate::signature::Signature;
use mp_bytes::{split_array, split_count};
use mp_memory::Memory;

const SIGNATURE_BYTES: usize = 96;

#[tactic(auto, unfolding(crate::specs::Reading::signature_read))]
fn read_signature(before: Option<Signature>, bytes: &[u8]) -> Result<(Signature, &[u8]), TxFault>
    ensures { seen (λ x. (x.0, x.1.now)) result ≡ signature_read before bytes.now }
{
    let Some((key, rest)) = split_array::<32>(bytes) else {
        return Err(TxFault::Truncated);
    };
    let Some((sig, rest)) = split_array::<64>(rest) else {
        return Err(TxFault::Truncated);
    };
    let signature = Signature {
        key: *key,
        sig: *sig,
    };
    if !signature_follows(before, &signature) {
        return Err(TxFault::NotRising);
    }
    Ok((signature, rest))
}

// Puts this many signatures into an empty vector, and returns the bytes after them.
fn put_signatures<'a>(
    signatures: &mut Vec<Signature, Memory>,
    count: u16,
    bytes: &'a [u8],
) -> Result<&'a [u8], TxFault>
    requires { signatures.old.items ≡ [] }
    ensures { Reads (λ rest. (signatures.new.items, rest.now)) result
        (items_read itself signature_read None count bytes.now) }
{
    let mut before = None;
    let mut rest = bytes;
    for _ in 0..count {
        match read_signature(before, rest) {
            Ok((signature, after)) => {
                before = Some(signature);
                signatures.push(signature)?;
                rest = after;
            }
            Err(fault) => return Err(fault),
        }
    }
    Ok(rest)
}

/// Puts the signatures into an empty vector, and returns the bytes after them.
pub fn fill_signatures<'a>(
    signatures: &mut Vec<Signature, Memory>,
    bytes: &'a [u8],
) -> Result<&'a [u8], TxFault>
    requires { signatures.old.items ≡ [] }
    ensures { Reads (λ rest. (signatures.new.items, rest.now)) result
        (counted_read itself signature_read bytes.now) }
{
    let Some((count, rest)) = split_count(bytes) else {
        return Err(TxFault::Truncated);
    };
    let most = rest.len() / SIGNATURE_BYTES;
    signatures.reserve_exact(most.min(count as usize))?;
    put_signatures(signatures, count, rest)
}
