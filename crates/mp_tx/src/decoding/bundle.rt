//! Reading bundles.

ghost use Rattle.std.specs.Prelude.{◌≡◌, [], None};
ghost use Rattle.mp_bytes.specs.Reading.{seen};
ghost use Rattle.mp_tx.specs.Reading.{Reads, items_read, entry_read, bundle_read};

use super::field::read_byte;
use crate::fault::TxFault;
use mp_bundle::{Bundle, MAX_NAME_BYTES, Token, TokenEntry, may_follow};
use mp_bytes::{split_array, split_count, split_number, split_run};
use mp_memory::Memory;

// The least number of bytes of an entry.
const LEAST_ENTRY_BYTES: usize = 41;

#[tactic(auto, unfolding(crate::specs::Reading::entry_read))]
fn read_entry(before: Option<Token>, bytes: &[u8]) -> Result<(TokenEntry, &[u8]), TxFault>
    ensures { seen (λ x. (x.0, x.1.now)) result ≡ entry_read before bytes.now }
{
    let Some((policy, rest)) = split_array::<32>(bytes) else {
        return Err(TxFault::Truncated);
    };
    let (len, rest) = read_byte(rest)?;
    if len as usize > MAX_NAME_BYTES {
        return Err(TxFault::BadBundle);
    }
    let Some((name, rest)) = split_run(rest, len as usize) else {
        return Err(TxFault::Truncated);
    };
    let Some((quantity, rest)) = split_number(rest) else {
        return Err(TxFault::Truncated);
    };
    let Some(token) = Token::of(policy, name) else {
        return Err(TxFault::BadBundle);
    };
    let entry = (token, quantity);
    if !may_follow(before, &entry) {
        return Err(TxFault::BadBundle);
    }
    Ok((entry, rest))
}

// Puts this many entries into an empty vector, and returns the bytes after them.
fn put_entries<'a>(
    entries: &mut Vec<TokenEntry, Memory>,
    count: u16,
    bytes: &'a [u8],
) -> Result<&'a [u8], TxFault>
    requires { entries.old.items ≡ [] }
    ensures { Reads (λ rest. (entries.new.items, rest.now)) result
        (items_read (λ e. e.0) entry_read None count bytes.now) }
{
    let mut before = None;
    let mut rest = bytes;
    for _ in 0..count {
        match read_entry(before, rest) {
            Ok((entry, after)) => {
                before = Some(entry.0);
                entries.push(entry)?;
                rest = after;
            }
            Err(fault) => return Err(fault),
        }
    }
    Ok(rest)
}

/// A bundle, in two allocations, or in none if there are too few bytes for an entry.
#[tactic(auto, unfolding(crate::specs::Reading::bundle_read))]
pub fn read_bundle(memory: Memory, bytes: &[u8]) -> Result<(Bundle, &[u8]), TxFault>
    ensures { Reads (λ x. (x.0, x.1.now)) result (bundle_read bytes.now) }
{
    let Some((count, rest)) = split_count(bytes) else {
        return Err(TxFault::Truncated);
    };
    let most = rest.len() / LEAST_ENTRY_BYTES;
    let mut entries = Vec::with_capacity(memory, most.min(count as usize))?;
    let rest = put_entries(&mut entries, count, rest)?;
    Ok((Bundle::of_faultless(memory, entries)?, rest))
}
