//! Entries of bundles, and the check of given entries.

ghost use Rattle.std.specs.Prelude.{◌≡◌, ◌≤◌, All, IsTrue, IfOk, length, is_none};
ghost use Rattle.std.specs.FinMap.{is_sorted};
ghost use Rattle.std.specs.Ordering.{is_lt};
ghost use Rattle.mp_bundle.specs.Token.{token_cmp};
ghost use Rattle.mp_bundle.specs.Bundle.{quantity_of};
ghost use Rattle.mp_bundle.specs.Inside.Entry.{token_before};
ghost use Rattle.mp_bundle.specs.BundleFault.{token_of, entry_of, entries_of, follows, is_out_of_range, entry_fault, fault_of};

use crate::fault::BundleFault;
use crate::token::{PolicyId, Token};
use crate::token_name::{MAX_NAME_BYTES, TokenName};
use mp_memory::{Memory, NoMemory};

/// A token and its quantity.
pub type TokenEntry = (Token, i64);

/// An entry as it is given: a policy, a name of any length, and a quantity.
pub type Given = (PolicyId, Vec<u8, Memory>, i64);

fn precedes(first: &Given, second: &Given) -> bool
    ensures { result ≡ is_lt (token_cmp (token_of first.now) (token_of second.now)) }
{
    let by_policy = first.0.cmp(&second.0);
    by_policy
        .then(first.1.as_slice().cmp(second.1.as_slice()))
        .is_lt()
}

fn comes_after(before: Option<&Given>, entry: &Given) -> bool
    ensures { result ≡ follows (token_before before.entry) (token_of entry.now) }
{
    match before {
        None => true,
        Some(before) => precedes(before, entry),
    }
}

fn is_least(quantity: i64) -> bool
    ensures { result ≡ is_out_of_range quantity }
{
    quantity < -i64::MAX
}

fn fault_at(before: Option<&Given>, entry: &Given) -> Option<BundleFault>
    ensures { result ≡ entry_fault (token_before before.entry) (entry_of entry.now) }
{
    if !comes_after(before, entry) {
        return Some(BundleFault::NotRising);
    }
    if entry.2 == 0 {
        return Some(BundleFault::ZeroQuantity);
    }
    if entry.1.len() > MAX_NAME_BYTES {
        return Some(BundleFault::NameTooLong);
    }
    if is_least(entry.2) {
        return Some(BundleFault::QuantityRange);
    }
    None
}

fn token_follows(before: Option<Token>, token: &Token) -> bool
    ensures { result ≡ follows before token.now }
{
    match before {
        None => true,
        Some(before) => before.cmp(token).is_lt(),
    }
}

/// Whether an entry may follow one of this token in a bundle, or be the first if there is none.
pub fn may_follow(before: Option<Token>, entry: &TokenEntry) -> bool
    ensures { result ≡ is_none (entry_fault before entry.now) }
{
    let (token, quantity) = entry;
    token_follows(before, token)
        && *quantity != 0
        && token.name.as_slice().len() <= MAX_NAME_BYTES
        && !is_least(*quantity)
}

/// The fault of the first entry that has one.
pub fn first_fault(given: &[Given]) -> Option<BundleFault>
    ensures { result ≡ fault_of (entries_of given.now) }
{
    let mut before = None;
    for entry in given {
        let fault = fault_at(before, entry);
        if fault.is_some() {
            return fault;
        }
        before = Some(entry);
    }
    None
}

fn to_entry(given: &Given) -> TokenEntry
    requires { length given.now.1.items ≤ 32 }
    ensures { result ≡ entry_of given.now }
{
    let token = Token {
        policy: given.0,
        name: TokenName::of(given.1.as_slice()),
    };
    (token, given.2)
}

/// The entries, in one allocation of exactly their number.
pub fn to_entries(memory: Memory, given: &[Given]) -> Result<Vec<TokenEntry, Memory>, NoMemory>
    requires { All (λ g. length g.1.items ≤ 32) given.now }
    ensures { IfOk result (λ entries. entries.items ≡ entries_of given.now) }
{
    let mut entries = Vec::with_capacity(memory, given.len())?;
    for entry in given {
        entries.push(to_entry(entry))?;
    }
    Ok(entries)
}

/// The quantity of a token among entries in strictly increasing order.
pub fn quantity_at(entries: &[TokenEntry], token: &Token) -> i64
    requires { IsTrue (is_sorted token_cmp entries.now) }
    ensures { result ≡ quantity_of entries.now token.now }
{
    match entries.binary_search_by_key(token, |&(key, _)| key) {
        Ok(place) => entries[place].1,
        Err(_) => 0,
    }
}
