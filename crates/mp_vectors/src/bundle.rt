//! Bundles.

use crate::answer::is_fault;
use crate::pieces;
use crate::wrong::{Result, Wrong};
use mp_bundle::{Bundle, Given, PolicyId};
use mp_memory::Memory;

/// A policy and a name under it, of any length.
pub type Named = (PolicyId, Vec<u8, Memory>);

/// The token of a word like `32*03/61`: the policy, then the name.
pub fn token(memory: Memory, word: &str) -> Result<Named> {
    let (policy, name) = word.split_once('/').ok_or(Wrong("no token"))?;
    Ok((pieces::array(memory, policy)?, pieces::bytes(memory, name)?))
}

// The entry of a word like `32*03/61/5`: the token, then the quantity.
fn entry(memory: Memory, word: &str) -> Result<Given> {
    let (named, quantity) = word.rsplit_once('/').ok_or(Wrong("no token"))?;
    let quantity = quantity.parse::<i64>()?;
    let (policy, name) = token(memory, named)?;
    Ok((policy, name, quantity))
}

fn add_entries(memory: Memory, entries: &mut Vec<Given, Memory>, words: &str) -> Result<()> {
    for word in words.split_whitespace() {
        let entry = entry(memory, word)?;
        entries.push(entry)?;
    }
    Ok(())
}

fn entries(memory: Memory, words: &str) -> Result<Vec<Given, Memory>> {
    let mut entries = Vec::new(memory);
    add_entries(memory, &mut entries, words)?;
    Ok(entries)
}

/// The bundle with these entries.
pub fn bundle(memory: Memory, words: &str) -> Result<Bundle> {
    let entries = entries(memory, words)?;
    Ok(Bundle::of_entries(memory, entries)?)
}

fn has_quantity(memory: Memory, bundle: &Bundle, word: &str) -> Result<bool> {
    let (policy, name, quantity) = entry(memory, word)?;
    Ok(bundle.quantity(&policy, &name) == quantity)
}

// Whether `ok` is expected, and the bundle has each of these quantities.
fn has_quantities(memory: Memory, bundle: &Bundle, wanted: &str) -> Result<bool> {
    let Some(words) = wanted.strip_prefix("ok") else {
        return Ok(false);
    };
    for word in words.split_whitespace() {
        if !has_quantity(memory, bundle, word)? {
            return Ok(false);
        }
    }
    Ok(true)
}

/// Whether entries make a bundle with these quantities, or have this fault.
pub fn holds(memory: Memory, given: &str, wanted: &str) -> Result<bool> {
    let entries = entries(memory, given)?;
    match Bundle::of_entries(memory, entries) {
        Ok(bundle) => has_quantities(memory, &bundle, wanted),
        Err(fault) => is_fault(memory, &fault, wanted),
    }
}
