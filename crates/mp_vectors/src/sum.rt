//! Sums of bundles.

use crate::bundle::{bundle, token};
use crate::wrong::{Result, Wrong};
use mp_bundle::Sum;
use mp_memory::Memory;

const MAX_ADDED: u64 = 1 << 32;

fn add(memory: Memory, sum: &mut Sum, entries: &str) -> Result<()> {
    let bundle = bundle(memory, entries)?;
    if sum.added() < MAX_ADDED {
        sum.add(&bundle)?;
    }
    Ok(())
}

fn add_all(memory: Memory, sum: &mut Sum, words: &str) -> Result<()> {
    if words.trim().is_empty() {
        return Ok(());
    }
    for entries in words.split('+') {
        add(memory, sum, entries)?;
    }
    Ok(())
}

/// The sum of the bundles between plus signs. An empty text is the sum of no bundles.
pub fn sum(memory: Memory, words: &str) -> Result<Sum> {
    let mut sum = Sum::new(memory);
    add_all(memory, &mut sum, words)?;
    Ok(sum)
}

fn has_total(memory: Memory, sum: &Sum, word: &str) -> Result<bool> {
    let (named, total) = word.rsplit_once('/').ok_or(Wrong("no token"))?;
    let total = total.parse::<i128>()?;
    let (policy, name) = token(memory, named)?;
    Ok(sum.total(&policy, &name) == total)
}

// Whether this many bundles were added, with these totals.
fn has_totals(memory: Memory, sum: &Sum, wanted: &str) -> Result<bool> {
    let (added, words) = wanted.split_once(' ').unwrap_or((wanted, ""));
    for word in words.split_whitespace() {
        if !has_total(memory, sum, word)? {
            return Ok(false);
        }
    }
    Ok(sum.added() == added.parse::<u64>()?)
}

// Whether the least token with two totals is the expected one.
fn differ_at(memory: Memory, first: &Sum, second: &Sum, wanted: &str) -> Result<bool> {
    match first.first_difference(second) {
        None => Ok(wanted == "none"),
        Some(found) => {
            let (policy, name) = token(memory, wanted)?;
            Ok(found == (policy, name.as_slice()))
        }
    }
}

fn differs_at(memory: Memory, first: &Sum, words: &str, wanted: &str) -> Result<bool> {
    let second = sum(memory, words)?;
    differ_at(memory, first, &second, wanted)
}

/// Whether a sum has these totals, or two sums differ at this token first.
pub fn holds(memory: Memory, given: &str, wanted: &str) -> Result<bool> {
    match given.split_once('|') {
        None => has_totals(memory, &sum(memory, given)?, wanted),
        Some((first, second)) => differs_at(memory, &sum(memory, first)?, second, wanted),
    }
}
