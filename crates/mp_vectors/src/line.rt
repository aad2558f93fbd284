//! The lines of a file.

use crate::kind::Kind;
use crate::wrong::{Result, Wrong};
use crate::{decode, refusals, signature, spoilt};
use mp_memory::Memory;

/// What a line gives, and the result that it expects. A blank line and a comment have neither.
pub fn parted(line: &str) -> Result<Option<(&str, &str)>> {
    if line.is_empty() || line.starts_with('#') {
        return Ok(None);
    }
    let (given, wanted) = line.split_once('=').ok_or(Wrong("no '='"))?;
    Ok(Some((given.trim(), wanted.trim())))
}

fn check_case(memory: Memory, kind: Kind, given: &str, wanted: &str) -> Result<()> {
    if !kind.holds(memory, given, wanted)? {
        return Err(Wrong("it comes to something else"));
    }
    if kind.takes_memory() {
        refusals::check(memory, kind, given, wanted)?;
    }
    Ok(())
}

fn each_held(memory: Memory, kind: Kind, words: &str, wanted: &str) -> Result<u64> {
    let mut cases = 0u64;
    for word in words.split_whitespace() {
        check_case(memory, kind, word, wanted)?;
        cases = cases.wrapping_add(1);
    }
    Ok(cases)
}

/// How many cases a line has, if all hold. It is one, or as many as there are words after `each`, bytes after `prefixes`, ways to
/// spoil the bytes after `spoilt`, or bits after `flips`.
pub fn held(memory: Memory, kind: Kind, given: &str, wanted: &str) -> Result<u64> {
    match given.split_once(' ') {
        Some(("each", words)) => each_held(memory, kind, words, wanted),
        Some(("prefixes", words)) => decode::prefixes_held(memory, words, wanted),
        Some(("spoilt", words)) => spoilt::held(memory, words, wanted),
        Some(("flips", words)) => signature::flips_held(memory, words, wanted),
        _ => {
            check_case(memory, kind, given, wanted)?;
            Ok(1)
        }
    }
}
