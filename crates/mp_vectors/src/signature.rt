//! Signatures.

use crate::pieces;
use crate::wrong::{Result, Wrong};
use mp_ed25519::Base;
use mp_memory::Memory;
use mp_rules::Verifier;
use mp_signatures::{Scheme, Signatures};

#[derive(Clone, Copy)]
struct Case<'a> {
    key: &'a [u8; 32],
    signature: &'a [u8; 64],
    message: &'a [u8],
}

fn case_of(bytes: &[u8]) -> Result<Case<'_>> {
    let (key, signed) = bytes.split_first_chunk::<32>().ok_or(Wrong("no key"))?;
    let (signature, message) = signed
        .split_first_chunk::<64>()
        .ok_or(Wrong("no signature"))?;
    Ok(Case {
        key,
        signature,
        message,
    })
}

fn is_wanted(is_good: bool, wanted: &str) -> Result<bool> {
    match wanted {
        "good" => Ok(is_good),
        "bad" => Ok(!is_good),
        _ => Err(Wrong("neither good nor bad")),
    }
}

// Whether a pool's verifier returns the same, if the message can be the id of a transaction.
fn is_answered_alike(verifier: &Signatures, case: &Case<'_>, is_good: bool) -> bool {
    match case.message.split_first_chunk::<32>() {
        Some((id, rest)) if rest.is_empty() => {
            verifier.verify(case.key, id, case.signature) == is_good
        }
        _ => true,
    }
}

/// Whether the signature of a message by a key is good or bad, as expected. The bytes are the key, the signature and the message.
pub fn holds(memory: Memory, given: &str, wanted: &str) -> Result<bool> {
    let bytes = pieces::bytes(memory, given)?;
    let base = Base::new(memory)?;
    let verifier = Signatures::new(memory, Scheme::Ed25519)?.share()?;
    let case = case_of(&bytes)?;
    let is_good = base.verify(case.key, case.message, case.signature);
    Ok(is_wanted(is_good, wanted)? && is_answered_alike(&verifier, &case, is_good))
}

fn flip(bytes: &mut [u8], place: usize, bit: u8) {
    if let Some(byte) = bytes.get_mut(place) {
        *byte ^= bit;
    }
}

// How many bits a byte has, if the result is the expected one after each flip of a bit.
fn flips_held_at(base: &Base, bytes: &mut [u8], place: usize, wanted: &str) -> Result<u64> {
    for bit in [1, 2, 4, 8, 16, 32, 64, 128] {
        flip(bytes, place, bit);
        let case = case_of(bytes)?;
        if !is_wanted(base.verify(case.key, case.message, case.signature), wanted)? {
            return Err(Wrong("a flipped bit comes to something else"));
        }
        flip(bytes, place, bit);
    }
    Ok(8)
}

fn all_flips_held(base: &Base, bytes: &mut [u8], wanted: &str) -> Result<u64> {
    let mut cases = 0u64;
    for place in 0..bytes.len() {
        let bits = flips_held_at(base, bytes, place, wanted)?;
        cases = cases.wrapping_add(bits);
    }
    Ok(cases)
}

/// How many bits a key, a signature and a message have, if the result is the expected one after each flip of a bit.
pub fn flips_held(memory: Memory, given: &str, wanted: &str) -> Result<u64> {
    let mut bytes = pieces::bytes(memory, given)?;
    let base = Base::new(memory)?;
    all_flips_held(&base, &mut bytes, wanted)
}
