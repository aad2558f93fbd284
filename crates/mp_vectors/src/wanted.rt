//! The expected result of a script.

use crate::pieces;
use crate::wrong::Result;
use mp_memory::Memory;
use mp_script::Value;

// Whether a value has the expected bytes, as octets or as a datum.
fn has_bytes(memory: Memory, value: &Value, kind: &str, words: &str) -> Result<bool> {
    match (kind, value) {
        ("octets", Value::Octets(octets)) => pieces::spell(memory, words, octets),
        ("datum", Value::Tree(tree)) => pieces::spell(memory, words, tree.bytes()),
        _ => Ok(false),
    }
}

fn is_word(value: &Value, word: &str) -> bool {
    match value {
        Value::Nothing => word == "nothing",
        Value::Truth(false) => word == "false",
        Value::Truth(true) => word == "true",
        Value::Whole(number) => word.parse::<i128>() == Ok(*number),
        _ => false,
    }
}

/// Whether a value is the one in words: `nothing`, a truth value, a number, or octets or a datum by their bytes.
pub fn is_wanted(memory: Memory, value: &Value, wanted: &str) -> Result<bool> {
    match wanted.split_once(' ') {
        None => Ok(is_word(value, wanted)),
        Some((kind, words)) => has_bytes(memory, value, kind, words),
    }
}
