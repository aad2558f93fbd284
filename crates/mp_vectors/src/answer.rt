//! Expected results that several kinds of lines share.

use crate::pieces;
use crate::wrong::{NO_MEMORY, Result};
use mp_memory::Memory;
use mp_script::Hash;
use std::fmt::Debug;

/// The name of a fault and its values.
pub fn name_of<F: Debug>(memory: Memory, fault: &F) -> Result<String<Memory>> {
    Ok(format!(in memory; "{fault:?}")?)
}

/// Whether a fault has the expected name and values. Fails for an allocation failure.
pub fn is_fault<F: Debug>(memory: Memory, fault: &F, wanted: &str) -> Result<bool> {
    let name = name_of(memory, fault)?;
    if name.as_str() == "NoMemory" {
        return Err(NO_MEMORY);
    }
    Ok(name.as_str() == wanted)
}

/// Whether the expected word fits: `yes` if it is so, `no` otherwise.
pub fn is_told(is: bool, wanted: &str) -> bool {
    wanted == if is { "yes" } else { "no" }
}

/// Whether the expected number was found, or none.
pub fn is_number(found: Option<u64>, wanted: &str) -> Result<bool> {
    match found {
        None => Ok(wanted == "none"),
        Some(number) => Ok(number == wanted.parse::<u64>()?),
    }
}

/// Whether `ok` is expected, alone or with this hash.
pub fn is_hashed(memory: Memory, hash: &Hash, wanted: &str) -> Result<bool> {
    match wanted.split_once(' ') {
        None => Ok(wanted == "ok"),
        Some(("ok", digits)) => Ok(pieces::array(memory, digits)? == *hash),
        Some(_) => Ok(false),
    }
}
