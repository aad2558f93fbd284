//! Encodings of scripts.

use crate::wrong::Result;
use crate::{answer, pieces};
use mp_memory::Memory;
use mp_script::Script;

/// Whether bytes encode a script with this hash, or have this fault.
pub fn holds(memory: Memory, given: &str, wanted: &str) -> Result<bool> {
    let bytes = pieces::bytes(memory, given)?;
    match Script::decode(memory, &bytes) {
        Ok(script) => answer::is_hashed(memory, script.hash(), wanted),
        Err(fault) => answer::is_fault(memory, &fault, wanted),
    }
}
