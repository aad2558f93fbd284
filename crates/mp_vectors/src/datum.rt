//! Encodings of data.

use crate::wrong::Result;
use crate::{answer, pieces};
use mp_memory::Memory;
use mp_script::Data;

/// Whether bytes encode a datum with this hash, or have this fault.
pub fn holds(memory: Memory, given: &str, wanted: &str) -> Result<bool> {
    let bytes = pieces::bytes(memory, given)?;
    match Data::decode(memory, &bytes) {
        Ok(datum) => answer::is_hashed(memory, datum.hash(), wanted),
        Err(fault) => answer::is_fault(memory, &fault, wanted),
    }
}
