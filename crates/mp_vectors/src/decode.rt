//! Encodings of transactions.

use crate::answer::is_fault;
use crate::pieces;
use crate::wrong::{Result, Wrong};
use mp_memory::Memory;
use mp_tx::Tx;

// Whether a transaction has the expected id and size, and encodes to the bytes.
fn is_whole(memory: Memory, tx: &Tx, bytes: &[u8], wanted: &str) -> Result<bool> {
    let Some(words) = wanted.strip_prefix("ok ") else {
        return Ok(false);
    };
    let (id, size) = words.split_once(' ').ok_or(Wrong("no number"))?;
    Ok(
        *tx.id() == pieces::array(memory, id)?
            && tx.size() == size.parse::<u64>()?
            && *tx.encode(memory)? == *bytes,
    )
}

fn comes_to(memory: Memory, bytes: &[u8], wanted: &str) -> Result<bool> {
    match Tx::decode(memory, bytes) {
        Ok(tx) => is_whole(memory, &tx, bytes, wanted),
        Err(fault) => is_fault(memory, &fault, wanted),
    }
}

/// Whether bytes encode the expected transaction, or have this fault.
pub fn holds(memory: Memory, given: &str, wanted: &str) -> Result<bool> {
    let bytes = pieces::bytes(memory, given)?;
    comes_to(memory, &bytes, wanted)
}

fn check_prefixes(memory: Memory, bytes: &[u8], wanted: &str) -> Result<u64> {
    for len in 0..bytes.len() {
        if !comes_to(memory, &bytes[..len], wanted)? {
            return Err(Wrong("a prefix comes to something else"));
        }
    }
    Ok(bytes.len() as u64)
}

/// How many proper prefixes the bytes have, if each gives the expected result.
pub fn prefixes_held(memory: Memory, given: &str, wanted: &str) -> Result<u64> {
    let bytes = pieces::bytes(memory, given)?;
    check_prefixes(memory, &bytes, wanted)
}
