//! Encodings of transactions in which one byte is replaced by each other value.

use crate::answer::name_of;
use crate::faults::TX_FAULTS;
use crate::pieces;
use crate::wrong::{Result, Wrong};
use mp_memory::Memory;
use mp_tx::{Tx, TxFault};

// At 0 how many encoded a transaction, and at each fault's number how many had that fault.
type Counts = [u64; 13];

fn place_of(fault: TxFault) -> usize {
    fault.number() as usize
}

fn add(counts: &mut Counts, place: usize) {
    if let Some(count) = counts.get_mut(place) {
        *count = count.wrapping_add(1);
    }
}

// Counts the result for these bytes. A transaction has to encode to them.
fn count(memory: Memory, counts: &mut Counts, bytes: &[u8]) -> Result<()> {
    match Tx::decode(memory, bytes) {
        Ok(tx) if *tx.encode(memory)? == *bytes => add(counts, 0),
        Ok(_) => return Err(Wrong("a transaction encodes to other bytes")),
        Err(fault) => add(counts, place_of(fault)),
    }
    Ok(())
}

fn set(bytes: &mut [u8], place: usize, value: u8) {
    if let Some(byte) = bytes.get_mut(place) {
        *byte = value;
    }
}

fn spoil_at(memory: Memory, counts: &mut Counts, bytes: &mut [u8], place: usize) -> Result<()> {
    let Some(own) = bytes.get(place).copied() else {
        return Ok(());
    };
    for value in 0..=u8::MAX {
        if value != own {
            set(bytes, place, value);
            count(memory, counts, bytes)?;
        }
    }
    set(bytes, place, own);
    Ok(())
}

fn spoil_all(memory: Memory, bytes: &mut [u8]) -> Result<Counts> {
    let mut counts = [0; 13];
    for place in 0..bytes.len() {
        spoil_at(memory, &mut counts, bytes, place)?;
    }
    Ok(counts)
}

fn counts_of(memory: Memory, words: &str) -> Result<Counts> {
    let mut bytes = pieces::bytes(memory, words)?;
    spoil_all(memory, &mut bytes)
}

// How many had the fault of this name, or for `ok` encoded a transaction.
fn count_named(memory: Memory, counts: &Counts, name: &str) -> Result<u64> {
    if name == "ok" {
        return Ok(counts[0]);
    }
    for fault in TX_FAULTS {
        if name_of(memory, &fault)?.as_str() == name {
            return counts
                .get(place_of(fault))
                .copied()
                .ok_or(Wrong("no number"));
        }
    }
    Err(Wrong("no such word"))
}

fn check_count(memory: Memory, counts: &Counts, wanted: &str) -> Result<u64> {
    let (name, word) = wanted.split_once(' ').ok_or(Wrong("no number"))?;
    let number = word.parse::<u64>()?;
    if count_named(memory, counts, name)? == number {
        Ok(number)
    } else {
        Err(Wrong("another number of a word"))
    }
}

/// How many cases there are, if the expected numbers encode a transaction or have each fault.
pub fn held(memory: Memory, given: &str, wanted: &str) -> Result<u64> {
    let counts = counts_of(memory, given)?;
    let mut cases = 0u64;
    for word in wanted.split(',') {
        let number = check_count(memory, &counts, word.trim())?;
        cases = cases.wrapping_add(number);
    }
    Ok(cases)
}
