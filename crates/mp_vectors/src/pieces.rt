//! Bytes as the lines write them.

use crate::wrong::{Result, Wrong};
use mp_memory::Memory;
use mp_script::{Data, Hash, Script};

fn add_repeated(bytes: &mut Vec<u8, Memory>, piece: &[u8], times: u64) -> Result<()> {
    for _ in 0..times {
        bytes.extend_from_slice(piece)?;
    }
    Ok(())
}

fn add_times(memory: Memory, bytes: &mut Vec<u8, Memory>, times: &str, digits: &str) -> Result<()> {
    let times = times.parse::<u64>()?;
    let piece = hex::decode(memory, digits)?;
    add_repeated(bytes, &piece, times)
}

fn add_run(
    bytes: &mut Vec<u8, Memory>,
    (first, last): (u16, u16),
    (before, after): (&[u8], &[u8]),
) -> Result<()> {
    for number in first..=last {
        bytes.extend_from_slice(before)?;
        bytes.extend_from_slice(&number.to_be_bytes())?;
        bytes.extend_from_slice(after)?;
    }
    Ok(())
}

// For each number from the first to the last, adds the bytes before `#`, the number in two bytes, and the bytes after `#`.
fn add_numbered(
    memory: Memory,
    bytes: &mut Vec<u8, Memory>,
    (first, last): (&str, &str),
    digits: &str,
) -> Result<()> {
    let numbers = (first.parse::<u16>()?, last.parse::<u16>()?);
    let (before, after) = digits.split_once('#').ok_or(Wrong("no '#'"))?;
    let before = hex::decode(memory, before)?;
    let after = hex::decode(memory, after)?;
    add_run(bytes, numbers, (&before, &after))
}

// Adds the bytes of a piece, which has one of these forms:
//
// - hexadecimal digits; `-` for no byte
// - such digits a number of times, as in `16*030001`
// - a run of numbers between such digits, as in `0-255*aa#bb`
fn add_piece(memory: Memory, bytes: &mut Vec<u8, Memory>, word: &str) -> Result<()> {
    if word == "-" {
        return Ok(());
    }
    let (times, digits) = word.split_once('*').unwrap_or(("1", word));
    match times.split_once('-') {
        None => add_times(memory, bytes, times, digits),
        Some(run) => add_numbered(memory, bytes, run, digits),
    }
}

fn add_pieces(memory: Memory, bytes: &mut Vec<u8, Memory>, words: &str) -> Result<()> {
    for piece in words.split([' ', '+']) {
        add_piece(memory, bytes, piece)?;
    }
    Ok(())
}

/// The bytes of all pieces, one after the other. Spaces or plus signs separate the pieces.
pub fn bytes(memory: Memory, words: &str) -> Result<Vec<u8, Memory>> {
    let mut bytes = Vec::new(memory);
    add_pieces(memory, &mut bytes, words)?;
    Ok(bytes)
}

/// Whether pieces encode these bytes.
pub fn spell(memory: Memory, words: &str, found: &[u8]) -> Result<bool> {
    Ok(*bytes(memory, words)? == *found)
}

/// The bytes of pieces, exactly `N`.
pub fn array<const N: usize>(memory: Memory, words: &str) -> Result<[u8; N]> {
    let bytes = bytes(memory, words)?;
    match bytes.split_first_chunk::<N>() {
        Some((array, [])) => Ok(*array),
        _ => Err(Wrong("another number of bytes")),
    }
}

/// The datum that pieces encode.
pub fn datum(memory: Memory, words: &str) -> Result<Data> {
    let bytes = bytes(memory, words)?;
    Ok(Data::decode(memory, &bytes)?)
}

/// The script that pieces encode.
pub fn script(memory: Memory, words: &str) -> Result<Script> {
    let bytes = bytes(memory, words)?;
    Ok(Script::decode(memory, &bytes)?)
}

/// The hash of the datum that pieces encode.
pub fn datum_hash(memory: Memory, words: &str) -> Result<Hash> {
    Ok(*datum(memory, words)?.hash())
}

/// The hash of the script that pieces encode.
pub fn script_hash(memory: Memory, words: &str) -> Result<Hash> {
    Ok(*script(memory, words)?.hash())
}
