//! Bytes as the lines write them.

use crate::vectors::names::Names;
use crate::vectors::wrong::Result;
use mp_memory::Memory;
use mp_script::{Data, Hash, Script};

fn add_repeated(bytes: &mut Vec<u8, Memory>, piece: &[u8], times: u64) -> Result<()> {
    for _ in 0..times {
        bytes.extend_from_slice(piece)?;
    }
    Ok(())
}

// Adds the bytes of hexadecimal digits, or of such digits a number of times, as in `32*07`.
fn add_digits(memory: Memory, bytes: &mut Vec<u8, Memory>, piece: &str) -> Result<()> {
    let (times, digits) = piece.split_once('*').unwrap_or(("1", piece));
    let times = times.parse::<u64>()?;
    let decoded = hex::decode(memory, digits)?;
    add_repeated(bytes, &decoded, times)
}

fn add_pieces(names: &Names, bytes: &mut Vec<u8, Memory>, pieces: &str) -> Result<()> {
    for piece in pieces.split([' ', '+']) {
        match names.bytes(piece) {
            Some(named) => bytes.extend_from_slice(named)?,
            None => add_digits(names.memory(), bytes, piece)?,
        }
    }
    Ok(())
}

/// The bytes of all pieces, names and digits, one after the other. Spaces or plus signs separate the pieces.
pub fn bytes(names: &Names, pieces: &str) -> Result<Vec<u8, Memory>> {
    let mut bytes = Vec::new(names.memory());
    add_pieces(names, &mut bytes, pieces)?;
    Ok(bytes)
}

/// The datum that pieces encode.
pub fn datum(names: &Names, pieces: &str) -> Result<Data> {
    let bytes = bytes(names, pieces)?;
    Ok(Data::decode(names.memory(), &bytes)?)
}

/// The hash of the datum that pieces encode.
pub fn datum_hash(names: &Names, pieces: &str) -> Result<Hash> {
    Ok(*datum(names, pieces)?.hash())
}

/// The script that pieces encode.
pub fn script(names: &Names, pieces: &str) -> Result<Script> {
    let bytes = bytes(names, pieces)?;
    Ok(Script::decode(names.memory(), &bytes)?)
}

/// The hash of the script that pieces encode.
pub fn script_hash(names: &Names, pieces: &str) -> Result<Hash> {
    Ok(*script(names, pieces)?.hash())
}
