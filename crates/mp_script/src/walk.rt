//! Walks over the bytes of data.

ghost use Rattle.std.specs.Prelude.{◌≡◌, ◌-◌};
ghost use Rattle.mp_bytes.specs.Reading.{rest_of, seen};
ghost use Rattle.mp_script.specs.DataReading.{number_read, octets_read, items_read, list_read, datum_read};

use crate::fault::DataFault;
use mp_bytes::{split_count, split_number, split_sized};

/// The tag of a number.
pub const NUMBER: u8 = 1;

/// The tag of bytes.
pub const OCTETS: u8 = 2;

/// The tag of a list.
pub const LIST: u8 = 3;

/// The greatest depth of a datum.
pub const MAX_DEPTH: u8 = 16;

#[tactic(auto, unfolding(crate::specs::DataReading::number_read))]
fn number_end(bytes: &[u8]) -> Result<&[u8], DataFault>
    ensures { seen (λ rest. rest.now) result ≡ rest_of (number_read bytes.now) }
{
    let Some((_number, rest)) = split_number(bytes) else {
        return Err(DataFault::Truncated);
    };
    Ok(rest)
}

#[tactic(auto, unfolding(crate::specs::DataReading::octets_read))]
fn octets_end(bytes: &[u8]) -> Result<&[u8], DataFault>
    ensures { seen (λ rest. rest.now) result ≡ rest_of (octets_read bytes.now) }
{
    let Some((_octets, rest)) = split_sized(bytes) else {
        return Err(DataFault::Truncated);
    };
    Ok(rest)
}

// The bytes after `count` data, each with a depth of at most `most_depth`, or the first fault from the left.
#[cycle(walk)]
fn items_end(bytes: &[u8], count: u16, most_depth: u8) -> Result<&[u8], DataFault>
    ensures { seen (λ rest. rest.now) result ≡
        rest_of (items_read (datum_read most_depth) count bytes.now) }
{
    let mut rest = bytes;
    for _ in 0..count {
        rest = datum_end(rest, most_depth)?;
    }
    Ok(rest)
}

#[cycle(walk)]
#[tactic(auto, unfolding(crate::specs::DataReading::list_read))]
fn list_end(bytes: &[u8], most_depth: u8) -> Result<&[u8], DataFault>
    ensures { seen (λ rest. rest.now) result ≡
        rest_of (list_read (datum_read most_depth) bytes.now) }
{
    let Some((count, rest)) = split_count(bytes) else {
        return Err(DataFault::Truncated);
    };
    items_end(rest, count, most_depth)
}

/// The bytes after the datum at the front, whose depth is at most `most_depth`, or the first fault from the left.
#[cycle(walk)]
pub fn datum_end(bytes: &[u8], most_depth: u8) -> Result<&[u8], DataFault>
    ensures { seen (λ rest. rest.now) result ≡ rest_of (datum_read most_depth bytes.now) }
{
    let Some((tag, rest)) = bytes.split_first() else {
        return Err(DataFault::Truncated);
    };
    if most_depth == 0 {
        return Err(DataFault::TooDeep);
    }
    match *tag {
        NUMBER => number_end(rest),
        OCTETS => octets_end(rest),
        LIST => list_end(rest, most_depth - 1),
        _ => Err(DataFault::BadTag),
    }
}
