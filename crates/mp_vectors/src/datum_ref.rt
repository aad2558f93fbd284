//! Reading a datum and the data in it.

use crate::pieces;
use crate::wrong::Result;
use mp_memory::Memory;
use mp_script::DatumRef;

// The part that is reached by these indexes, one after the other.
fn part_at<'a>(whole: DatumRef<'a>, places: &str) -> Result<Option<DatumRef<'a>>> {
    let mut part = whole;
    for place in places.split_whitespace() {
        match part.item(place.parse::<u64>()?) {
            Some(item) => part = item,
            None => return Ok(None),
        }
    }
    Ok(Some(part))
}

// Whether a part is a number, octets or a list, and nothing else, or has these bytes.
fn is_part(memory: Memory, part: &DatumRef, wanted: &str) -> Result<bool> {
    let (kind, words) = wanted.split_once(' ').unwrap_or((wanted, ""));
    match (kind, part.number(), part.octets(), part.length()) {
        ("number", Some(number), None, None) => Ok(number == words.parse::<i64>()?),
        ("octets", None, Some(octets), None) => pieces::spell(memory, words, octets),
        ("list", None, None, Some(length)) => Ok(u64::from(length) == words.parse::<u64>()?),
        ("datum", _, _, _) => pieces::spell(memory, words, part.bytes()),
        _ => Ok(false),
    }
}

/// Whether the part of a datum at these indexes is the expected one, or there is none.
pub fn holds(memory: Memory, given: &str, wanted: &str) -> Result<bool> {
    let (words, places) = given.split_once('@').unwrap_or((given, ""));
    let datum = pieces::datum(memory, words)?;
    match part_at(datum.whole(), places)? {
        Some(part) => is_part(memory, &part, wanted),
        None => Ok(wanted == "none"),
    }
}
