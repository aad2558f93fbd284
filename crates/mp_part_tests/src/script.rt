//! Data and scripts that don't allocate, like those of nearly every input; other faults than an allocation failure; and shares.
//! What allocates is tested by the lines of mp_vectors' `datum.txt` and `script.txt`.
use crate::rows::{Row, without_growth};
use mp_memory::Memory;
use mp_script::{Data, DataFault, Script, ScriptFault};

// A list of five: -5, the bytes `xy`, a list of 1 and an empty list, an empty list, and 8.
const LIST_OF_FIVE: &[u8] = &[
    3, 0, 5, // the list
    1, 0xff, 0xff, 0xff, 0xff, 0xff, 0xff, 0xff, 0xfb, // -5
    2, 0, 2, 0x78, 0x79, // xy
    3, 0, 2, 1, 0, 0, 0, 0, 0, 0, 0, 1, 3, 0, 0, // 1 and an empty list
    3, 0, 0, // an empty list
    1, 0, 0, 0, 0, 0, 0, 0, 8, // 8
];

// Whether the negation of true, or octets, are true.
const OR: &[u8] = &[0x01, 0x10, 0x03, 0, 0x12];

// How bytes are read.
#[derive(Clone, Copy)]
enum Kind {
    Datum,
    Script,
}

// How many bytes there are; or 0 and the number of the fault.
const WITHOUT_GROWTH: [(&str, Kind, &[u8], [u64; 2]); 10] = [
    ("an empty list", Kind::Datum, &[3, 0, 0], [3, 0]),
    ("no bytes of a datum", Kind::Datum, &[], [0, 2]),
    ("a tag of no datum", Kind::Datum, &[4], [0, 3]),
    ("a byte too many", Kind::Datum, &[3, 0, 0, 0], [0, 5]),
    (
        "a tag of no item",
        Kind::Datum,
        &[3, 0, 2, 3, 0, 0, 9],
        [0, 3],
    ),
    ("true", Kind::Script, &[0x01], [1, 0]),
    ("no operator", Kind::Script, &[], [0, 5]),
    ("no operands", Kind::Script, &[0x11], [0, 4]),
    ("two expressions", Kind::Script, &[0x01, 0x01], [0, 5]),
    ("a byte of no operator", Kind::Script, &[0x01, 0xff], [0, 3]),
];

fn decode_datum(memory: Memory, bytes: &[u8]) -> Option<[u64; 2]> {
    match Data::decode(memory, bytes) {
        Ok(datum) => Some([datum.bytes().len() as u64, 0]),
        Err(DataFault::NoMemory) => None,
        Err(fault) => Some([0, fault.number()]),
    }
}

fn decode_script(memory: Memory, bytes: &[u8]) -> Option<[u64; 2]> {
    match Script::decode(memory, bytes) {
        Ok(script) => Some([script.bytes().len() as u64, 0]),
        Err(ScriptFault::NoMemory) => None,
        Err(fault) => Some([0, fault.number()]),
    }
}

fn decode(memory: Memory, kind: Kind, bytes: &[u8]) -> Option<[u64; 2]> {
    match kind {
        Kind::Datum => decode_datum(memory, bytes),
        Kind::Script => decode_script(memory, bytes),
    }
}

fn decoded(memory: Memory, kind: Kind, bytes: &[u8]) -> Option<[u64; 2]> {
    memory.refuse(1);
    let seen = decode(memory, kind, bytes)?;
    without_growth(memory, seen)
}

/// Bytes whose decoding doesn't allocate.
pub fn decodings(memory: Memory) -> [Row; 10] {
    WITHOUT_GROWTH.map(|(name, kind, bytes, wanted)| {
        Row::seen(name, decoded(memory, kind, bytes), wanted)
    })
}

fn share_datum(memory: Memory) -> Option<[u64; 1]> {
    let Ok(datum) = Data::decode(memory, LIST_OF_FIVE) else {
        return None;
    };
    memory.refuse(1);
    let Ok(share) = datum.share() else {
        return None;
    };
    without_growth(memory, [u64::from(share.bytes() == datum.bytes())])
}

fn share_script(memory: Memory) -> Option<[u64; 1]> {
    let Ok(script) = Script::decode(memory, OR) else {
        return None;
    };
    memory.refuse(1);
    let Ok(share) = script.share() else {
        return None;
    };
    without_growth(memory, [u64::from(share.bytes() == script.bytes())])
}

/// Shares, which have the same bytes and don't allocate.
pub fn shares(memory: Memory) -> [Row; 2] {
    [
        Row::seen("a shared datum", share_datum(memory), [1]),
        Row::seen("a shared script", share_script(memory), [1]),
    ]
}
