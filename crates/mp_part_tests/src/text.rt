//! Reading all of an input: reads that fail, the most bytes, and allocations that fail.
use crate::rows::Row;
use mp_memory::Memory;
use mp_testing::{Call, FailingReader, Seen, TrialFault, Trialled, under_each_refusal};
use mp_text::{InputFault, MAX_BYTES, read_all};

const BYTES: &[u8] = b"one\ntwo";

// A reader of seven bytes.
fn reader_of(at_once: usize, fails_at: u64) -> FailingReader {
    let mut reader = FailingReader::of(BYTES);
    reader.at_once = at_once;
    reader.fails_at = fails_at;
    reader
}

// A reader of `filler` times one byte.
fn reader_of_filler(filler: usize, at_once: usize) -> FailingReader {
    let mut reader = FailingReader::of(b"");
    reader.filler = filler;
    reader.at_once = at_once;
    reader
}

fn fault_number(fault: InputFault) -> u64 {
    match fault {
        InputFault::NoMemory => 1,
        InputFault::Read => 2,
    }
}

// How many bytes were read and whether they are the seven, or the number of the fault; and how many reads there were.
fn read(memory: Memory, at_once: usize, fails_at: u64) -> Option<[u64; 4]> {
    let mut reader = reader_of(at_once, fails_at);
    let (length, is_right, fault) = match read_all(memory, &mut reader) {
        Ok(text) => (text.len() as u64, text.as_slice() == BYTES, 0),
        Err(fault) => (0, false, fault_number(fault)),
    };
    Some([length, u64::from(is_right), fault, reader.reads])
}

// How many bytes are given at once, which read fails, and the numbers.
const INPUTS: [(&str, usize, u64, [u64; 4]); 13] = [
    ("1 byte at once", 1, 0, [7, 1, 0, 8]),
    ("2 bytes at once", 2, 0, [7, 1, 0, 5]),
    ("3 bytes at once", 3, 0, [7, 1, 0, 4]),
    ("4 bytes at once", 4, 0, [7, 1, 0, 3]),
    ("5 bytes at once", 5, 0, [7, 1, 0, 3]),
    ("6 bytes at once", 6, 0, [7, 1, 0, 3]),
    ("7 bytes at once", 7, 0, [7, 1, 0, 2]),
    ("8 bytes at once", 8, 0, [7, 1, 0, 2]),
    ("read 1 fails", 3, 1, [0, 0, 2, 1]),
    ("read 2 fails", 3, 2, [0, 0, 2, 2]),
    ("read 3 fails", 3, 3, [0, 0, 2, 3]),
    ("read 4 fails", 3, 4, [0, 0, 2, 4]),
    ("read 5 would fail", 3, 5, [7, 1, 0, 4]),
];

/// A number of bytes at once, and a last read that finds the end; then a read that fails.
pub fn inputs(memory: Memory) -> [Row; 13] {
    INPUTS.map(|(name, at_once, fails_at, wanted)| {
        Row::seen(name, read(memory, at_once, fails_at), wanted)
    })
}

// How many of the bytes are `x`.
fn filler_in(text: &[u8]) -> u64 {
    let mut filler = 0u64;
    for byte in text {
        filler = filler.wrapping_add(u64::from(*byte == b'x'));
    }
    filler
}

// How many bytes were read, how many of them are `x`, and the number of the fault.
fn read_filler(memory: Memory, filler: usize, at_once: usize) -> [u64; 3] {
    match read_all(memory, &mut reader_of_filler(filler, at_once)) {
        Ok(text) => [text.len() as u64, filler_in(&text), 0],
        Err(fault) => [0, 0, fault_number(fault)],
    }
}

// An input of 20,000 bytes. The room is 4,096 bytes at first, and doubles each time.
#[derive(Drop)]
struct Reading {
    memory: Memory,
}

impl Call for Reading {
    type Value = ();

    fn make(&self) -> Option<()> {
        Some(())
    }

    fn call(&self, _nothing: &mut ()) -> Option<Seen> {
        match read_filler(self.memory, 20_000, 4096) {
            [_, _, 1] => None,
            [length, filler, fault] => Some([length, filler, fault, 0, 0, 0]),
        }
    }

    fn look(&self, _nothing: &()) -> Seen {
        [0; 6]
    }
}

fn tried(memory: Memory) -> Result<Trialled, TrialFault> {
    under_each_refusal(&memory, &Reading { memory })
}

// The most bytes.
const MOST: usize = 16_777_216;

// How many bytes there are, how many are given at once, and the numbers.
const LENGTHS: [(&str, usize, usize, [u64; 3]); 5] = [
    ("as many", MOST, 4096, [16_777_216, 16_777_216, 0]),
    ("one more", MOST + 1, 4096, [0, 0, 2]),
    ("no end", usize::MAX, 4096, [0, 0, 2]),
    ("no end, one at once", usize::MAX, 1, [0, 0, 2]),
    ("one at once", 200_000, 1, [200_000, 200_000, 0]),
];

/// Inputs that are long or never end.
pub fn lengths(memory: Memory) -> [Row; 5] {
    LENGTHS.map(|(name, filler, at_once, wanted)| {
        Row::seen(name, Some(read_filler(memory, filler, at_once)), wanted)
    })
}

/// The most bytes that an input may have, and allocations that fail.
pub fn limits(memory: Memory) -> [Row; 2] {
    [
        Row::seen("the most bytes", Some([MAX_BYTES as u64]), [16_777_216]),
        Row::tried("20,000 bytes", tried(memory), [20_000, 20_000], 4),
    ]
}
