//! Writing all of an output: writes that fail, and writes that take few bytes.
use crate::rows::Row;
use mp_testing::FailingWriter;
use mp_text::{WriteFault, write_all};
use std::alloc::Global;

const BYTES: &[u8] = b"one\ntwo";

// The write with this number fails, from 1; none for 0.
fn writer_of(alloc: Global, at_once: usize, fails_at: u64) -> FailingWriter {
    let mut writer = FailingWriter::new(alloc);
    writer.at_once = at_once;
    writer.fails_at = fails_at;
    writer
}

// Whether the writing fails, how many bytes were taken, whether they are the first of all, and how many writes there were.
fn write(mut writer: FailingWriter, bytes: &[u8]) -> [u64; 4] {
    let fails = write_all(&mut writer, bytes) == Err(WriteFault);
    let is_front = bytes.starts_with(&writer.taken);
    let length = writer.taken.len() as u64;
    [u64::from(fails), length, u64::from(is_front), writer.writes]
}

fn written(alloc: Global, at_once: usize, fails_at: u64) -> [u64; 4] {
    write(writer_of(alloc, at_once, fails_at), BYTES)
}

fn written_none(alloc: Global) -> [u64; 4] {
    write(writer_of(alloc, 0, 0), b"")
}

fn written_many(alloc: Global) -> Option<[u64; 4]> {
    let mut bytes = Vec::new(alloc);
    if bytes.resize(200_000, b'x').is_err() {
        return None;
    }
    Some(write(writer_of(alloc, 1, 0), &bytes))
}

// How many bytes are taken at once, which write fails, and the numbers.
const OUTPUTS: [(&str, usize, u64, [u64; 4]); 12] = [
    ("write 1 fails", 2, 1, [1, 0, 1, 1]),
    ("write 2 fails", 2, 2, [1, 2, 1, 2]),
    ("write 3 fails", 2, 3, [1, 4, 1, 3]),
    ("write 4 fails", 2, 4, [1, 6, 1, 4]),
    ("1 byte at once", 1, 0, [0, 7, 1, 7]),
    ("2 bytes at once", 2, 0, [0, 7, 1, 4]),
    ("3 bytes at once", 3, 0, [0, 7, 1, 3]),
    ("4 bytes at once", 4, 0, [0, 7, 1, 2]),
    ("6 bytes at once", 6, 0, [0, 7, 1, 2]),
    ("7 bytes at once", 7, 0, [0, 7, 1, 1]),
    ("8 bytes at once", 8, 0, [0, 7, 1, 1]),
    ("no byte at once", 0, 0, [1, 0, 1, 1]),
];

/// A number of bytes at once: four writes take seven bytes, two at once. Then a write that fails. A writer that takes nothing is
/// a fault.
pub fn outputs(alloc: Global) -> [Row; 12] {
    OUTPUTS.map(|(name, at_once, fails_at, wanted)| {
        Row::seen(name, Some(written(alloc, at_once, fails_at)), wanted)
    })
}

/// If there is nothing to take, a writer that takes nothing is no fault. Then many bytes.
pub fn lengths(alloc: Global) -> [Row; 2] {
    [
        Row::seen("no byte at all", Some(written_none(alloc)), [0, 0, 1, 0]),
        Row::seen(
            "many bytes, one at once",
            written_many(alloc),
            [0, 200_000, 1, 200_000],
        ),
    ]
}
