//! Reading lines with a limit: lengths next to it, lines that don't end, reads that fail, and allocations that fail.
use crate::rows::Row;
use mp_memory::Memory;
use mp_testing::{Call, FailingReader, Seen, TrialFault, Trialled, under_each_refusal};
use mp_text::{LineRead, ReadFault, read_line};
use std::alloc::Global;
use std::io::BufReader;

type Lines = BufReader<FailingReader>;

// A reader that gives `at_once` bytes at once.
fn lines_of(alloc: Global, bytes: &'static [u8], at_once: usize, fails_at: u64) -> Option<Lines> {
    let mut reader = FailingReader::of(bytes);
    reader.at_once = at_once;
    reader.fails_at = fails_at;
    BufReader::new(alloc, reader).ok()
}

// The number of the result, and how many bytes of a whole line were kept.
fn numbers(read: Result<LineRead, ReadFault>, line: &[u8]) -> [u64; 2] {
    match read {
        Ok(LineRead::End) => [0, 0],
        Ok(LineRead::Whole) => [1, line.len() as u64],
        Ok(LineRead::TooLong) => [2, 0],
        Ok(LineRead::Lost) => [3, 0],
        Err(ReadFault) => [4, 0],
    }
}

fn next(reader: &mut Lines, line: &mut Vec<u8, Memory>, limit: usize) -> [u64; 2] {
    let read = read_line(reader, line, limit);
    numbers(read, line)
}

// The results for three lines.
fn three(memory: Memory, mut reader: Lines, limit: usize) -> [u64; 6] {
    let mut line = Vec::new(memory);
    let [a, b] = next(&mut reader, &mut line, limit);
    let [c, d] = next(&mut reader, &mut line, limit);
    let [e, f] = next(&mut reader, &mut line, limit);
    [a, b, c, d, e, f]
}

// The bytes, how many are given at once, which read fails, the limit, and the numbers.
const LINES: [(&str, &[u8], usize, u64, usize, [u64; 6]); 18] = [
    (
        "one less, as many, one more",
        b"abc\nabcd\nabcde\n",
        4096,
        0,
        4,
        [1, 3, 1, 4, 2, 0],
    ),
    (
        "the same, 1 byte at once",
        b"abc\nabcd\nabcde\n",
        1,
        0,
        4,
        [1, 3, 1, 4, 2, 0],
    ),
    (
        "the same, 2 bytes at once",
        b"abc\nabcd\nabcde\n",
        2,
        0,
        4,
        [1, 3, 1, 4, 2, 0],
    ),
    (
        "the same, 5 bytes at once",
        b"abc\nabcd\nabcde\n",
        5,
        0,
        4,
        [1, 3, 1, 4, 2, 0],
    ),
    (
        "after a long line",
        b"abcdefghijklmnop\nab\nc",
        4096,
        0,
        4,
        [2, 0, 1, 2, 1, 1],
    ),
    (
        "the same, 3 bytes at once",
        b"abcdefghijklmnop\nab\nc",
        3,
        0,
        4,
        [2, 0, 1, 2, 1, 1],
    ),
    (
        "no feed at the end",
        b"abcd",
        4096,
        0,
        4,
        [1, 4, 0, 0, 0, 0],
    ),
    (
        "no feed at the end, 2 bytes at once",
        b"abcd",
        2,
        0,
        4,
        [1, 4, 0, 0, 0, 0],
    ),
    (
        "one more, without a feed",
        b"abcde",
        4096,
        0,
        4,
        [2, 0, 0, 0, 0, 0],
    ),
    (
        "one more, without a feed, 1 byte at once",
        b"abcde",
        1,
        0,
        4,
        [2, 0, 0, 0, 0, 0],
    ),
    ("empty lines", b"\n\n", 4096, 0, 4, [1, 0, 1, 0, 0, 0]),
    ("nothing", b"", 4096, 0, 4, [0, 0, 0, 0, 0, 0]),
    ("a limit of 0", b"\na\n", 4096, 0, 0, [1, 0, 2, 0, 0, 0]),
    (
        "a carriage return",
        b"a\r\nb",
        4096,
        0,
        4,
        [1, 2, 1, 1, 0, 0],
    ),
    ("read 1 fails", b"abc\nabcd\n", 2, 1, 4, [4, 0, 1, 3, 1, 4]),
    (
        "read 2 fails, in mid-line",
        b"abc\nabcd\n",
        2,
        2,
        4,
        [4, 0, 1, 1, 1, 4],
    ),
    (
        "read 3 fails, between lines",
        b"abc\nabcd\n",
        2,
        3,
        4,
        [1, 3, 4, 0, 1, 4],
    ),
    (
        "a read fails in a long line",
        b"abcdefgh\nab\n",
        2,
        4,
        4,
        [4, 0, 1, 2, 1, 2],
    ),
];

/// Lines next to the limit, for several numbers of bytes at once, and reads that fail.
pub fn lengths(memory: Memory, alloc: Global) -> [Row; 18] {
    LINES.map(|(name, bytes, at_once, fails_at, limit, wanted)| {
        let seen = match lines_of(alloc, bytes, at_once, fails_at) {
            Some(reader) => Some(three(memory, reader, limit)),
            None => None,
        };
        Row::seen(name, seen, wanted)
    })
}

// The most bytes that are kept of a line of 100 MB. A vector has room for at most twice as many.
const LIMIT: usize = 4096;

// The result for 100,000,000 bytes without a feed, whether at most 8,192 bytes were kept for it, and the next result.
fn endless(memory: Memory, alloc: Global) -> Option<[u64; 4]> {
    let mut reader = lines_of(alloc, b"", 8192, 0)?;
    reader.get_mut().filler = 100_000_000;
    let mut line = Vec::new(memory);
    let [read, kept] = next(&mut reader, &mut line, LIMIT);
    let [after, _] = next(&mut reader, &mut line, LIMIT);
    Some([read, kept, u64::from(line.capacity() <= 2 * LIMIT), after])
}

// An allocation for the first line fails, and the next line succeeds.
fn lost(memory: Memory, alloc: Global) -> Option<[u64; 6]> {
    let reader = lines_of(alloc, b"abc\nabcd\nab", 4096, 0)?;
    memory.refuse(1);
    let seen = three(memory, reader, 4);
    memory.refuse(0);
    Some(seen)
}

// A line of 20 bytes that comes in parts of 5 bytes.
#[derive(Drop)]
struct Reading {
    memory: Memory,
    alloc: Global,
}

impl Call for Reading {
    type Value = ();

    fn make(&self) -> Option<()> {
        Some(())
    }

    fn call(&self, _nothing: &mut ()) -> Option<Seen> {
        let reader = lines_of(self.alloc, b"abcdeabcdeabcdeabcde\nab\n", 5, 0)?;
        match three(self.memory, reader, 20) {
            [3, _, 1, 2, 0, 0] => None,
            seen => Some(seen),
        }
    }

    fn look(&self, _nothing: &()) -> Seen {
        [0; 6]
    }
}

fn tried(memory: Memory, alloc: Global) -> Result<Trialled, TrialFault> {
    under_each_refusal(&memory, &Reading { memory, alloc })
}

/// A line of 100 MB, and lines whose allocations fail.
pub fn limits(memory: Memory, alloc: Global) -> [Row; 3] {
    [
        Row::seen(
            "100 MB without a feed",
            endless(memory, alloc),
            [2, 0, 1, 0],
        ),
        Row::seen(
            "no memory, and then memory",
            lost(memory, alloc),
            [3, 0, 1, 4, 1, 2],
        ),
        Row::tried(
            "20 bytes in parts",
            tried(memory, alloc),
            [1, 20, 1, 2, 0, 0],
            3,
        ),
    ]
}
