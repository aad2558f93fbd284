//! The ends of chunks and pages. A page has 2,048 items if all its chunks are full, and the open chunk has at most 32
//! more.
use crate::versions::both::{Both, start, step};
use mp_memory::{Memory, NoMemory};
use mp_seqpool::Command;
use mp_testing::commands::Samples;
use mp_testing::{Seen, count, ledger, opening, transaction};
use mp_versions::{Version, laws};
use std::io;

/// The number of items of the chunk at this index, or 0 if there is no such chunk.
pub fn chunk_len(version: &Version, place: usize) -> u64 {
    match laws::chunk(version, place) {
        Some(items) => items.len() as u64,
        None => 0,
    }
}

// The number of the first chunk that isn't full, the number of its items, and that of the next chunk. Without such a
// chunk, all are `u64::MAX`.
fn end(version: &Version) -> [u64; 3] {
    for place in 0..u16::MAX {
        let len = chunk_len(version, usize::from(place));
        if len != 32 {
            let behind = chunk_len(version, usize::from(place) + 1);
            return [u64::from(place), len, behind];
        }
    }
    [u64::MAX; 3]
}

fn end_anew(memory: Memory, both: &Both) -> [u64; 3] {
    match Version::of(memory, &both.pool) {
        Ok(version) => end(&version),
        Err(NoMemory) => [u64::MAX; 3],
    }
}

// The end of the version, and that of a version of all items of the pool.
fn ends(memory: Memory, both: &Both) -> Seen {
    let [a, b, c] = end(&both.version);
    let [d, e, f] = end_anew(memory, both);
    [a, b, c, d, e, f]
}

fn submit_opening(memory: Memory, both: &mut Both, index: u16) -> Option<()> {
    let Ok(tx) = transaction(memory, &[opening(index)], &[100]) else {
        return None;
    };
    step(memory, both, &Command::Submit(tx))
}

// Submits transactions that spend the openings from `first` up to and without `end`, one by one.
fn submit_openings(memory: Memory, both: &mut Both, first: u16, end: u16) -> Option<()> {
    for index in first..end {
        submit_opening(memory, both, index)?;
    }
    Some(())
}

// The openings that are spent, from the first number up to and without the second. Then the number of the first chunk
// that isn't full, and the number of its items.
static ROWS: [(&str, [u16; 2], [u64; 2]); 6] = [
    ("2,047 items", [0, 2_047], [63, 31]),
    ("2,080 items", [2_047, 2_080], [65, 0]),
    ("2,081 items", [2_080, 2_081], [65, 1]),
    ("4,128 items", [2_081, 4_128], [129, 0]),
    ("4,129 items", [4_128, 4_129], [129, 1]),
    ("8,193 items", [4_129, 8_193], [256, 1]),
];

fn submit_and_see(memory: Memory, both: &mut Both, [first, end]: [u16; 2]) -> Option<Seen> {
    submit_openings(memory, both, first, end)?;
    Some(ends(memory, both))
}

fn count_row(
    rt: &impl Print,
    memory: Memory,
    both: &mut Both,
    row: &(&str, [u16; 2], [u64; 2]),
) -> io::Result<u64> {
    let (name, openings, [place, len]) = *row;
    let seen = submit_and_see(memory, both, openings);
    count(rt, name, seen, [place, len, 0, place, len, 0])
}

fn count_rows(rt: &impl Print, memory: Memory, both: &mut Both) -> io::Result<u64> {
    let mut held = 0u64;
    for row in &ROWS {
        held = held.wrapping_add(count_row(rt, memory, both, row)?);
    }
    Ok(held)
}

fn roomy(memory: Memory) -> Option<Both> {
    match ledger(memory, 8_193, 1_000_000) {
        Ok(ledger) => start(memory, &ledger),
        Err(_) => None,
    }
}

/// The number of cases that hold.
pub fn held_pages(rt: &impl Print, samples: &Samples) -> io::Result<u64> {
    match roomy(samples.memory) {
        Some(mut both) => count_rows(rt, samples.memory, &mut both),
        None => count(rt, "pages", None, [0; 6]),
    }
}
