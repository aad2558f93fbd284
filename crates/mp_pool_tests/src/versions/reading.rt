//! Reading a version that was made step by step. It has 129 transactions of 181 bytes each, without those with the
//! tickets 64 and 65.
use crate::versions::both::{Both, asked, look_at, step};
use crate::versions::pages::chunk_len;
use mp_memory::{Memory, NoMemory};
use mp_seqpool::SeqPool;
use mp_testing::commands::{ALL, REMOVE_TWO, Samples};
use mp_testing::{Seen, count};
use mp_versions::{Run, RunWithin, Version};
use std::io;

// What is read.
#[derive(Clone, Copy)]
enum Reading {
    // The number of items, their bytes, the last ticket and the version's number.
    Size,
    // The lengths of the first four chunks.
    Chunks,
    // The same for a version of all items of the pool.
    ChunksAnew,
    // The number of items with greater tickets, and the first and the last ticket of those.
    After(u64),
    // The number of items that fit into this many bytes together, and the first and the last ticket of those.
    Within(u64),
    // Whether the ticket has a transaction.
    Lookup(u64),
    // Whether the transaction of the sample is there.
    Has(usize),
}

// The number of items, with the first ticket and the last.
type Ends = (u64, u64, u64);

fn with_ticket(ends: Ends, ticket: u64) -> Ends {
    let (count, first, _) = ends;
    if count == 0 {
        return (1, ticket, ticket);
    }
    (count.saturating_add(1), first, ticket)
}

fn ends(run: Run<'_>) -> Ends {
    let mut ends = (0, 0, 0);
    for item in run {
        ends = with_ticket(ends, item.ticket);
    }
    ends
}

fn ends_within(run: RunWithin<'_>) -> Ends {
    let mut ends = (0, 0, 0);
    for item in run {
        ends = with_ticket(ends, item.ticket);
    }
    ends
}

fn seen(ends: Ends) -> Seen {
    let (count, first, last) = ends;
    [count, first, last, 0, 0, 0]
}

fn size(version: &Version) -> Seen {
    let [len, bytes, last, number, ..] = look_at(version);
    [len, bytes, last, number, 0, 0]
}

fn chunks(version: &Version) -> Seen {
    [
        chunk_len(version, 0),
        chunk_len(version, 1),
        chunk_len(version, 2),
        chunk_len(version, 3),
        0,
        0,
    ]
}

fn chunks_of(memory: Memory, pool: &SeqPool) -> Option<Seen> {
    match Version::of(memory, pool) {
        Ok(version) => Some(chunks(&version)),
        Err(NoMemory) => None,
    }
}

fn truth(is_true: bool) -> Seen {
    [u64::from(is_true), 0, 0, 0, 0, 0]
}

fn read(samples: &Samples, both: &Both, reading: Reading) -> Option<Seen> {
    let version = &both.version;
    Some(match reading {
        Reading::Size => size(version),
        Reading::Chunks => chunks(version),
        Reading::ChunksAnew => chunks_of(samples.memory, &both.pool)?,
        Reading::After(ticket) => seen(ends(version.after_ticket(ticket))),
        Reading::Within(bytes) => seen(ends_within(version.within(bytes))),
        Reading::Lookup(ticket) => truth(version.lookup(ticket).is_some()),
        Reading::Has(sample) => truth(version.has(samples.transaction(sample)?.id())),
    })
}

// What is read, and the first expected numbers.
type Row = (&'static str, Reading, [u64; 4]);

const YES: [u64; 4] = [1, 0, 0, 0];

const NO: [u64; 4] = [0, 0, 0, 0];

static ROWS: [Row; 30] = [
    ("the size", Reading::Size, [127, 22_987, 129, 130]),
    ("the chunks", Reading::Chunks, [32, 31, 31, 32]),
    ("the chunks anew", Reading::ChunksAnew, [32, 32, 32, 31]),
    ("after 0", Reading::After(0), [127, 1, 129, 0]),
    ("after 62", Reading::After(62), [65, 63, 129, 0]),
    ("after 63", Reading::After(63), [64, 66, 129, 0]),
    ("after 65", Reading::After(65), [64, 66, 129, 0]),
    ("after 66", Reading::After(66), [63, 67, 129, 0]),
    ("after 128", Reading::After(128), [1, 129, 129, 0]),
    ("after 129", Reading::After(129), NO),
    ("after the last number", Reading::After(u64::MAX), NO),
    ("within 180", Reading::Within(180), NO),
    ("within 181", Reading::Within(181), [1, 1, 1, 0]),
    ("within 11,583", Reading::Within(11_583), [63, 1, 63, 0]),
    ("within 11,584", Reading::Within(11_584), [64, 1, 66, 0]),
    ("within 22,986", Reading::Within(22_986), [126, 1, 128, 0]),
    ("within 22,987", Reading::Within(22_987), [127, 1, 129, 0]),
    (
        "within the last number",
        Reading::Within(u64::MAX),
        [127, 1, 129, 0],
    ),
    ("under 0", Reading::Lookup(0), NO),
    ("under 1", Reading::Lookup(1), YES),
    ("under 63", Reading::Lookup(63), YES),
    ("under 64", Reading::Lookup(64), NO),
    ("under 65", Reading::Lookup(65), NO),
    ("under 66", Reading::Lookup(66), YES),
    ("under 129", Reading::Lookup(129), YES),
    ("under 130", Reading::Lookup(130), NO),
    ("what spends opening 0", Reading::Has(0), YES),
    ("what spends opening 63", Reading::Has(63), NO),
    ("what spends opening 64", Reading::Has(64), NO),
    ("what spends opening 128", Reading::Has(128), YES),
];

fn of_127(samples: &Samples) -> Option<Both> {
    let remove = samples.command(REMOVE_TWO)?;
    let mut both = asked(samples, ALL, samples.commands(0, 129))?;
    step(samples.memory, &mut both, remove)?;
    Some(both)
}

fn count_row(rt: &impl Print, samples: &Samples, both: &Both, row: &Row) -> io::Result<u64> {
    let (name, reading, [a, b, c, d]) = *row;
    let seen = read(samples, both, reading);
    count(rt, name, seen, [a, b, c, d, 0, 0])
}

fn count_rows(rt: &impl Print, samples: &Samples, both: &Both) -> io::Result<u64> {
    let mut held = 0u64;
    for row in &ROWS {
        held = held.wrapping_add(count_row(rt, samples, both, row)?);
    }
    Ok(held)
}

/// The number of cases that hold.
pub fn held_readings(rt: &impl Print, samples: &Samples) -> io::Result<u64> {
    match of_127(samples) {
        Some(both) => count_rows(rt, samples, &both),
        None => count(rt, "readings", None, [0; 6]),
    }
}
