//! Audits that were computed by hand.
use crate::history::entries::{Telling, idle_entries, three_entries};
use mp_history::Entry;
use mp_seqpool::Config;
use mp_testing::commands::{PART, Samples};
use mp_testing::told::Told;
use mp_testing::{CONFIG, Seen, count, tell};
use std::io;

const ONE_CHANGE: Config = Config { limit: 1, last: 0 };

// The callers of the submits, and the tickets of the submits and of what goes with the removal. Then the number of
// callers, whether the limit is one change, which of the entries are audited, and the expected result.
type Row = (
    &'static str,
    [u32; 2],
    [u64; 3],
    u32,
    bool,
    [usize; 2],
    Told,
);

const ALL: [usize; 2] = [0, 3];

const RIGHT: [u64; 3] = [1, 2, 2];

static ROWS: [Row; 12] = [
    (
        "a legal history",
        [0, 0],
        RIGHT,
        1,
        false,
        ALL,
        Told::Legal(0, 2),
    ),
    (
        "one of six callers",
        [5, 0],
        RIGHT,
        6,
        false,
        ALL,
        Told::Legal(0, 2),
    ),
    (
        "a ticket that isn't next",
        [0, 0],
        [1, 3, 2],
        1,
        false,
        ALL,
        Told::WrongReply(1),
    ),
    (
        "a first ticket that isn't 1",
        [0, 0],
        [2, 3, 2],
        1,
        false,
        ALL,
        Told::WrongReply(0),
    ),
    (
        "a caller past the last",
        [5, 0],
        RIGHT,
        1,
        false,
        ALL,
        Told::StrangeCaller(0),
    ),
    (
        "the caller behind the last",
        [5, 0],
        RIGHT,
        5,
        false,
        ALL,
        Told::StrangeCaller(0),
    ),
    (
        "both at one place",
        [0, 1],
        [1, 3, 2],
        1,
        false,
        ALL,
        Told::StrangeCaller(1),
    ),
    (
        "a wrong reply before a strange caller",
        [0, 1],
        [3, 2, 2],
        1,
        false,
        ALL,
        Told::WrongReply(0),
    ),
    (
        "another goes with the first",
        [0, 0],
        [1, 2, 3],
        1,
        false,
        ALL,
        Told::WrongReply(2),
    ),
    (
        "no entry of no caller",
        [0, 0],
        RIGHT,
        0,
        false,
        [0, 0],
        Told::Legal(0, 0),
    ),
    (
        "without the first",
        [0, 0],
        RIGHT,
        1,
        false,
        [1, 3],
        Told::WrongReply(0),
    ),
    (
        "past the limit",
        [0, 0],
        RIGHT,
        1,
        true,
        ALL,
        Told::WrongReply(1),
    ),
];

fn tell_some(
    samples: &Samples,
    config: Config,
    callers: u32,
    entries: &[Entry],
    [from, to]: [usize; 2],
) -> Told {
    match entries.get(from..to) {
        Some(entries) => tell(samples, PART, config, callers, entries),
        None => Told::Otherwise,
    }
}

fn tell_row(samples: &Samples, row: &Row) -> Option<Seen> {
    let (_, callers, tickets, count, is_short, some, _) = *row;
    let config = if is_short { ONE_CHANGE } else { CONFIG };
    let entries = three_entries(samples, Telling { callers, tickets })?;
    Some(tell_some(samples, config, count, &entries, some).seen())
}

// A history with more entries than any other here.
fn tell_long(samples: &Samples) -> Option<Seen> {
    let entries = idle_entries(samples, 5_000)?;
    Some(tell(samples, PART, CONFIG, 1, &entries).seen())
}

/// The number of cases that hold.
pub fn held_audits(rt: &impl Print, samples: &Samples) -> io::Result<u64> {
    let long = tell_long(samples);
    let mut held = count(rt, "a long history", long, Told::Legal(0, 0).seen())?;
    for row in &ROWS {
        let seen = tell_row(samples, row);
        held = held.wrapping_add(count(rt, row.0, seen, row.6.seen())?);
    }
    Ok(held)
}
