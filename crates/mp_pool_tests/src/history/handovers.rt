//! Audits through a handover, computed by hand: a history goes on in that of the successor.
use crate::history::entries::{Entries, Telling, three_entries};
use mp_history::Entry;
use mp_testing::commands::{PART, Samples};
use mp_testing::told::Told;
use mp_testing::{CONFIG, Ending, Failures, Seen, count, fail_each, tell_handover};
use std::io;

// How many changes the successor may make.
#[derive(Clone, Copy)]
enum Limit {
    One,
    Two,
}

// The number of entries before the handover, the tickets of the submits and of what goes with the removal, and the limit of
// the successor. Then the expected result.
type Row = (&'static str, usize, [u64; 3], Limit, Told);

const RIGHT: [u64; 3] = [1, 2, 2];

static ROWS: [Row; 6] = [
    (
        "the successor goes on",
        1,
        RIGHT,
        Limit::Two,
        Told::Legal(0, 2),
    ),
    (
        "a limit of its own",
        1,
        RIGHT,
        Limit::One,
        Told::WrongReply(1),
    ),
    (
        "the limit is reached",
        2,
        RIGHT,
        Limit::One,
        Told::Legal(0, 2),
    ),
    (
        "a ticket is given again",
        1,
        [1, 1, 1],
        Limit::Two,
        Told::WrongReply(0),
    ),
    (
        "what the old pool has goes",
        2,
        [1, 2, 3],
        Limit::Two,
        Told::WrongReply(0),
    ),
    (
        "a fault before the handover",
        1,
        [2, 3, 3],
        Limit::Two,
        Told::WrongReply(0),
    ),
];

// The result of the audits of the three entries, with this number of them before the handover.
fn tell_split(samples: &Samples, entries: &[Entry], number: usize, limit: Limit) -> Option<Told> {
    let ledger = samples.ledger(PART)?;
    let limit = match limit {
        Limit::One => 1,
        Limit::Two => 2,
    };
    let parts = [entries.get(..number)?, entries.get(number..)?];
    Some(tell_handover(samples, ledger, CONFIG, 1, parts, limit))
}

fn entries_with(samples: &Samples, tickets: [u64; 3]) -> Option<Entries> {
    let callers = [0, 0];
    three_entries(samples, Telling { callers, tickets })
}

fn tell_row(samples: &Samples, row: &Row) -> Option<Seen> {
    let (_, number, tickets, limit, _) = *row;
    let entries = entries_with(samples, tickets)?;
    Some(tell_split(samples, &entries, number, limit)?.seen())
}

fn audit_refused(samples: &Samples, entries: &[Entry], nth: u64) -> Ending {
    samples.memory.refuse(nth);
    match tell_split(samples, entries, 1, Limit::Two) {
        Some(Told::Legal(0, 2)) => Ending::Usual,
        Some(Told::NoMemory) => Ending::NoMemory,
        _ => Ending::Wrong,
    }
}

// Whether each failed allocation is reported.
fn see_refused(samples: &Samples) -> Option<Seen> {
    let entries = entries_with(samples, RIGHT)?;
    let failures = fail_each(&samples.memory, |nth| audit_refused(samples, &entries, nth));
    let are_told = matches!(failures, Some(Failures { unnoticed: 0, .. }));
    Some([u64::from(are_told), 0, 0, 0, 0, 0])
}

/// The number of cases that hold.
pub fn held_handovers(rt: &impl Print, samples: &Samples) -> io::Result<u64> {
    let refused = see_refused(samples);
    let mut held = count(
        rt,
        "a handover at refused growths",
        refused,
        [1, 0, 0, 0, 0, 0],
    )?;
    for row in &ROWS {
        let seen = tell_row(samples, row);
        held = held.wrapping_add(count(rt, row.0, seen, row.4.seen())?);
    }
    Ok(held)
}
