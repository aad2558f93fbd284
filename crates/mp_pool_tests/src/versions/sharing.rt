//! A chunk that a step doesn't change is shared: its transactions get no new owners. The chunks of 129 transactions
//! have 32, 32, 32, 32 and 1.
ghost use Rattle.mp_seqpool.specs.Prepared.{IsPrepared};

use crate::versions::both::{Both, asked, next, prepare};
use mp_memory::{Memory, NoMemory};
use mp_seqpool::{Command, Prepared, SeqPool};
use mp_testing::commands::{ALL, HUNDRED, REMOVE_SEVENTIETH, Samples};
use mp_testing::{Seen, count};
use mp_versions::Version;
use std::io;
use std::sync::Arc;

// The number of owners of the ticket's transaction, or 0 if there is none.
fn owners(version: &Version, ticket: u64) -> usize {
    match version.lookup(ticket) {
        Some(tx) => Arc::strong_count(tx),
        None => 0,
    }
}

// The numbers of owners of the transactions with the tickets 1, 66, 98 and 129: one in each chunk except the second.
fn owners_of_four(version: &Version) -> [usize; 4] {
    [
        owners(version, 1),
        owners(version, 66),
        owners(version, 98),
        owners(version, 129),
    ]
}

// How many more owners each of them has than before.
fn more(version: &Version, before: [usize; 4]) -> Seen {
    let after = owners_of_four(version);
    [
        after[0].wrapping_sub(before[0]) as u64,
        after[1].wrapping_sub(before[1]) as u64,
        after[2].wrapping_sub(before[2]) as u64,
        after[3].wrapping_sub(before[3]) as u64,
        0,
        0,
    ]
}

fn more_with(
    made: &Result<Version, NoMemory>,
    older: &Version,
    before: [usize; 4],
) -> Option<Seen> {
    match made {
        Ok(_) => Some(more(older, before)),
        Err(NoMemory) => None,
    }
}

fn more_after(memory: Memory, both: &Both, prepared: &Prepared) -> Option<Seen>
    requires { IsPrepared both.now.pool prepared.now }
{
    let before = owners_of_four(&both.version);
    more_with(&next(memory, both, prepared), &both.version, before)
}

fn more_after_step(memory: Memory, both: &mut Both, command: &Command) -> Option<Seen> {
    let Ok(prepared) = prepare(&mut both.pool, command) else {
        return None;
    };
    more_after(memory, both, &prepared)
}

fn more_renewed(both: &Both) -> Option<Seen> {
    let before = owners_of_four(&both.version);
    more_with(&both.version.renewed(9), &both.version, before)
}

// A step, its sample, and how many more owners the next version gives to the transactions with the tickets 1, 66, 98
// and 129.
static ROWS: [(&str, usize, Seen); 3] = [
    ("what a submit shares", 129, [0, 0, 0, 1, 0, 0]),
    (
        "what a remove shares",
        REMOVE_SEVENTIETH,
        [0, 1, 0, 0, 0, 0],
    ),
    ("what a sync shares", HUNDRED, [0, 0, 1, 0, 0, 0]),
];

fn see_step(samples: &Samples, both: &mut Both, number: usize) -> Option<Seen> {
    more_after_step(samples.memory, both, samples.command(number)?)
}

// The number of transactions, their bytes, the last ticket and the number of changes.
fn stand(pool: &SeqPool) -> Seen {
    [
        pool.len() as u64,
        pool.bytes(),
        pool.last_ticket(),
        pool.changes(),
        0,
        0,
    ]
}

fn count_rows(rt: &impl Print, samples: &Samples, both: &mut Both) -> io::Result<u64> {
    let renewed = more_renewed(both);
    let mut held = count(rt, "what a renewed version shares", renewed, [0; 6])?;
    for (name, number, wanted) in &ROWS {
        let seen = see_step(samples, both, *number);
        held = held.wrapping_add(count(rt, name, seen, *wanted)?);
    }
    let stands = Some(stand(&both.pool));
    held = held.wrapping_add(count(
        rt,
        "the pool after steps that are dropped",
        stands,
        [129, 23_349, 129, 129, 0, 0],
    )?);
    Ok(held)
}

/// The number of cases that hold.
pub fn held_shares(rt: &impl Print, samples: &Samples) -> io::Result<u64> {
    match asked(samples, ALL, samples.commands(0, 129)) {
        Some(mut both) => count_rows(rt, samples, &mut both),
        None => count(rt, "shares", None, [0; 6]),
    }
}
