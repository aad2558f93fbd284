//! The cost of a remove with dependents. It allocates as often in a large pool as in a small one, so it looks at no
//! other transactions, and each allocation fails in turn before.
use crate::rounds::{answers, growths};
use mp_memory::Memory;
use mp_seqpool::{Command, SeqPool};
use mp_testing::commands::{push_remove, push_tx, submitted};
use mp_testing::{CONFIG, Seen, count, ledger, opening, output_of, parts};
use std::io;

const SMALL: u16 = 200;

const LARGE: u16 = 20_000;

type Commands = Vec<Command, Memory>;

// Appends a submit of a transaction that spends only this opening.
fn push_alone(memory: Memory, commands: &mut Commands, index: u16) -> Option<()> {
    push_tx(
        memory,
        commands,
        parts(memory, &[opening(index)], &[100]).ok()?,
    )
}

// Appends a submit of a transaction that spends the first output of the one that was pushed last.
fn push_next(memory: Memory, commands: &mut Commands) -> Option<()> {
    let before = submitted(commands, commands.len().checked_sub(1)?)?;
    push_tx(
        memory,
        commands,
        parts(memory, &[output_of(&before, 0)], &[100]).ok()?,
    )
}

// A chain of three, and a remove of the first.
fn chain(memory: Memory) -> Option<Commands> {
    let mut commands = Vec::new(memory);
    push_alone(memory, &mut commands, 0)?;
    push_next(memory, &mut commands)?;
    push_next(memory, &mut commands)?;
    push_remove(memory, &mut commands, &[0])?;
    Some(commands)
}

// Submits transactions that spend the other openings.
fn fill(memory: Memory, pool: &mut SeqPool, count: u16) -> Option<()> {
    for index in 1..count {
        let mut commands = Vec::new(memory);
        push_alone(memory, &mut commands, index)?;
        if !answers(pool, commands.first()?) {
            return None;
        }
    }
    Some(())
}

// A pool with the chain and this many transactions in all but two.
fn filled(memory: Memory, commands: &Commands, count: u16) -> Option<SeqPool> {
    let ledger = ledger(memory, count, 1 << 30).ok()?;
    let mut pool = SeqPool::start(memory, CONFIG, &ledger).ok()?;
    for command in commands.iter().take(3) {
        if !answers(&mut pool, command) {
            return None;
        }
    }
    fill(memory, &mut pool, count)?;
    Some(pool)
}

// The number of allocations of the remove, and how many transactions stay.
fn cost(memory: Memory, count: u16) -> Option<(u64, usize)> {
    let commands = chain(memory)?;
    let mut pool = filled(memory, &commands, count)?;
    let made = growths(memory, &mut pool, commands.get(3)?)?;
    Some((made, pool.len()))
}

// How many allocations more the remove makes in the large pool, and how many transactions stay in each.
fn costs(memory: Memory) -> Option<Seen> {
    let small = cost(memory, SMALL)?;
    let large = cost(memory, LARGE)?;
    let more = large.0.wrapping_sub(small.0);
    Some([more, small.1 as u64, large.1 as u64, 0, 0, 0])
}

/// The number of cases that hold.
pub fn held(rt: &impl Print, memory: Memory) -> io::Result<u64> {
    let wanted = [0, 199, 19_999, 0, 0, 0];
    count(
        rt,
        "allocations of a remove with dependents",
        costs(memory),
        wanted,
    )
}
