//! The cost of removes, round after round. A remove of a transaction without dependents builds no overlay, and the
//! number of vacant places stays bounded.
use mp_memory::Memory;
use mp_seqpool::{Command, SeqPool};
use mp_testing::commands::{ALL, REMOVE_FIRST, Samples};
use mp_testing::{ACCEPTS_ALL, CONFIG, Seen, count};
use std::io;

const ROUNDS: u64 = 200;

// A remove of one transaction makes fewer allocations.
const MOST_GROWTHS: u64 = 200;

/// Whether the command is answered.
pub fn answers(pool: &mut SeqPool, command: &Command) -> bool {
    matches!(pool.step(command, &ACCEPTS_ALL), Ok(Ok(_)))
}

/// The number of allocations of the command. Each fails in turn before, and then the command is answered.
pub fn growths(memory: Memory, pool: &mut SeqPool, command: &Command) -> Option<u64> {
    for nth in 1..MOST_GROWTHS {
        memory.refuse(nth);
        let is_answered = answers(pool, command);
        let waits = memory.waits();
        memory.refuse(0);
        if is_answered {
            return if waits { Some(nth - 1) } else { None };
        }
    }
    None
}

// The number of allocations of removing the transaction of the first sample, which is submitted before.
fn round(samples: &Samples, pool: &mut SeqPool) -> Option<u64> {
    if !answers(pool, samples.command(0)?) {
        return None;
    }
    growths(samples.memory, pool, samples.command(REMOVE_FIRST)?)
}

// Whether a remove makes more allocations than the first one, and so builds an overlay from scratch.
fn is_dear(samples: &Samples, pool: &mut SeqPool, first: u64) -> Option<bool> {
    Some(round(samples, pool)? > first)
}

// How many rounds build an overlay from scratch, and the numbers of the first and the last of them, from 1.
fn dear_rounds(samples: &Samples) -> Option<Seen> {
    let Ok(mut pool) = SeqPool::start(samples.memory, CONFIG, samples.ledger(ALL)?) else {
        return None;
    };
    let cheap = round(samples, &mut pool)?;
    let mut count = 0u64;
    let mut first = 0;
    let mut last = 0;
    for number in 2..=ROUNDS {
        if is_dear(samples, &mut pool, cheap)? {
            count = count.wrapping_add(1);
            first = if first == 0 { number } else { first };
            last = number;
        }
    }
    Some([count, first, last, 0, 0, 0])
}

/// The number of cases that hold.
pub fn held(rt: &impl Print, samples: &Samples) -> io::Result<u64> {
    let wanted = [3, 66, 198, 0, 0, 0];
    count(
        rt,
        "rounds that make an overlay anew",
        dear_rounds(samples),
        wanted,
    )
}
