//! Rounds: their preparation, and the steps of one thread.

use crate::measurement::{Asked, CHURNS, Measurement, STEPS, Work};
use crate::samples::{
    Bytes, Commands, MANY, ledger_by, push_remove, push_submits, push_sync, submit_of,
};
use crate::verifier::Spinning;
use mp_memory::Memory;
use mp_rules::check;
use mp_seqpool::{Command, Config, SeqPool};
use mp_tx::{Ledger, Tx};
use std::rt::Clock;
use std::sync::atomic::{AtomicBool, AtomicU64};
use std::time::{Duration, Instant};

/// What the threads of a round count.
#[derive(Drop)]
pub struct Tally {
    pub answered: AtomicU64,
    pub looks: AtomicU64,
    pub has_ended: AtomicBool,
}

impl Tally {
    /// All counts are 0.
    pub fn new() -> Tally {
        Tally {
            answered: AtomicU64::new(0),
            looks: AtomicU64::new(0),
            has_ended: AtomicBool::new(false),
        }
    }
}

/// The input of a round.
#[derive(Clone, Copy)]
pub struct Round<'a> {
    pub memory: Memory,
    pub work: Work,
    pub asked: Asked,
    pub size: u64,
    pub ledger: &'a Ledger,
    /// The commands before the time is taken.
    pub before: &'a [Command],
    /// The commands whose time is taken, the bytes of their transactions, and how many of them are answered.
    pub commands: &'a [Command],
    pub bytes: &'a [Bytes],
    pub answered: u64,
    pub verifier: &'a Spinning,
    pub tally: &'a Tally,
}

fn push_remove_of(memory: Memory, commands: &mut Commands, submit: &Command) -> Option<()> {
    match submit {
        Command::Submit(tx) => push_remove(memory, commands, &[*tx.id()]),
        _ => None,
    }
}

// Appends a remove of each of the first 1,000.
fn push_removes(memory: Memory, commands: &mut Commands, before: &[Command]) -> Option<()> {
    for submit in before.iter().take(STEPS as usize) {
        push_remove_of(memory, commands, submit)?;
    }
    Some(())
}

// Appends a submit of each transaction after the first ones, and then a remove of each, several times.
fn push_churns(memory: Memory, commands: &mut Commands, size: u64) -> Option<()> {
    let mut submits = Vec::new(memory);
    push_submits(
        memory,
        &mut submits,
        size,
        size.saturating_add(STEPS),
        false,
    )?;
    for _ in 0..CHURNS {
        for submit in &submits {
            commands.push(submit.share().ok()?).ok()?;
        }
        push_removes(memory, commands, &submits)?;
    }
    Some(())
}

fn push_asked(
    memory: Memory,
    commands: &mut Commands,
    before: &[Command],
    asked: Asked,
    size: u64,
) -> Option<()> {
    let last = size.saturating_add(STEPS);
    match asked {
        Asked::First => push_submits(memory, commands, 0, STEPS, false),
        Asked::Next | Asked::Arriving => push_submits(memory, commands, size, last, false),
        Asked::Signed => push_submits(memory, commands, size, last, true),
        Asked::Remove => push_removes(memory, commands, before),
        Asked::Churn => push_churns(memory, commands, size),
        Asked::Sync => push_sync(memory, commands, 2, MANY, size),
        Asked::Stay => push_sync(memory, commands, 1, MANY, size),
        Asked::Nothing => Some(()),
    }
}

/// Prepares the commands before the time is taken, and those after.
pub fn fill(
    memory: Memory,
    before: &mut Commands,
    commands: &mut Commands,
    measurement: &Measurement,
    size: u64,
) -> Option<()> {
    let (_, _, is_filled, asked, _) = *measurement;
    push_submits(memory, before, 0, if is_filled { size } else { 0 }, false)?;
    push_asked(memory, commands, before, asked, size)
}

/// The ledger state with the outputs that are spent.
pub fn opening(memory: Memory, asked: Asked, size: u64) -> Option<Ledger> {
    let outputs = match asked {
        Asked::Next | Asked::Arriving | Asked::Signed | Asked::Churn => {
            size.saturating_add(STEPS)
        }
        _ => size,
    };
    ledger_by(memory, 1, MANY, outputs)
}

fn count_decoded(memory: Memory, all: &[Bytes]) -> u64 {
    let mut decoded: u64 = 0;
    for bytes in all {
        if Tx::decode(memory, bytes).is_ok() {
            decoded = decoded.saturating_add(1);
        }
    }
    decoded
}

fn is_valid(memory: Memory, ledger: &Ledger, command: &Command, verifier: &Spinning) -> bool {
    match command {
        Command::Submit(tx) => check(memory, tx, ledger, 0, verifier).is_ok(),
        _ => false,
    }
}

fn count_valid(round: &Round<'_>) -> u64 {
    let mut valid: u64 = 0;
    for command in round.commands {
        if is_valid(round.memory, round.ledger, command, round.verifier) {
            valid = valid.saturating_add(1);
        }
    }
    valid
}

fn is_answered(pool: &mut SeqPool, command: &Command, verifier: &Spinning) -> bool {
    pool.execute(command, verifier).is_ok()
}

fn count_answered(pool: &mut SeqPool, commands: &[Command], verifier: &Spinning) -> u64 {
    let mut answered: u64 = 0;
    for command in commands {
        if is_answered(pool, command, verifier) {
            answered = answered.saturating_add(1);
        }
    }
    answered
}

// Whether the decoded transaction is accepted.
fn is_taken(memory: Memory, pool: &mut SeqPool, bytes: &[u8], verifier: &Spinning) -> bool {
    match submit_of(memory, bytes) {
        Some(command) => is_answered(pool, &command, verifier),
        None => false,
    }
}

fn count_taken(pool: &mut SeqPool, round: &Round<'_>) -> u64 {
    let mut taken: u64 = 0;
    for bytes in round.bytes {
        if is_taken(round.memory, pool, bytes, round.verifier) {
            taken = taken.saturating_add(1);
        }
    }
    taken
}

fn take_steps(round: &Round<'_>, pool: &mut SeqPool) -> u64 {
    match (round.work, round.asked) {
        (Work::Decode, _) => count_decoded(round.memory, round.bytes),
        (Work::Check, _) => count_valid(round),
        (_, Asked::Arriving) => count_taken(pool, round),
        _ => count_answered(pool, round.commands, round.verifier),
    }
}

// The number of transactions in the pool after the steps.
fn left(round: &Round<'_>) -> u64 {
    match round.asked {
        Asked::Remove => round.size.saturating_sub(STEPS),
        Asked::Sync => round.size / 2,
        Asked::Stay => round.size,
        Asked::Next | Asked::Arriving => round.size.saturating_add(STEPS),
        _ => 0,
    }
}

fn time_steps(clock: &impl Clock, round: &Round<'_>, pool: &mut SeqPool) -> Option<Duration> {
    count_answered(pool, round.before, round.verifier);
    let start = Instant::now(clock).ok()?;
    let answered = take_steps(round, pool);
    let time = start.elapsed(clock).ok()?;
    if answered == round.answered && pool.len() as u64 == left(round) {
        return Some(time);
    }
    None
}

/// The time of the steps in one thread. Returns `None` if their results aren't as expected, so that no step can be left
/// out.
pub fn time_alone(clock: &impl Clock, round: &Round<'_>) -> Option<Duration> {
    let config = Config {
        limit: 1 << 32,
        last: 0,
    };
    let mut pool = SeqPool::start(round.memory, config, round.ledger).ok()?;
    time_steps(clock, round, &mut pool)
}
