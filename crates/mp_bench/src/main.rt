//! Measures what the product's parts cost. Without an argument it prints the names of its measurements. With `run` it takes
//! each, or the one that is named after it, at several sizes. It prints a line for each: its name, the size, and the nanoseconds
//! of one step. With `mempool-hour` it tries mempools that hand over for an hour. With `mempool-soak` it tries one mempool that
//! makes ten million changes, and with `mempool-soak-held` the same while one caller is idle and holds a snapshot.
#![tactic(auto)]

mod blocks;
mod endurance;
mod measurement;
mod round;
mod samples;
mod shared;
mod verifier;

use anyhow::{Context, Result, bail, ensure};
use blocks::time_blocks;
use measurement::{Asked, MEASUREMENTS, Measurement, SIZES, STEPS, Work};
use mp_memory::Memory;
use mp_tx::Ledger;
use round::{Round, Tally, fill, opening, time_alone};
use samples::all_bytes;
use shared::time_shared;
use std::env::{self, Env};
use std::rt::{Clock, Files};
use std::sync::Wait;
use std::thread::Threads;
use std::time::Duration;
use verifier::Spinning;

const ROUNDS: u32 = 9;

// The seed, the changes and the callers of a soak.
const SOAK: [u64; 3] = [1, 10_000_000, 64];

fn time<R: Clock + Threads + Wait + Sync>(rt: &R, round: &Round<'_>) -> Option<Duration> {
    match round.work {
        Work::Decode | Work::Check | Work::Pool => time_alone(rt, round),
        Work::Blocks => time_blocks(rt, round.memory, round.ledger, round.size),
        _ => time_shared(rt, 1_001, round),
    }
}

// The time of the steps in the best of several rounds, without the preparation.
fn best<R: Clock + Threads + Wait + Sync>(
    rt: &R,
    filled: Option<()>,
    round: &Round<'_>,
) -> Option<Duration> {
    filled?;
    let mut best = Duration::MAX;
    for _ in 0..ROUNDS {
        best = best.min(time(rt, round)?);
    }
    Some(best)
}

fn best_upon<R: Clock + Threads + Wait + Sync>(
    rt: &R,
    memory: Memory,
    measurement: &Measurement,
    size: u64,
    ledger: &Ledger,
) -> Option<Duration> {
    let (_, work, _, asked, answered) = *measurement;
    let (mut before, mut commands) = (Vec::new(memory), Vec::new(memory));
    let filled = fill(memory, &mut before, &mut commands, measurement, size);
    let bytes = all_bytes(memory, &commands);
    let (verifier, tally) = (Spinning::new(), Tally::new());
    let round = Round {
        memory,
        work,
        asked,
        size,
        ledger,
        before: &before,
        commands: &commands,
        bytes: &bytes,
        answered,
        verifier: &verifier,
        tally: &tally,
    };
    best(rt, filled, &round)
}

fn time_at<R: Clock + Threads + Wait + Sync>(
    rt: &R,
    memory: Memory,
    measurement: &Measurement,
    size: u64,
) -> Option<Duration> {
    let ledger = opening(memory, measurement.3, size)?;
    best_upon(rt, memory, measurement, size, &ledger)
}

// Takes the measurement at each size. For a sync, prints the time per transaction.
fn take<R: Clock + Threads + Wait + Print + Sync>(
    rt: &R,
    memory: Memory,
    measurement: &Measurement,
) -> Result<()> {
    let (name, _, _, asked, _) = *measurement;
    for size in SIZES {
        let time = time_at(rt, memory, measurement, size).context("a round went wrong")?;
        let steps = if matches!(asked, Asked::Sync | Asked::Stay) {
            size
        } else {
            STEPS
        };
        let tenths = time.as_nanos().saturating_mul(10) / u128::from(steps);
        println!(rt; "{name} {size} {}.{}", tenths / 10, tenths % 10)?;
    }
    Ok(())
}

// Takes the measurements with this name, or all. Returns how many were taken.
fn take_named<R: Clock + Threads + Wait + Print + Sync>(
    rt: &R,
    memory: Memory,
    wanted: Option<&String>,
) -> Result<u64> {
    let mut taken: u64 = 0;
    for measurement in &MEASUREMENTS {
        if wanted.is_none_or(|name| name.as_str() == measurement.0) {
            take(rt, memory, measurement)?;
            taken = taken.saturating_add(1);
        }
    }
    Ok(taken)
}

fn print_names(rt: &impl Print) -> Result<()> {
    for (name, ..) in &MEASUREMENTS {
        println!(rt; "{name}")?;
    }
    Ok(())
}

// The numbers from the third word on, or the default ones if there are none.
fn numbers(words: &[String], usual: [u64; 3]) -> Result<[u64; 3]> {
    let mut numbers = usual;
    for (number, word) in numbers.iter_mut().zip(words.iter().skip(2)) {
        *number = word.as_str().parse::<u64>().context("a word is no number")?;
    }
    Ok(numbers)
}

fn words<R: Env + AllocGlobal>(rt: &R) -> Result<Vec<String>> {
    let mut words = Vec::new(rt.alloc());
    for word in env::args(rt)? {
        words.push(word)?;
    }
    Ok(words)
}

fn measure<R: Clock + Threads + Wait + Print + Files + AllocGlobal + Sync>(
    rt: &R,
    memory: Memory,
    words: &[String],
) -> Result<()> {
    let Some(first) = words.get(1) else {
        return print_names(rt);
    };
    match first.as_str() {
        "run" => {
            let taken = take_named(rt, memory, words.get(2))?;
            ensure!(taken > 0, "no measurement has this name");
        }
        "mempool-hour" => {
            endurance::run(rt, memory, numbers(words, [1, 3_600, 64])?)?;
        }
        "mempool-soak" => {
            endurance::soak_pool(rt, memory, numbers(words, SOAK)?, false)?;
        }
        "mempool-soak-held" => {
            endurance::soak_pool(rt, memory, numbers(words, SOAK)?, true)?;
        }
        _ => bail!("expected nothing, 'run', 'mempool-hour' or 'mempool-soak'"),
    }
    Ok(())
}

fn main(rt: HostRuntime) -> Result<()> {
    let memory = Memory::new(rt.alloc())?;
    let words = words(&rt)?;
    measure(&rt, memory, &words)
}
