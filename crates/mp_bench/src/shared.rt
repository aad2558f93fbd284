//! The mempool that callers share: its commands, and the steps of its measurements.
ghost use Rattle.std.specs.Prelude.{◌≡◌};
ghost use Rattle.mp_history.specs.PoolName.{head_of};
ghost use Rattle.mp_bench.specs.Signatures.{any};

use crate::measurement::{Asked, LOOKS, STEPS, Work};
use crate::round::{Round, Tally};
use crate::samples::submit_of;
use crate::verifier::Spinning;
use mp_history::{NewName, PoolName};
use mp_memory::Memory;
use mp_mempool::{Config, Mempool, Pass, Reader, Receipt, Refusal};
use mp_seqpool::Command;
use std::marker::Brand;
use std::rt::Clock;
use std::sync::atomic::Ordering;
use std::sync::{Arc, Wait};
use std::thread::{Threads, for_each_mut};
use std::time::{Duration, Instant};

// The greatest number of changes, and the first ticket is 1.
const CONFIG: Config = Config {
    limit: 1 << 32,
    last: 0,
};

/// Gives the command to the mempool.
pub fn ask<N: PoolName>(
    rt: &impl Wait,
    mempool: &Mempool<N, Spinning>,
    pass: &mut Pass<N>,
    command: &Command,
) -> Result<Receipt, Refusal<N>> {
    match command {
        Command::Submit(tx) => mempool.submit(rt, pass, tx),
        Command::Remove(ids) => mempool.remove(rt, pass, ids),
        Command::Sync(ledger) => mempool.sync(rt, pass, ledger),
    }
}

fn is_answered<N: PoolName>(
    rt: &impl Wait,
    mempool: &Mempool<N, Spinning>,
    pass: &mut Pass<N>,
    command: &Command,
) -> bool {
    ask(rt, mempool, pass, command).is_ok()
}

/// How many of these commands are accepted.
pub fn ask_all<N: PoolName>(
    rt: &impl Wait,
    mempool: &Mempool<N, Spinning>,
    pass: &mut Pass<N>,
    commands: &[Command],
) -> u64 {
    let mut answered: u64 = 0;
    for command in commands {
        if is_answered(rt, mempool, pass, command) {
            answered = answered.saturating_add(1);
        }
    }
    answered
}

// Whether the decoded transaction is accepted.
fn is_taken<N: PoolName>(
    rt: &impl Wait,
    memory: Memory,
    mempool: &Mempool<N, Spinning>,
    pass: &mut Pass<N>,
    bytes: &[u8],
) -> bool {
    match submit_of(memory, bytes) {
        Some(command) => is_answered(rt, mempool, pass, &command),
        None => false,
    }
}

fn count_taken<N: PoolName>(
    rt: &impl Wait,
    mempool: &Mempool<N, Spinning>,
    pass: &mut Pass<N>,
    round: &Round<'_>,
) -> u64 {
    let mut taken: u64 = 0;
    for bytes in round.bytes {
        if is_taken(rt, round.memory, mempool, pass, bytes) {
            taken = taken.saturating_add(1);
        }
    }
    taken
}

// How many commands of the caller's part of the round are answered.
fn take_part<N: PoolName>(
    rt: &impl Wait,
    mempool: &Mempool<N, Spinning>,
    pass: &mut Pass<N>,
    round: &Round<'_>,
    caller: usize,
) -> u64 {
    match round.asked {
        Asked::Arriving => count_taken(rt, mempool, pass, round),
        _ => ask_all(rt, mempool, pass, part_of(round, caller)),
    }
}

fn number_of<N: PoolName>(reader: &Reader<N, Spinning>, pass: &mut Pass<N>) -> u64 {
    reader.refresh(pass);
    pass.snapshot().number()
}

// Takes snapshots until the other caller has ended, and counts them.
fn look_until<N: PoolName>(reader: &Reader<N, Spinning>, pass: &mut Pass<N>, tally: &Tally) {
    let mut looks: u64 = 0;
    for _ in 0..u64::MAX {
        number_of(reader, pass);
        looks = looks.saturating_add(1);
        if tally.has_ended.load(Ordering::SeqCst) {
            break;
        }
    }
    tally.looks.fetch_add(looks, Ordering::SeqCst);
}

/// How many of these callers see this many entries.
pub fn count_seen<N: PoolName>(
    reader: &Reader<N, Spinning>,
    passes: &mut [Pass<N>],
    entries: u64,
) -> u64 {
    let mut seen: u64 = 0;
    for pass in passes {
        if number_of(reader, pass) == entries {
            seen = seen.saturating_add(1);
        }
    }
    seen
}

// How many of these snapshots show this many entries.
fn look_on<N: PoolName>(reader: &Reader<N, Spinning>, pass: &mut Pass<N>, entries: u64) -> u64 {
    let mut seen: u64 = 0;
    for _ in 0..LOOKS {
        if number_of(reader, pass) == entries {
            seen = seen.saturating_add(1);
        }
    }
    seen
}

// The commands of the caller, in a thread of its own.
fn part_of<'a>(round: &Round<'a>, caller: usize) -> &'a [Command] {
    let (from, to) = match round.work {
        Work::FourThreads => (
            caller.saturating_mul(250),
            caller.saturating_mul(250).saturating_add(250),
        ),
        _ => (0, round.commands.len()),
    };
    match round.commands.get(from..to) {
        Some(commands) => commands,
        None => &[],
    }
}

fn act<N: PoolName>(
    rt: &impl Wait,
    mempool: &Mempool<N, Spinning>,
    reader: &Reader<N, Spinning>,
    round: &Round<'_>,
    caller: usize,
    pass: &mut Pass<N>,
) {
    if matches!(round.work, Work::Watch(_)) && caller > 0 {
        look_until(reader, pass, round.tally);
    } else {
        let answered = take_part(rt, mempool, pass, round, caller);
        round.tally.answered.fetch_add(answered, Ordering::SeqCst);
        round.tally.has_ended.store(true, Ordering::SeqCst);
    }
}

// The number of threads in which callers act.
fn count_threads(work: Work) -> usize {
    match work {
        Work::Watch(readers) => readers.saturating_add(1),
        _ => 4,
    }
}

fn take_steps<N: PoolName + Send + Sync, R: Threads + Wait + Sync>(
    rt: &R,
    mempool: &Mempool<N, Spinning>,
    reader: &Reader<N, Spinning>,
    passes: &mut [Pass<N>],
    round: &Round<'_>,
) -> Option<()> {
    let (first, others) = passes.split_first_mut()?;
    match round.work {
        Work::Newer => {
            let seen = count_seen(reader, others, round.size);
            round.tally.answered.store(seen, Ordering::SeqCst);
        }
        Work::Still => {
            let seen = look_on(reader, first, round.size);
            round.tally.answered.store(seen, Ordering::SeqCst);
        }
        Work::FourThreads | Work::Watch(_) => {
            let threads = count_threads(round.work).max(1);
            for_each_mut(
                rt,
                passes.get_mut(..threads)?,
                threads,
                &|caller, pass: &mut Pass<N>| act(rt, mempool, reader, round, caller, pass),
            );
        }
        _ => act(rt, mempool, reader, round, 0, first),
    }
    Some(())
}

fn reset(tally: &Tally, work: Work) {
    let looks = match work {
        Work::Watch(_) => 0,
        Work::Still => LOOKS,
        _ => STEPS,
    };
    tally.answered.store(0, Ordering::SeqCst);
    tally.looks.store(looks, Ordering::SeqCst);
    tally.has_ended.store(false, Ordering::SeqCst);
}

// The time of the steps, once the mempool has its transactions.
fn time_steps<N: PoolName + Send + Sync, R: Clock + Threads + Wait + Sync>(
    rt: &R,
    mempool: &Mempool<N, Spinning>,
    reader: &Reader<N, Spinning>,
    passes: &mut [Pass<N>],
    round: &Round<'_>,
) -> Option<Duration> {
    let filled = ask_all(rt, mempool, passes.first_mut()?, round.before);
    if filled != round.before.len() as u64 {
        return None;
    }
    reset(round.tally, round.work);
    let start = Instant::now(rt).ok()?;
    take_steps(rt, mempool, reader, passes, round)?;
    let time = start.elapsed(rt).ok()?;
    if round.tally.answered.load(Ordering::SeqCst) != round.answered {
        return None;
    }
    Some(of_thousand(time, round.tally.looks.load(Ordering::SeqCst)))
}

// The time of 1,000 steps, given that of `steps`.
fn of_thousand(time: Duration, steps: u64) -> Duration {
    let nanos = time.as_nanos().saturating_mul(u128::from(STEPS)) / u128::from(steps.max(1));
    Duration::from_nanos(u64::try_from(nanos).unwrap_or(u64::MAX))
}

fn open<N: PoolName + Send + Sync, R: Clock + Threads + Wait + Sync>(
    rt: &R,
    name: NewName,
    callers: u32,
    round: &Round<'_>,
) -> Option<Duration>
    requires name { name ≡ head_of N.book N.root }
    requires callers { callers ≡ N.callers }
    requires accepts { N.accepts ≡ any }
{
    let verifier = Arc::new(round.memory, Spinning::new()).ok()?;
    match Mempool::<N, _>::open(
        rt,
        round.memory,
        name,
        CONFIG,
        round.ledger,
        &verifier,
        callers,
    ) {
        Ok((mempool, reader, mut passes)) => {
            time_steps(rt, &mempool, &reader, &mut passes, round)
        }
        Err(_) => None,
    }
}

/// The time of the round's steps on a new mempool with this many callers.
pub fn time_shared<R: Clock + Threads + Wait + Sync>(
    rt: &R,
    callers: u32,
    round: &Round<'_>,
) -> Option<Duration> {
    open::<Brand, _>(rt, NewName::new(), callers, round)
}
