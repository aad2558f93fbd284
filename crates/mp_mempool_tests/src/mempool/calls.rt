//! Calls on a pool, as data.
use crate::mempool::heard::{Heard, read_answer, read_kept, read_snapshot};
use mp_history::PoolName;
use mp_memory::Memory;
use mp_mempool::{Mempool, Pass, Reader, Receipt, Refusal};
use mp_seqpool::Command;
use mp_testing::AcceptsAll;
use mp_testing::commands::Samples;
use mp_versions::Shown;
use std::sync::Wait;

/// An action of one caller.
#[derive(Clone, Copy)]
pub enum Call {
    /// It gives the command of the sample.
    Ask(usize),
    /// It gives the commands of the samples from the first number up to and without the second, and hears the answer to
    /// the last one.
    AskAll(usize, usize),
    /// It asks for the sample so often, and hears of the last time.
    AskOften(usize, u64),
    /// It asks for what would stay on the ledger state of the sample.
    SnapshotFor(usize),
    Snapshot,
    /// It reads what it has seen, without reading the pool.
    Seen,
    /// It reads the place of its last entry.
    Last,
    /// It learns what that caller has seen.
    Learn(usize),
    /// It arms the refusal of that allocation.
    Refuse(u64),
    /// It asks whether the refusal has happened, and disarms it.
    Met,
    /// It looks at each pass.
    Passes,
}

/// The passes of all callers.
pub type Passes<N> = Vec<Pass<N>, Memory>;

/// A pool, and what reads it.
#[derive(Drop)]
pub struct Parts<'a, N: PoolName> {
    pub mempool: &'a Mempool<N, AcceptsAll>,
    pub reader: &'a Reader<N, AcceptsAll>,
}

/// The command is asked of the pool.
pub fn ask<N: PoolName>(
    rt: &impl Wait,
    mempool: &Mempool<N, AcceptsAll>,
    pass: &mut Pass<N>,
    command: &Command,
) -> Result<Receipt, Refusal<N>> {
    match command {
        Command::Submit(tx) => mempool.submit(rt, pass, tx),
        Command::Remove(ids) => mempool.remove(rt, pass, ids),
        Command::Sync(ledger) => mempool.sync(rt, pass, ledger),
    }
}

// Gives all of them, and returns the answer to the last one.
fn ask_all<N: PoolName>(
    rt: &impl Wait,
    mempool: &Mempool<N, AcceptsAll>,
    pass: &mut Pass<N>,
    commands: &[Command],
) -> Heard {
    let mut heard = Heard::Nobody;
    for command in commands {
        heard = read_answer(&ask(rt, mempool, pass, command));
    }
    heard
}

// What is heard of the last time.
fn ask_often<N: PoolName>(
    rt: &impl Wait,
    mempool: &Mempool<N, AcceptsAll>,
    pass: &mut Pass<N>,
    commands: &[Command],
    times: u64,
) -> Heard {
    let mut heard = Heard::Nobody;
    for _ in 0..times {
        heard = ask_all(rt, mempool, pass, commands);
    }
    heard
}

fn keep<N: PoolName>(
    reader: &Reader<N, AcceptsAll>,
    pass: &mut Pass<N>,
    samples: &Samples,
    number: usize,
) -> Heard {
    match samples.ledger(number) {
        Some(ledger) => read_kept(&reader.snapshot_for(samples.memory, pass, ledger)),
        None => Heard::Nobody,
    }
}

fn read_last<N: PoolName>(pass: &Pass<N>) -> Heard {
    match pass.last_place() {
        Some(place) => Heard::Last(place),
        None => Heard::NoLast,
    }
}

fn look<N: PoolName>(reader: &Reader<N, AcceptsAll>, pass: &mut Pass<N>) -> Heard {
    reader.refresh(pass);
    read_snapshot(&pass.snapshot())
}

// What a caller does with its own pass.
fn use_pass<N: PoolName>(
    rt: &impl Wait,
    parts: &Parts<'_, N>,
    pass: &mut Pass<N>,
    samples: &Samples,
    asked: Call,
) -> Heard {
    match asked {
        Call::Ask(number) => {
            let commands = samples.commands(number, number.saturating_add(1));
            ask_all(rt, parts.mempool, pass, commands)
        }
        Call::AskAll(from, to) => ask_all(rt, parts.mempool, pass, samples.commands(from, to)),
        Call::AskOften(number, times) => {
            let commands = samples.commands(number, number.saturating_add(1));
            ask_often(rt, parts.mempool, pass, commands, times)
        }
        Call::SnapshotFor(number) => keep(parts.reader, pass, samples, number),
        Call::Snapshot => look(parts.reader, pass),
        Call::Seen => read_snapshot(&pass.snapshot()),
        Call::Last => read_last(pass),
        _ => Heard::Nobody,
    }
}

fn learn<N: PoolName>(
    reader: &Reader<N, AcceptsAll>,
    pass: Option<&mut Pass<N>>,
    shown: Shown<N>,
) -> Heard {
    match pass {
        Some(pass) => {
            reader.learn(pass, shown);
            Heard::Done
        }
        None => Heard::Nobody,
    }
}

fn share_seen<N: PoolName>(passes: &[Pass<N>], from: usize) -> Option<Shown<N>> {
    passes.get(from)?.shown().share().ok()
}

fn learn_from<N: PoolName>(
    reader: &Reader<N, AcceptsAll>,
    passes: &mut Passes<N>,
    caller: usize,
    from: usize,
) -> Heard {
    match share_seen(passes, from) {
        Some(shown) => learn(reader, passes.get_mut(caller), shown),
        None => Heard::Nobody,
    }
}

fn is_fresh<N: PoolName>(place: usize, pass: &Pass<N>) -> bool {
    pass.caller() as usize == place && pass.last_place().is_none() && pass.front().len() == 0
}

// Whether these are the passes of the callers 0, 1, .. before any change.
fn all_fresh<N: PoolName>(passes: &[Pass<N>]) -> Heard {
    for (place, pass) in passes.iter().enumerate() {
        if !is_fresh(place, pass) {
            return Heard::Unlike(place);
        }
    }
    Heard::Fresh(passes.len())
}

fn refuse(memory: Memory, nth: u64) -> Heard {
    memory.refuse(nth);
    Heard::Done
}

fn is_met(memory: Memory) -> Heard {
    let is_met = !memory.waits();
    memory.refuse(0);
    Heard::Met(is_met)
}

/// What the caller hears.
pub fn make<N: PoolName>(
    rt: &impl Wait,
    parts: &Parts<'_, N>,
    passes: &mut Passes<N>,
    samples: &Samples,
    caller: usize,
    asked: Call,
) -> Heard {
    match asked {
        Call::Learn(from) => learn_from(parts.reader, passes, caller, from),
        Call::Refuse(nth) => refuse(samples.memory, nth),
        Call::Met => is_met(samples.memory),
        Call::Passes => all_fresh(passes),
        _ => match passes.get_mut(caller) {
            Some(pass) => use_pass(rt, parts, pass, samples, asked),
            None => Heard::Nobody,
        },
    }
}
