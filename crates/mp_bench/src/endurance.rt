//! A long endurance of mempools that hand over. In each round, callers give random commands to a mempool, each in a thread
//! of its own. Then it hands over to a successor, and they continue on that. Audits check both histories.

mod audits;
mod chapter;
mod dice;
mod fault;
mod player;
mod pools;
mod soak;
mod table;

use crate::samples::{MANY, ledger_by};
use anyhow::{Context, Result, bail};
use audits::audit_tale;
use chapter::Chapter;
use dice::Dice;
use fault::EnduranceFault;
use mp_memory::Memory;
use mp_mempool::Receipt;
use mp_tx::Ledger;
use player::{Counts, Part};
use pools::{Plan, Tale, play_pools};
use soak::{Soak, run_soak};
use std::io;
use std::rt::{Clock, Files};
use std::sync::{Mutex, Wait};
use std::thread::Threads;
use std::time::{Duration, Instant};
use table::{OUTPUTS, Table, count_owners, fill};

// The greatest number of turns that callers play on a pool.
const TURNS: u64 = 40;

/// What all rounds begin with, and the counts of all commands.
pub struct Endurance {
    memory: Memory,
    ledger: Ledger,
    // A ledger state without outputs.
    empty: Ledger,
    table: Table,
    counts: Counts,
    callers: u32,
    receipts: Mutex<Vec<Receipt, Memory>>,
}

impl Drop for Endurance {
    fn drop(self) {
        let Endurance {
            memory: _,
            ledger: _,
            empty: _,
            table: _,
            counts: _,
            callers: _,
            receipts: _,
        } = self;
    }
}

// The totals of all rounds so far, and the seed of the next one.
#[derive(Clone, Copy)]
struct Totals {
    seed: u64,
    rounds: u64,
    entries: u64,
    last: u64,
}

impl Totals {
    fn note(&mut self, tale: &Tale) {
        for chapter in [&tale.before, &tale.after] {
            self.entries = self.entries.saturating_add(chapter.closing.number);
            self.last = chapter.closing.last;
        }
        self.rounds = self.rounds.saturating_add(1);
    }
}

fn part_of(dice: &mut Dice) -> Part {
    Part {
        seed: dice.roll(),
        turns: (dice.roll() % TURNS) as u32 + 1,
    }
}

// Plays both pools, and checks their histories.
fn play_both<R: Clock + Threads + Wait + Sync>(
    rt: &R,
    endurance: &Endurance,
    plan: Plan,
    totals: &mut Totals,
) -> Result<(), EnduranceFault> {
    let mut tale = Tale {
        before: Chapter::empty(endurance.memory),
        after: Chapter::empty(endurance.memory),
    };
    play_pools(rt, endurance, plan, &mut tale)?;
    audit_tale(endurance, plan, &tale)?;
    totals.note(&tale);
    Ok(())
}

// Plays a round. Afterwards, nothing of its pools may remain.
fn play_round<R: Clock + Threads + Wait + Sync>(
    rt: &R,
    endurance: &Endurance,
    plan: Plan,
    totals: &mut Totals,
) -> Result<(), EnduranceFault> {
    let owners = count_owners(&endurance.table.changes);
    play_both(rt, endurance, plan, totals)?;
    if endurance.counts.has_strange() {
        return Err(EnduranceFault::Strange);
    }
    if count_owners(&endurance.table.changes) != owners {
        return Err(EnduranceFault::Held);
    }
    Ok(())
}

// Plays rounds until the time is over, at least one. Their tickets continue.
fn play_rounds<R: Clock + Threads + Wait + Sync>(
    rt: &R,
    endurance: &Endurance,
    length: Duration,
    totals: &mut Totals,
) -> Result<(), EnduranceFault> {
    let start = Instant::now(rt).ok().ok_or(EnduranceFault::Wanting)?;
    for _ in 0..u64::MAX {
        let mut dice = Dice::of(totals.seed);
        let plan = Plan {
            last: totals.last,
            before: part_of(&mut dice),
            after: part_of(&mut dice),
        };
        play_round(rt, endurance, plan, totals)?;
        if start.elapsed(rt).ok().ok_or(EnduranceFault::Wanting)? >= length {
            break;
        }
        totals.seed = dice.roll();
    }
    Ok(())
}

// Prints the counts of the commands and of the audits.
fn print(rt: &impl Print, counts: [u64; 5], totals: &Totals) -> io::Result<()> {
    let [entered, refused, snapshots, learned, strange] = counts;
    println!(rt;
        "{entered} entered, {refused} refused, {snapshots} snapshots, {learned} learned, {strange} strange"
    )?;
    let Totals {
        rounds,
        entries,
        last,
        ..
    } = *totals;
    println!(rt;
        "{rounds} rounds, {} histories are legal: {entries} entries, last ticket {last}",
        rounds.saturating_mul(2)
    )
}

fn run_upon<R: Clock + Threads + Wait + Print + Sync>(
    rt: &R,
    endurance: &Endurance,
    seed: u64,
    length: Duration,
) -> Result<()> {
    let mut totals = Totals {
        seed,
        rounds: 0,
        entries: 0,
        last: 0,
    };
    let ended = play_rounds(rt, endurance, length, &mut totals);
    print(rt, endurance.counts.read(), &totals)?;
    match ended {
        Ok(()) => Ok(()),
        Err(fault) => bail!("the round of the seed {}: {fault}", totals.seed),
    }
}

// The start of a endurance with this number of callers.
fn endurance_of(memory: Memory, callers: u64) -> Result<Endurance> {
    let mut table = Table {
        changes: Vec::new(memory),
        syncs: Vec::new(memory),
    };
    fill(memory, &mut table).context("no memory")?;
    let ledger = ledger_by(memory, 1, MANY, OUTPUTS).context("no memory")?;
    let empty = ledger_by(memory, 1, MANY, 0).context("no memory")?;
    Ok(Endurance {
        memory,
        ledger,
        empty,
        table,
        counts: Counts::none(),
        callers: u32::try_from(callers).unwrap_or(0),
        receipts: Mutex::new(Vec::new(memory)),
    })
}

/// Plays rounds for this number of seconds, and prints their results.
///
/// # Errors
/// The first failure, with the seed of its round. A endurance of that seed begins with the same commands.
pub fn run<R: Clock + Threads + Wait + Print + Sync>(
    rt: &R,
    memory: Memory,
    [seed, seconds, callers]: [u64; 3],
) -> Result<()> {
    let endurance = endurance_of(memory, callers)?;
    run_upon(rt, &endurance, seed, Duration::from_secs(seconds))
}

/// Makes this number of changes on one pool, and prints the resident memory after each tenth of them. If it is held, the last
/// caller stays idle and holds a snapshot.
///
/// # Errors
/// What went wrong.
pub fn soak_pool<R: Clock + Threads + Wait + Print + Files + AllocGlobal + Sync>(
    rt: &R,
    memory: Memory,
    [seed, changes, callers]: [u64; 3],
    is_held: bool,
) -> Result<()> {
    let endurance = endurance_of(memory, callers)?;
    let soak = Soak {
        seed,
        changes,
        is_held,
    };
    run_soak(rt, &endurance, soak)
}
