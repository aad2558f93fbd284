//! Two threads that share a pool.
ghost use Rattle.std.specs.Prelude.{◌≡◌};
ghost use Rattle.mp_history.specs.PoolName.{head_of};
ghost use Rattle.mp_testing.specs.Names.{any};

use crate::mempool::meeting::{Flags, Meeting};
use crate::mempool::pools::LONG;
use mp_history::{Entry, NewName, PoolName};
use mp_memory::Memory;
use mp_mempool::{Config, Mempool, Pass, Receipt};
use mp_seqpool::{Command, Reply};
use mp_testing::commands::{ALL, RIVAL, SIGNED, Samples};
use mp_testing::told::Told;
use mp_testing::{CONFIG, Seen, count, tell};
use mp_tx::Ledger;
use std::io;
use std::marker::Brand;
use std::sync::{Arc, Mutex, Wait};
use std::thread::{Threads, for_each_mut};

// The samples that are submitted. One caller submits those from `before` to `from` and the others don't learn of them.
// Then two threads submit those up to the middle and those after it.
#[derive(Clone, Copy)]
struct Part {
    before: usize,
    from: usize,
    middle: usize,
    to: usize,
}

type Receipts = Vec<Receipt, Memory>;

fn submit<N: PoolName>(
    rt: &impl Wait,
    mempool: &Mempool<N, Meeting>,
    pass: &mut Pass<N>,
    command: &Command,
) -> Option<Receipt> {
    match command {
        Command::Submit(tx) => mempool.submit(rt, pass, tx).ok(),
        _ => None,
    }
}

fn push(rt: &impl Wait, receipts: &Mutex<Receipts>, receipt: Receipt) -> Option<()> {
    receipts.lock(rt).push(receipt).ok()
}

// Submits all of them, up to the first that is refused.
fn submit_some<N: PoolName>(
    rt: &impl Wait,
    mempool: &Mempool<N, Meeting>,
    pass: &mut Pass<N>,
    commands: &[Command],
    receipts: &Mutex<Receipts>,
) -> Option<()> {
    for command in commands {
        let receipt = submit(rt, mempool, pass, command)?;
        push(rt, receipts, receipt)?;
    }
    Some(())
}

// The commands of the caller, in a thread of its own.
fn commands_of<'a>(samples: &'a Samples, part: Part, caller: usize) -> &'a [Command] {
    match caller {
        1 => samples.commands(part.from, part.middle),
        2 => samples.commands(part.middle, part.to),
        _ => &[],
    }
}

fn submit_own<N: PoolName>(
    rt: &impl Wait,
    mempool: &Mempool<N, Meeting>,
    samples: &Samples,
    part: Part,
    caller: usize,
    pass: &mut Pass<N>,
    receipts: &Mutex<Receipts>,
) {
    let _ = submit_some(
        rt,
        mempool,
        pass,
        commands_of(samples, part, caller),
        receipts,
    );
}

// The first caller submits, and then both others do.
fn submit_all<N: PoolName + Send + Sync, R: Threads + Wait + Sync>(
    rt: &R,
    mempool: &Mempool<N, Meeting>,
    passes: &mut [Pass<N>],
    samples: &Samples,
    part: Part,
    receipts: &Mutex<Receipts>,
) -> Option<()> {
    let before = samples.commands(part.before, part.from);
    submit_some(rt, mempool, passes.first_mut()?, before, receipts)?;
    for_each_mut(
        rt,
        passes,
        3,
        &|caller, pass: &mut Pass<N>| {
            submit_own(rt, mempool, samples, part, caller, pass, receipts)
        },
    );
    Some(())
}

// A pool with three callers.
fn of_name<N: PoolName + Send + Sync, R: Threads + Wait + Sync>(
    rt: &R,
    name: NewName,
    samples: &Samples,
    ledger: &Ledger,
    verifier: &Arc<Meeting, Memory>,
    part: Part,
    receipts: &Mutex<Receipts>,
) -> Option<()>
    requires name { name ≡ head_of N.book N.root }
    requires callers { N.callers ≡ 3 }
    requires accepts { N.accepts ≡ any }
{
    let config = Config {
        limit: LONG,
        last: 0,
    };
    match Mempool::<N, _>::open(rt, samples.memory, name, config, ledger, verifier, 3) {
        Ok((mempool, _reader, mut passes)) => {
            submit_all(rt, &mempool, passes.as_mut_slice(), samples, part, receipts)
        }
        Err(_) => None,
    }
}

fn submit_part<R: Threads + Wait + Sync>(
    rt: &R,
    samples: &Samples,
    part: Part,
    flags: &Arc<Flags, Memory>,
    receipts: &Mutex<Receipts>,
) -> Option<()> {
    let ledger = samples.ledger(ALL)?;
    let verifier = Arc::new(samples.memory, Meeting::of(flags).ok()?).ok()?;
    of_name::<Brand, R>(
        rt,
        NewName::new(),
        samples,
        ledger,
        &verifier,
        part,
        receipts,
    )
}

fn is_next(receipt: &Receipt, count: u64) -> bool {
    match &receipt.entry.reply {
        Reply::Accepted { ticket } => receipt.place == count && *ticket == count.saturating_add(1),
        _ => false,
    }
}

// How many receipts are at the index of their place, from 0, with the next ticket.
fn in_turn(receipts: &[Receipt]) -> u64 {
    let mut count: u64 = 0;
    for receipt in receipts {
        if is_next(receipt, count) {
            count = count.saturating_add(1);
        }
    }
    count
}

fn entries_of(memory: Memory, receipts: Receipts) -> Option<Vec<Entry, Memory>> {
    let mut entries = Vec::new(memory);
    for receipt in receipts {
        if entries.push(receipt.entry).is_err() {
            return None;
        }
    }
    Some(entries)
}

// The last ticket after an audit of a history of three callers, or 0 if it finds a fault.
fn last_ticket(samples: &Samples, entries: &[Entry]) -> u64 {
    match tell(samples, ALL, CONFIG, 3, entries) {
        Told::Legal(_, last) => last,
        _ => 0,
    }
}

// The numbers of receipts and of those with the next place and the next ticket, and the last ticket after an audit of
// all entries.
fn see(samples: &Samples, mut receipts: Receipts, met: u64) -> Option<Seen> {
    if receipts.sort_by_key(|receipt| receipt.place).is_err() {
        return None;
    }
    let (count, in_turn) = (receipts.len() as u64, in_turn(&receipts));
    let entries = entries_of(samples.memory, receipts)?;
    Some([count, in_turn, last_ticket(samples, &entries), met, 0, 0])
}

// The results of these submits on a new pool: that, and how many checks of signatures have met.
fn share<R: Threads + Wait + Sync>(rt: &R, samples: &Samples, part: Part) -> Option<Seen> {
    let Ok(flags) = Arc::new(samples.memory, Flags::new()) else {
        return None;
    };
    let receipts = Mutex::new(Vec::new(samples.memory));
    submit_part(rt, samples, part, &flags, &receipts)?;
    see(samples, receipts.into_inner(), flags.met())
}

const HALVES: Part = Part {
    before: 0,
    from: 0,
    middle: 50,
    to: 100,
};

// Both spend outputs of the ledger state.
const ON_LEDGER: Part = Part {
    before: SIGNED,
    from: SIGNED,
    middle: SIGNED + 1,
    to: SIGNED + 2,
};

// Both spend outputs of a transaction in the pool, which neither caller knows.
const ON_POOL: Part = Part {
    before: RIVAL,
    from: RIVAL + 1,
    middle: RIVAL + 2,
    to: RIVAL + 3,
};

static ROWS: [(&str, Part, Seen); 3] = [
    (
        "two threads share one history",
        HALVES,
        [100, 100, 100, 0, 0, 0],
    ),
    (
        "checks upon the ledger state meet",
        ON_LEDGER,
        [2, 2, 2, 2, 0, 0],
    ),
    ("checks upon the pool meet", ON_POOL, [3, 3, 3, 2, 0, 0]),
];

/// The number of cases that hold.
pub fn held_threads<R: Print + Threads + Wait + Sync>(
    rt: &R,
    samples: &Samples,
) -> io::Result<u64> {
    let mut held = 0u64;
    for (name, part, wanted) in &ROWS {
        held = held.wrapping_add(count(rt, name, share(rt, samples, *part), *wanted)?);
    }
    Ok(held)
}
