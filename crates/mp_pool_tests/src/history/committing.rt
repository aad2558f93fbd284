//! Two threads that commit to one history.
ghost use Rattle.std.specs.Prelude.{◌≡◌};
ghost use Rattle.mp_history.specs.PoolName.{head_of};

use mp_history::{Caller, CommitRight, Entry, Front, History, NewName, PoolName, look};
use mp_memory::{Memory, NoMemory};
use mp_seqpool::{Command, Reply, SeqPool};
use mp_testing::commands::{HUNDRED, Samples};
use mp_testing::told::Told;
use mp_testing::{CONFIG, Seen, count, tell};
use std::io;
use std::marker::Brand;
use std::sync::{Mutex, Wait};
use std::thread::{Threads, join};

// The number of commits of each of the two threads.
const EACH: usize = 50;

// The greatest length of a history.
const MAX_ENTRIES: u64 = 1 << 32;

// The content of the lock: the right, the entries in order, and how many of them got the next place.
#[derive(Drop)]
struct Shared<N: PoolName> {
    right: CommitRight<N>,
    entries: Vec<Entry, Memory>,
    in_turn: u64,
}

fn commit<N: PoolName>(
    history: &History<N>,
    right: &mut CommitRight<N>,
    caller: &mut Caller<N>,
    place: u64,
    command: Command,
) -> Option<Entry> {
    let ticket = place.saturating_add(1);
    let entry = caller.entry(command, Reply::Accepted { ticket });
    if right.front().len() >= MAX_ENTRIES {
        return None;
    }
    history.commit(right, caller, &entry);
    Some(entry)
}

impl<N: PoolName> Shared<N> {
    fn submit(
        &mut self,
        history: &History<N>,
        caller: &mut Caller<N>,
        command: Command,
    ) -> Option<()> {
        let place = self.right.front().len();
        if place == self.entries.len() as u64 {
            self.in_turn = self.in_turn.saturating_add(1);
        }
        let entry = commit(history, &mut self.right, caller, place, command)?;
        self.entries.push(entry).ok()
    }
}

fn submit_one<N: PoolName>(
    rt: &impl Wait,
    history: &History<N>,
    shared: &Mutex<Shared<N>>,
    caller: &mut Caller<N>,
    command: &Command,
) -> Option<()> {
    let Ok(command) = command.share() else {
        return None;
    };
    shared.lock(rt).submit(history, caller, command)
}

// Submits these, and returns the front that it saw last.
fn submit_some<N: PoolName>(
    rt: &impl Wait,
    history: &History<N>,
    shared: &Mutex<Shared<N>>,
    mut caller: Caller<N>,
    commands: &[Command],
) -> Option<Front<N>> {
    for command in commands {
        submit_one(rt, history, shared, &mut caller, command)?;
    }
    Some(shared.lock(rt).right.front())
}

// The last ticket of the audit of a history of two callers.
fn last_ticket(samples: &Samples, entries: &[Entry]) -> u64 {
    match tell(samples, HUNDRED, CONFIG, 2, entries) {
        Told::Legal(_, last) => last,
        _ => 0,
    }
}

// The lengths of the history and of the last front that a thread saw. Then the number of entries that got the next
// place, and the last ticket of an audit.
fn see<N: PoolName>(
    samples: &Samples,
    shared: &mut Shared<N>,
    one: &Front<N>,
    two: &Front<N>,
) -> Seen {
    one.compare(two);
    look(one, &two.again());
    shared.right.covers(one);
    shared.right.covers(two);
    [
        shared.right.front().len(),
        one.len().max(two.len()),
        shared.in_turn,
        last_ticket(samples, &shared.entries),
        0,
        0,
    ]
}

fn see_both<N: PoolName>(
    rt: &impl Wait,
    samples: &Samples,
    shared: &Mutex<Shared<N>>,
    fronts: &(Option<Front<N>>, Option<Front<N>>),
) -> Option<Seen> {
    match fronts {
        (Some(one), Some(two)) => Some(see(samples, &mut shared.lock(rt), one, two)),
        _ => None,
    }
}

fn commit_by_two<N: PoolName + Send + Sync, R: Threads + Wait + Sync>(
    rt: &R,
    samples: &Samples,
    history: &History<N>,
    shared: &Mutex<Shared<N>>,
    mut tokens: Vec<Caller<N>, Memory>,
) -> Option<Seen> {
    let (second, first) = (tokens.pop()?, tokens.pop()?);
    let front = samples.commands(0, EACH);
    let back = samples.commands(EACH, 2 * EACH);
    let fronts = join(
        rt,
        || submit_some(rt, history, shared, first, front),
        || submit_some(rt, history, shared, second, back),
    );
    see_both(rt, samples, shared, &fronts)
}

fn of_name<N: PoolName + Send + Sync, R: Threads + Wait + Sync>(
    rt: &R,
    samples: &Samples,
    name: NewName,
    pool: &SeqPool,
) -> Option<Seen>
    requires name { name ≡ head_of N.book N.root }
    requires callers { N.callers ≡ 2 }
{
    match History::<N>::open(name, samples.memory, 2, pool, pool.config().limit) {
        Ok((history, right, tokens)) => {
            let entries = Vec::new(samples.memory);
            let shared = Mutex::new(Shared {
                right,
                entries,
                in_turn: 0,
            });
            commit_by_two(rt, samples, &history, &shared, tokens)
        }
        Err(NoMemory) => None,
    }
}

fn commits<R: Threads + Wait + Sync>(rt: &R, samples: &Samples) -> Option<Seen> {
    let Ok(pool) = SeqPool::start(samples.memory, CONFIG, samples.ledger(HUNDRED)?) else {
        return None;
    };
    of_name::<Brand, R>(rt, samples, NewName::new(), &pool)
}

/// The number of cases that hold.
pub fn held_commits<R: Print + Threads + Wait + Sync>(
    rt: &R,
    samples: &Samples,
) -> io::Result<u64> {
    let seen = commits(rt, samples);
    count(rt, "two threads commit", seen, [100, 100, 100, 100, 0, 0])
}
