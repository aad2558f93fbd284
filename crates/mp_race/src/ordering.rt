//! The history that the receipts record.

ghost use Rattle.std.specs.Prelude.{◌≡◌, ◌<◌, ◌≤◌, ◌%◌, true, List, get_or, All, IfOk, IfErr};
ghost use Rattle.mp_history.specs.Log.{Log, last_of};
ghost use Rattle.mp_race.specs.RaceFault.{IsOfRace};
ghost use Rattle.mp_race.specs.Task.{Task};
ghost use Rattle.mp_race.specs.Inside.Work.{IsDone, AreNumbered};
ghost use Rattle.mp_race.specs.Inside.Ordered.{told_of, IsOrdered};

use crate::auditing::{MAX_WORKERS, Next, is_in_turn};
use crate::fault::RaceFault;
use crate::told::{Done, Told};
use mp_history::{Entry, PoolName};
use mp_memory::{Memory, NoMemory};
use mp_mempool::Pass;

/// The entries of a history, and the record of each.
#[derive(Drop)]
pub struct Ordered {
    pub entries: Vec<Entry, Memory>,
    pub told: Vec<Told, Memory>,
    pub next: Next,
}

// The record of the change.
fn told_of(done: &Done) -> Result<Told, NoMemory>
    ensures { IfOk result (λ told. told ≡ told_of done.now) }
{
    Ok(Told {
        place: done.receipt.place,
        worker: done.receipt.entry.caller,
        task: done.task,
        reply: done.receipt.entry.reply.copy()?,
    })
}

// Whether the command is dealt to the worker, comes after its last, and is one of `tasks`.
fn is_next(next: &Next, workers: u32, tasks: u64, told: &Told) -> bool
    requires some { 1 ≤ workers }
    requires most { workers ≤ 64 }
    ensures dealt { result ≡ true → told.now.task % workers ≡ told.now.worker }
    ensures worker { result ≡ true → told.now.worker < 64 }
    ensures turn { result ≡ true → get_or next.now told.now.worker 0 ≤ told.now.task }
    ensures within { result ≡ true → told.now.task < tasks }
{
    if told.task % u64::from(workers) != u64::from(told.worker) {
        return false;
    }
    told.task < tasks && is_in_turn(next, told)
}

impl Ordered {
    ghost use Rattle.std.specs.Prelude.{◌≡◌, ◌≤◌, [], List, OnOk, IfErr};
    ghost use Rattle.mp_history.specs.Log.{Log};
    ghost use Rattle.mp_race.specs.Task.{Task};
    ghost use Rattle.mp_race.specs.RaceFault.{IsOfRace};
    ghost use Rattle.mp_race.specs.History.{first_next};
    ghost use Rattle.mp_race.specs.Inside.Work.{IsDone};
    ghost use Rattle.mp_race.specs.Inside.Ordered.{IsOrdered};

    // No entries.
    fn new(memory: Memory) -> Ordered
        ensures entries { result.entries.items ≡ [] }
        ensures told { result.told.items ≡ [] }
        ensures next { result.next ≡ first_next }
    {
        Ordered {
            entries: Vec::new(memory),
            told: Vec::new(memory),
            next: [0; MAX_WORKERS],
        }
    }

    // Adds the change as the last one, if it has the next place and its command is one of `tasks` and the next of its worker.
    fn add(&mut self, workers: u32, tasks: u64, done: Done) -> Result<(), RaceFault>
        requires some { 1 ≤ workers }
        requires most { workers ≤ 64 }
        ensures ordered { (ts : List Task) (log : Log) → IsDone ts log done
            → IsOrdered workers ts log self.old → OnOk result (IsOrdered workers ts log self.new) }
        ensures fault { IfErr result IsOfRace }
    {
        let place = self.entries.len() as u64;
        if done.receipt.place != place {
            return Err(RaceFault::MissingEntry(done.receipt.place.min(place)));
        }
        let told = told_of(&done)?;
        if !is_next(&self.next, workers, tasks, &told) {
            return Err(RaceFault::MissingEntry(place));
        }
        self.next[told.worker as usize] = told.task + 1;
        self.told.push(told)?;
        self.entries.push(done.receipt.entry)?;
        Ok(())
    }
}

/// The changes in the order of their places, each of one of `tasks` commands.
///
/// # Errors
/// `MissingEntry` with the least place below their number that has no receipt or two, or whose command isn't its worker's next.
/// `NoMemory`.
pub fn order_done(
    memory: Memory,
    workers: u32,
    tasks: u64,
    mut done: Vec<Done, Memory>,
) -> Result<Ordered, RaceFault>
    requires some { 1 ≤ workers }
    requires most { workers ≤ 64 }
    ensures history { (ts : List Task) (log : Log) → All (IsDone ts log) done.items
        → IfOk result (IsOrdered workers ts log) }
    ensures fault { IfErr result IsOfRace }
{
    done.sort_by_key(|change| change.receipt.place)?;
    let mut ordered = Ordered::new(memory);
    for change in done {
        ordered.add(workers, tasks, change)?;
    }
    Ok(ordered)
}

// The place of the caller's last entry.
fn last_of(entries: &[Entry], caller: u32) -> Option<u64>
    ensures { result ≡ last_of caller entries.now }
{
    let mut last = None;
    for (place, entry) in entries.iter().enumerate() {
        if entry.caller == caller {
            last = Some(place as u64);
        }
    }
    last
}

// Whether the pass is that of the caller with this number, and knows its last entry.
fn knows<N: PoolName>(pass: &Pass<N>, number: usize, entries: &[Entry]) -> bool
    ensures number { result ≡ true → pass.now.caller ≡ number }
    ensures last { result ≡ true → last_of pass.now.caller entries.now ≡ pass.now.last }
{
    pass.caller() as usize == number && last_of(entries, pass.caller()) == pass.last_place()
}

/// Whether the passes are those of the callers 0, 1, .. in order, and each knows its caller's last entry.
pub fn all_know<N: PoolName>(passes: &[Pass<N>], entries: &[Entry]) -> bool
    ensures { result ≡ true → AreNumbered entries.now 0 passes.now }
{
    for (number, pass) in passes.iter().enumerate() {
        if !knows(pass, number, entries) {
            return false;
        }
    }
    true
}
