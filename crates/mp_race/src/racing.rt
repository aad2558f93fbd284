//! A race of workers.

ghost use Rattle.std.specs.Prelude.{◌≡◌, ◌<◌, ◌≤◌, true, List, length, All, IfOk, IfErr};
ghost use Rattle.mp_seqpool.specs.Pool.{Pool};
ghost use Rattle.mp_history.specs.Log.{Log, IsLegal, IsLegalLog, state_after};
ghost use Rattle.mp_history.specs.PoolName.{head_of};
ghost use Rattle.mp_mempool.specs.Opening.{fresh_log, fresh_passes};
ghost use Rattle.mp_signatures.specs.Scheme.{accepted_by};
ghost use Rattle.mp_race.specs.Task as told;
ghost use Rattle.mp_race.specs.RaceFault.{IsOfRace};
ghost use Rattle.mp_race.specs.Report.{report_of};
ghost use Rattle.mp_race.specs.Raced.{IsRaced};
ghost use Rattle.mp_race.specs.Inside.Task.{tasks_of};
ghost use Rattle.mp_race.specs.Inside.Work.{IsUnused};
ghost use Rattle.mp_race.specs.Inside.Gathered.{IsBack, AreGathered, IsExplained};

use crate::fault::RaceFault;
use crate::gate::{Gate, Watch, Watched};
use crate::gathering::{Gathered, gather};
use crate::history::RecordedHistory;
use crate::ordering::{Ordered, all_know, order_done};
use crate::refusals::order_refused;
use crate::report::{Report, count_reads, counts_of};
use crate::scenario::Scenario;
use crate::task::Task;
use crate::told::Refused;
use crate::worker::{SharedPool, Work, Worker};
use mp_history::{AuditFault, Entry, Front, NewName, PoolName, audit};
use mp_memory::{Memory, NoMemory};
use mp_mempool::{Mempool, OpenRefusal, Pass, run_all};
use mp_rules::Verifier;
use mp_signatures::Signatures;
use std::sync::{Arc, Wait};
use std::thread::Threads;

// A race's pool, and a pass for each worker.
type Opened<'a, N, G> = (SharedPool<N, Watched<'a, G>>, Vec<Pass<N>, Memory>);

// Each worker does its tasks, in a thread of its own if one can be made.
fn work_all<N: PoolName + Send + Sync, R: Threads + Wait + Sync, V: Verifier + Watch + Send + Sync>(
    rt: &R,
    pool: &SharedPool<N, V>,
    tasks: &[Task],
    workers: u32,
    passes: Vec<Pass<N>, Memory>,
) -> Result<Vec<Result<Worker<N>, NoMemory>, Memory>, NoMemory>
    requires { 1 ≤ workers }
    ensures { (opening : Pool) → All (IsUnused opening) passes.items → IfOk result (λ done.
        All (IsBack N.accepts workers opening (tasks_of tasks.now)) done.items) }
{
    let job = Work {
        pool,
        tasks,
        workers,
    };
    Ok(run_all(rt, &job, passes)?)
}

// Opens the pool of a race.
fn open<'a, N: PoolName, G: Gate>(
    rt: &impl Wait,
    memory: Memory,
    name: NewName,
    scenario: &Scenario,
    workers: u32,
    signatures: &'a Signatures,
    gate: &'a G,
) -> Result<Opened<'a, N, G>, NoMemory>
    requires name { name ≡ head_of N.book N.root }
    requires number { workers ≡ N.callers }
    requires accepts { N.accepts ≡ accepted_by signatures.now }
    requires some { 1 ≤ workers }
    requires most { workers ≤ 64 }
    ensures { IfOk result (λ o. o.1.items
        ≡ fresh_passes workers (fresh_log scenario.now.config scenario.now.ledger)) }
{
    let verifier = Arc::new(memory, Watched { gate, signatures })?;
    match Mempool::open(
        rt,
        memory,
        name,
        scenario.config,
        &scenario.ledger,
        &verifier,
        workers,
    ) {
        Ok((mempool, reader, passes)) => Ok((SharedPool { mempool, reader }, passes)),
        Err(refusal) => match refusal {
            OpenRefusal::NoMemory => Err(NoMemory),
            OpenRefusal::BadCallers => unreachable!(),
            OpenRefusal::BadLimit => unreachable!(),
        },
    }
}

// The front of the first pass, which is legal.
fn first_front<N: PoolName>(passes: &[Pass<N>]) -> Front<N>
    requires { 0 < length passes.now }
    ensures legal { IsLegalLog N.accepts N.callers result }
    ensures same { (log : Log) → All (λ p. p.front ≡ log) passes.now → result ≡ log }
{
    let pass = &passes[0];
    let _version = pass.shown().version();
    pass.front().again()
}

// Opens the pool, lets the workers do their tasks, and collects what they return.
fn run_workers<N: PoolName + Send + Sync, R: Threads + Wait + Sync, G: Gate>(
    rt: &R,
    memory: Memory,
    name: NewName,
    scenario: &Scenario,
    workers: u32,
    signatures: &Signatures,
    gate: &G,
) -> Result<Gathered<N>, NoMemory>
    requires name { name ≡ head_of N.book N.root }
    requires number { workers ≡ N.callers }
    requires accepts { N.accepts ≡ accepted_by signatures.now }
    requires some { 1 ≤ workers }
    requires most { workers ≤ 64 }
    ensures { IfOk result (λ g. g.is_sure ≡ true → AreGathered N.accepts N.callers
        (fresh_log scenario.now.config scenario.now.ledger).opening scenario.now.tasks
        g.front g.passes.items g.done.items g.refused.items) }
{
    let (pool, passes) = open(rt, memory, name, scenario, workers, signatures, gate)?;
    let front = first_front(&passes);
    let tasks = &scenario.tasks;
    let done = work_all(rt, &pool, tasks, workers, passes)?;
    gather(memory, front, done)
}

// The history that explains what the workers return, and its records.
fn explain<N: PoolName>(
    memory: Memory,
    tasks: &[Task],
    workers: u32,
    gathered: Gathered<N>,
) -> Result<(Ordered, Vec<Refused, Memory>), RaceFault>
    requires number { workers ≡ N.callers }
    requires some { 1 ≤ workers }
    requires most { workers ≤ 64 }
    ensures history { (opening : Pool) (ts : List told.Task) → (gathered.is_sure ≡ true
        → AreGathered N.accepts N.callers opening ts
        gathered.front gathered.passes.items gathered.done.items gathered.refused.items)
        → IfOk result (λ found. IsExplained N.accepts opening workers ts
        found.0 found.1.items) }
    ensures fault { IfErr result IsOfRace }
{
    let Gathered {
        front,
        passes,
        done,
        refused,
        is_sure,
    } = gathered;
    let ordered = order_done(memory, workers, tasks.len() as u64, done)?;
    let number = ordered.entries.len() as u64;
    if !is_sure
        || number < front.len()
        || passes.len() != workers as usize
        || !all_know(&passes, &ordered.entries)
    {
        return Err(RaceFault::MissingEntry(number));
    }
    Ok((ordered, refused))
}

// Audits the history, and returns the last ticket after it.
fn audit_last(
    memory: Memory,
    scenario: &Scenario,
    signatures: &Signatures,
    workers: u32,
    entries: &[Entry],
) -> Result<u64, RaceFault>
    requires { IsLegal (accepted_by signatures.now) workers
        (fresh_log scenario.now.config scenario.now.ledger).opening entries.now }
    ensures last { (log : Log) → log.entries ≡ entries.now
        → log.opening ≡ (fresh_log scenario.now.config scenario.now.ledger).opening
        → IfOk result (λ last. last ≡ (state_after (accepted_by signatures.now) log).last) }
    ensures fault { IfErr result IsOfRace }
{
    let config = mp_seqpool::Config {
        limit: scenario.config.limit,
        last: scenario.config.last,
    };
    match audit(
        memory,
        config,
        &scenario.ledger,
        workers,
        entries,
        signatures,
    ) {
        Ok(pool) => Ok(pool.last_ticket()),
        Err(AuditFault::NoMemory) => Err(RaceFault::NoMemory),
        Err(AuditFault::WrongReply(_)) => unreachable!(),
        Err(AuditFault::StrangeCaller(_)) => unreachable!(),
    }
}

// The report on a history.
fn report_on(
    memory: Memory,
    scenario: &Scenario,
    signatures: &Signatures,
    workers: u32,
    entries: &[Entry],
) -> Result<Report, RaceFault>
    requires { IsLegal (accepted_by signatures.now) workers
        (fresh_log scenario.now.config scenario.now.ledger).opening entries.now }
    ensures report { (log : Log) → log.entries ≡ entries.now
        → log.opening ≡ (fresh_log scenario.now.config scenario.now.ledger).opening
        → IfOk result (λ r. r
        ≡ report_of (accepted_by signatures.now) workers scenario.now.tasks log) }
    ensures fault { IfErr result IsOfRace }
{
    let last = audit_last(memory, scenario, signatures, workers, entries)?;
    let counts = counts_of(entries);
    let reads = count_reads(&scenario.tasks);
    let number = entries.len() as u64;
    let tasks = scenario.tasks.len() as u64;
    Ok(Report {
        workers,
        accepted: counts.accepted,
        refused: tasks.saturating_sub(reads).saturating_sub(number),
        removes: counts.removes,
        syncs: counts.syncs,
        reads,
        entries: number,
        last,
    })
}

/// The result of a race.
#[derive(Drop)]
pub struct Raced {
    pub report: Report,
    /// The records of the entries, in the order of their places.
    pub history: RecordedHistory,
    /// The records of the refusals, in the order of their commands.
    pub refused: Vec<Refused, Memory>,
}

/// Runs the scenario with `workers` workers, each in a thread of its own if one can be made, on one pool under the name. Returns
/// the report, the history and the refusals. Task j, from 0, goes to worker j mod `workers`.
///
/// One legal history explains every answer to a change. Each worker's entries in it are the changes dealt to it, each once and in
/// order, without those that are refused. The sequential pool refuses each of those after a prefix of the history that has
/// exactly the worker's entries before it.
///
/// The history records its entries one by one. The refusals are those of all other changes, each once, with the number of entries
/// after which the sequential pool refuses it. What snapshots show isn't recorded. The gate is called before each task and each
/// check of a signature.
///
/// # Errors
/// `NoMemory`, after all workers have ended, if an allocation of a worker failed. `MissingEntry` with the least place, below the
/// number of receipts, that has no receipt or two, or whose command isn't its worker's next. `MissingEntry` with that number, if
/// the pool has another entry, or if the refusals aren't those of the changes without an entry. Neither `MissingEntry` is
/// expected.
pub fn race<N: PoolName + Send + Sync, R: Threads + Wait + Sync, G: Gate>(
    rt: &R,
    memory: Memory,
    name: NewName,
    scenario: &Scenario,
    workers: u32,
    signatures: &Signatures,
    gate: &G,
) -> Result<Raced, RaceFault>
    requires name { name ≡ head_of N.book N.root }
    requires number { workers ≡ N.callers }
    requires accepts { N.accepts ≡ accepted_by signatures.now }
    requires some { 1 ≤ workers }
    requires most { workers ≤ 64 }
    ensures raced { IfOk result (IsRaced (accepted_by signatures.now) workers scenario.now) }
    ensures workers { IfOk result (λ raced. raced.history.workers ≡ workers) }
    ensures fault { IfErr result IsOfRace }
{
    let gathered = run_workers::<N, R, G>(rt, memory, name, scenario, workers, signatures, gate)?;
    let (ordered, refused) = explain(memory, &scenario.tasks, workers, gathered)?;
    let report = report_on(memory, scenario, signatures, workers, &ordered.entries)?;
    let Ordered { told, .. } = ordered;
    let tasks = scenario.tasks.len();
    let refused = order_refused(memory, tasks, &told, report.refused, refused)?;
    Ok(Raced {
        report,
        history: RecordedHistory { workers, told },
        refused,
    })
}
