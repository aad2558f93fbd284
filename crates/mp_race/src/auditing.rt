//! The audit of a recorded history.

ghost use Rattle.std.specs.Prelude.{◌≡◌, ◌≤◌, ◌<◌, true, false, length, take, get_or, All, IfOk, IfErr, IfSome, IfNone, OnOk};
ghost use Rattle.mp_history.specs.Log.{IsLegal};
ghost use Rattle.mp_mempool.specs.Opening.{fresh_log};
ghost use Rattle.mp_signatures.specs.Scheme.{accepted_by};
ghost use Rattle.mp_race.specs.History.{IsEntryOf, AreEntriesOf, IsHistory, IsUndealt, IsLate, IsFaultOfHistory};
ghost use Rattle.mp_race.specs.HistoryText.{history_text};
ghost use Rattle.mp_race.specs.Inside.Task.{tasks_of};
ghost use Rattle.mp_race.specs.Inside.Auditing.{IsUnfit, EndsAt, IsOfReplay};

use crate::fault::RaceFault;
use crate::history::RecordedHistory;
use crate::scenario::Scenario;
use crate::task::Task;
use crate::told::Told;
use mp_history::{AuditFault, Entry, audit};
use mp_memory::{Memory, NoMemory};
use mp_signatures::Signatures;

/// No race has more workers.
pub const MAX_WORKERS: usize = 64;

/// For each worker, the least command that may come next.
pub type Next = [u64; MAX_WORKERS];

// The entry of the record, if the command is a change that is dealt to the worker.
fn entry_of(tasks: &[Task], workers: u32, told: &Told) -> Result<Option<Entry>, NoMemory>
    requires { 1 ≤ workers }
    ensures entry { IfOk result (λ found.
        IfSome found (IsEntryOf workers (tasks_of tasks.now) told.now)) }
    ensures none { IfOk result (λ found. IfNone found
        (IsUndealt workers (tasks_of tasks.now) told.now)) }
{
    if told.task % u64::from(workers) != u64::from(told.worker) {
        return Ok(None);
    }
    match tasks.get(told.task as usize) {
        Some(Task::Change(command)) => {
            let command = command.share()?;
            let reply = told.reply.copy()?;
            Ok(Some(Entry {
                caller: told.worker,
                command,
                reply,
            }))
        }
        _ => Ok(None),
    }
}

/// Whether the command comes after its worker's last.
pub fn is_in_turn(next: &Next, told: &Told) -> bool
    requires { told.now.worker < 64 }
    ensures turn { result ≡ true → get_or next.now told.now.worker 0 ≤ told.now.task }
    ensures late { result ≡ false → IsLate next.now told.now }
{
    next[told.worker as usize] <= told.task
}

// The entry of the record at this place, if it is one there.
fn entry_at(
    tasks: &[Task],
    workers: u32,
    next: &Next,
    place: u64,
    told: &Told,
) -> Result<Entry, RaceFault>
    requires some { 1 ≤ workers }
    requires most { workers ≤ 64 }
    ensures entry { IfOk result (IsEntryOf workers (tasks_of tasks.now) told.now) }
    ensures place { OnOk result (told.now.place ≡ place) }
    ensures worker { OnOk result (told.now.worker < 64) }
    ensures within { OnOk result (told.now.task < length tasks.now) }
    ensures turn { OnOk result (get_or next.now told.now.worker 0 ≤ told.now.task) }
    ensures unfit { IfErr result (IsUnfit workers (tasks_of tasks.now) next.now place told.now) }
{
    if told.place != place {
        return Err(RaceFault::MissingEntry(place));
    }
    match entry_of(tasks, workers, told) {
        Ok(Some(entry)) => {
            if !is_in_turn(next, told) {
                return Err(RaceFault::Audit(AuditFault::StrangeCaller(place as usize)));
            }
            Ok(entry)
        }
        Ok(None) => Err(RaceFault::Audit(AuditFault::StrangeCaller(place as usize))),
        Err(NoMemory) => Err(RaceFault::NoMemory),
    }
}

// The entries of a history, up to the first record that is none.
#[derive(Drop)]
struct Fitting {
    entries: Vec<Entry, Memory>,
    // Why the next record is no entry.
    fault: Option<RaceFault>,
}

// The entries of the records, up to the first place without one.
fn entries_of(
    memory: Memory,
    tasks: &[Task],
    history: &RecordedHistory,
) -> Result<Fitting, NoMemory>
    requires some { 1 ≤ history.now.workers }
    requires most { history.now.workers ≤ 64 }
    ensures entries { IfOk result (λ f. AreEntriesOf history.now.workers (tasks_of tasks.now)
        (take (length f.entries.items) history.now.told.items) f.entries.items) }
    ensures all { IfOk result (λ f. IfNone f.fault
        (length f.entries.items ≡ length history.now.told.items)) }
    ensures ends { IfOk result (λ f. IfSome f.fault (EndsAt history.now.workers
        (tasks_of tasks.now) history.now.told.items (length f.entries.items))) }
{
    let mut entries = Vec::with_capacity(memory, history.told.len())?;
    let mut next = [0; MAX_WORKERS];
    for (place, told) in history.told.as_slice().iter().enumerate() {
        match entry_at(tasks, history.workers, &next, place as u64, told) {
            Ok(entry) => {
                next[told.worker as usize] = told.task + 1;
                entries.push(entry)?;
            }
            Err(RaceFault::NoMemory) => return Err(NoMemory),
            Err(fault) => {
                return Ok(Fitting {
                    entries,
                    fault: Some(fault),
                });
            }
        }
    }
    Ok(Fitting {
        entries,
        fault: None,
    })
}

// Replays the entries, each of which is a worker's.
fn replay(
    memory: Memory,
    scenario: &Scenario,
    signatures: &Signatures,
    workers: u32,
    entries: &[Entry],
) -> Result<(), RaceFault>
    requires { All (λ e. e.caller < workers) entries.now }
    ensures legal { OnOk result (IsLegal (accepted_by signatures.now) workers
        (fresh_log scenario.now.config scenario.now.ledger).opening entries.now) }
    ensures fault { IfErr result (IsOfReplay (accepted_by signatures.now) workers
        (fresh_log scenario.now.config scenario.now.ledger).opening entries.now) }
{
    let config = mp_seqpool::Config {
        limit: scenario.config.limit,
        last: scenario.config.last,
    };
    match audit(
        memory,
        config,
        &scenario.ledger,
        workers,
        entries,
        signatures,
    ) {
        Ok(_) => Ok(()),
        Err(AuditFault::NoMemory) => Err(RaceFault::NoMemory),
        Err(AuditFault::WrongReply(place)) => Err(RaceFault::Audit(AuditFault::WrongReply(place))),
        Err(AuditFault::StrangeCaller(_)) => unreachable!(),
    }
}

/// Whether the history is one of a race over the scenario. At each place is an entry of a change of the scenario, by the worker
/// to whom it is dealt, after its worker's previous command. Its reply is the sequential pool's after the entries before it.
///
/// # Errors
/// The fault at the first place where that isn't so:
///
/// - `MissingEntry`: the record has another place.
/// - `Audit(StrangeCaller)`: the command isn't a change that is dealt to the worker and comes after its last.
/// - `Audit(WrongReply)`: the pool replies something else.
///
/// `NoMemory` may replace any answer.
pub fn audit_history(
    memory: Memory,
    scenario: &Scenario,
    signatures: &Signatures,
    history: &RecordedHistory,
) -> Result<(), RaceFault>
    requires some { 1 ≤ history.now.workers }
    requires most { history.now.workers ≤ 64 }
    ensures history { OnOk result (IsHistory (accepted_by signatures.now)
        (fresh_log scenario.now.config scenario.now.ledger).opening history.now.workers
        scenario.now.tasks history.now.told.items) }
    ensures fault { IfErr result (IsFaultOfHistory (accepted_by signatures.now)
        (fresh_log scenario.now.config scenario.now.ledger).opening history.now.workers
        scenario.now.tasks history.now.told.items) }
{
    let Fitting { entries, fault } = entries_of(memory, &scenario.tasks, history)?;
    replay(memory, scenario, signatures, history.workers, &entries)?;
    match fault {
        Some(fault) => Err(fault),
        None => Ok(()),
    }
}

/// The history's text, if its audit finds that it is one of a race over the scenario.
///
/// # Errors
/// Those of `audit_history`.
pub fn text_if_legal(
    memory: Memory,
    scenario: &Scenario,
    signatures: &Signatures,
    history: &RecordedHistory,
) -> Result<Vec<u8, Memory>, RaceFault>
    requires some { 1 ≤ history.now.workers }
    requires most { history.now.workers ≤ 64 }
    ensures text { IfOk result (λ text. text.items
        ≡ history_text history.now.workers history.now.told.items) }
    ensures history { OnOk result (IsHistory (accepted_by signatures.now)
        (fresh_log scenario.now.config scenario.now.ledger).opening history.now.workers
        scenario.now.tasks history.now.told.items) }
    ensures fault { IfErr result (IsFaultOfHistory (accepted_by signatures.now)
        (fresh_log scenario.now.config scenario.now.ledger).opening history.now.workers
        scenario.now.tasks history.now.told.items) }
{
    audit_history(memory, scenario, signatures, history)?;
    Ok(history.to_text(memory)?)
}
