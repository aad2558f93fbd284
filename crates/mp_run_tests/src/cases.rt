//! Races over texts.
ghost use Rattle.std.specs.Prelude.{◌≡◌, ◌≤◌};
ghost use Rattle.mp_history.specs.PoolName.{head_of};
ghost use Rattle.mp_signatures.specs.Scheme.{accepted_by};

use mp_history::{NewName, PoolName};
use mp_memory::Memory;
use mp_race::{
    Gate, RaceFault, Raced, RecordedHistory, Report, Scenario, audit_history, race, text_if_legal,
};
use mp_signatures::{Scheme, Signatures};
use std::marker::Brand;
use std::sync::Wait;
use std::thread::Threads;

/// The numbers of a report after that of its workers.
pub type Numbers = [u64; 7];

/// How a race ends: with the numbers of its report; or with the number of a fault and its line, its place or 0. If the records of
/// the race don't fit the counts, these are 0 and 1.
pub type Ended = Result<Numbers, (u64, u64)>;

/// The fault's number, and its line, its place or 0.
pub fn number_of(fault: &RaceFault) -> (u64, u64) {
    match fault {
        RaceFault::BadLine(line) => (fault.number(), *line),
        RaceFault::MissingEntry(place) => (fault.number(), *place),
        _ => (fault.number(), 0),
    }
}

fn numbers_of(report: &Report) -> Numbers {
    [
        report.accepted,
        report.refused,
        report.removes,
        report.syncs,
        report.reads,
        report.entries,
        report.last,
    ]
}

// The records of the race, written and read again, are as many entries and refusals as are counted, and their audits find no
// fault.
fn retell(
    memory: Memory,
    scenario: &Scenario,
    signatures: &Signatures,
    raced: &Raced,
) -> Result<bool, RaceFault>
    requires some { 1 ≤ raced.now.history.workers }
    requires most { raced.now.history.workers ≤ 64 }
{
    let text = text_if_legal(memory, scenario, signatures, &raced.history)?;
    let history = RecordedHistory::read(memory, &mut text.as_slice())?;
    audit_history(memory, scenario, signatures, &history)?;
    Ok(
        history.told.len() as u64 == raced.report.entries
            && raced.refused.len() as u64 == raced.report.refused,
    )
}

// The numbers of the report, if the records of the race fit it.
fn numbers_told(
    memory: Memory,
    scenario: &Scenario,
    signatures: &Signatures,
    raced: &Raced,
) -> Ended
    requires some { 1 ≤ raced.now.history.workers }
    requires most { raced.now.history.workers ≤ 64 }
{
    match retell(memory, scenario, signatures, raced) {
        Ok(true) => Ok(numbers_of(&raced.report)),
        Ok(false) => Err((0, 1)),
        Err(fault) => Err(number_of(&fault)),
    }
}

// A race on a pool under the name.
fn race_named<N: PoolName + Send + Sync, R: Threads + Wait + Sync, G: Gate>(
    rt: &R,
    memory: Memory,
    name: NewName,
    scenario: &Scenario,
    workers: u32,
    signatures: &Signatures,
    gate: &G,
) -> Ended
    requires name { name ≡ head_of N.book N.root }
    requires number { workers ≡ N.callers }
    requires accepts { N.accepts ≡ accepted_by signatures.now }
    requires some { 1 ≤ workers }
    requires most { workers ≤ 64 }
{
    match race::<N, R, G>(rt, memory, name, scenario, workers, signatures, gate) {
        Ok(raced) => numbers_told(memory, scenario, signatures, &raced),
        Err(fault) => Err(number_of(&fault)),
    }
}

/// A race of the scenario, on a pool of its own that accepts these signatures.
pub fn race_new<R: Threads + Wait + Sync, G: Gate>(
    rt: &R,
    memory: Memory,
    scenario: &Scenario,
    workers: u32,
    signatures: &Signatures,
    gate: &G,
) -> Ended
    requires some { 1 ≤ workers }
    requires most { workers ≤ 64 }
{
    let name = NewName::new();
    race_named::<Brand, R, G>(rt, memory, name, scenario, workers, signatures, gate)
}

/// A race of the scenario with this text, by 1 to 64 workers.
pub fn race_text<R: Threads + Wait + Sync, G: Gate>(
    rt: &R,
    memory: Memory,
    mut text: &[u8],
    workers: u32,
    gate: &G,
) -> Ended {
    if workers < 1 || workers > 64 {
        return Err((0, 0));
    }
    let Ok(signatures) = Signatures::new(memory, Scheme::Trial) else {
        return Err(number_of(&RaceFault::NoMemory));
    };
    match Scenario::read(memory, &mut text) {
        Ok(scenario) => race_new(rt, memory, &scenario, workers, &signatures, gate),
        Err(fault) => Err(number_of(&fault)),
    }
}
