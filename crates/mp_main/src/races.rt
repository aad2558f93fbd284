//! `keltuvar race`: the report, the history and the picture.

ghost use Rattle.std.specs.Prelude.{◌≡◌, ◌≤◌, IfErr};
ghost use Rattle.std.specs.Process.{exit_status};
ghost use Rattle.mp_signatures.specs.Scheme.{accepted_by};
ghost use Rattle.mp_main.specs.Status.{EndsAs};
ghost use Rattle.mp_main.specs.Told.{IsReported, RaceEnds};

use crate::command_line::{Input, SchemeName, Wishes};
use crate::ending::end_fault;
use crate::files::write_history;
use crate::pictures::write_picture;
use crate::scenarios::scenario_of;
use crate::schemes::signatures_of;
use crate::slow::Slow;
use mp_history::NewName;
use mp_memory::Memory;
use mp_race::{RaceFault, Raced, Scenario, race};
use mp_signatures::Signatures;
use std::io::Write;
use std::marker::Brand;
use std::process::ExitCode;
use std::rt::Clock;
use std::sync::Wait;
use std::thread::Threads;

/// Lets `workers` workers race over a scenario. Writes the report to standard output, and what else is asked for to files.
pub fn race_scenario<R: Threads + Wait + Clock + Sync>(
    rt: &HostRuntime,
    threads: &R,
    input: Input<'_>,
    workers: u32,
    signatures: SchemeName,
    wishes: Wishes<'_>,
) -> ExitCode
    requires some { 1 ≤ workers }
    requires most { workers ≤ 64 }
{
    let Ok(memory) = Memory::new(rt.alloc()) else {
        return end_fault(rt, RaceFault::NoMemory);
    };
    let signatures = match signatures_of(rt, memory, signatures) {
        Ok(signatures) => signatures,
        Err(code) => return code,
    };
    let mut writer = rt.stdout();
    match scenario_of(rt, memory, input) {
        Ok(scenario) => race_over(
            rt,
            threads,
            memory,
            &scenario,
            workers,
            &signatures,
            wishes,
            &mut writer,
        ),
        Err(code) => code,
    }
}

/// Lets `workers` workers race over the scenario. Each check of a signature takes as long as is asked for. Writes the report to
/// the writer, and what else is asked for to files.
pub fn race_over<R: Threads + Wait + Clock + Sync, W: Write>(
    rt: &HostRuntime,
    threads: &R,
    memory: Memory,
    scenario: &Scenario,
    workers: u32,
    signatures: &Signatures,
    wishes: Wishes<'_>,
    writer: &mut W,
) -> ExitCode
    requires some { 1 ≤ workers }
    requires most { workers ≤ 64 }
    ensures { EndsAs (RaceEnds (accepted_by signatures.now) workers scenario.now
        (W.contents writer.old) (W.contents writer.new)) (exit_status result) }
{
    let gate = Slow {
        clock: threads,
        micros: wishes.verify_us,
    };
    race_slowly(
        rt, threads, memory, scenario, workers, signatures, wishes, &gate, writer,
    )
}

// The same with a pool of its own, and with this gate for the checks of signatures.
fn race_slowly<R: Threads + Wait + Clock + Sync, W: Write>(
    rt: &HostRuntime,
    threads: &R,
    memory: Memory,
    scenario: &Scenario,
    workers: u32,
    signatures: &Signatures,
    wishes: Wishes<'_>,
    gate: &Slow<'_, R>,
    writer: &mut W,
) -> ExitCode
    requires some { 1 ≤ workers }
    requires most { workers ≤ 64 }
    requires slow { gate.now.micros ≡ wishes.verify_us }
    ensures { EndsAs (RaceEnds (accepted_by signatures.now) workers scenario.now
        (W.contents writer.old) (W.contents writer.new)) (exit_status result) }
{
    let name = NewName::new();
    match race::<Brand, R, Slow<'_, R>>(
        threads, memory, name, scenario, workers, signatures, gate,
    ) {
        Ok(raced) => tell(rt, memory, scenario, signatures, wishes, &raced, writer),
        Err(fault) => end_fault(rt, fault),
    }
}

// Writes what is asked for, then the report.
fn tell<W: Write>(
    rt: &HostRuntime,
    memory: Memory,
    scenario: &Scenario,
    signatures: &Signatures,
    wishes: Wishes<'_>,
    raced: &Raced,
    writer: &mut W,
) -> ExitCode
    requires some { 1 ≤ raced.now.history.workers }
    requires most { raced.now.history.workers ≤ 64 }
    ensures { EndsAs (IsReported raced.now.report
        (W.contents writer.old) (W.contents writer.new)) (exit_status result) }
{
    if let Err(code) = write_wishes(rt, memory, scenario, signatures, wishes, raced) {
        return code;
    }
    match raced.report.write(memory, writer) {
        Ok(()) => ExitCode::SUCCESS,
        Err(fault) => end_fault(rt, fault),
    }
}

fn write_wishes(
    rt: &HostRuntime,
    memory: Memory,
    scenario: &Scenario,
    signatures: &Signatures,
    wishes: Wishes<'_>,
    raced: &Raced,
) -> Result<(), ExitCode>
    requires some { 1 ≤ raced.now.history.workers }
    requires most { raced.now.history.workers ≤ 64 }
    ensures { IfErr result (λ code. exit_status code ≡ 1) }
{
    if let Some(path) = wishes.history {
        write_history(rt, memory, scenario, signatures, &raced.history, path)?;
    }
    if let Some(path) = wishes.picture {
        write_picture(rt, memory, raced, path)?;
    }
    Ok(())
}
