//! `keltuvar audit`: whether a history is one of a race over a scenario.

ghost use Rattle.std.specs.Prelude.{◌≡◌, ◌≤◌, IfSome};
ghost use Rattle.std.specs.Process.{exit_status};
ghost use Rattle.mp_signatures.specs.Scheme.{accepted_by};
ghost use Rattle.mp_main.specs.Status.{EndsAs};
ghost use Rattle.mp_main.specs.Legal.{IsAudited};

use crate::command_line::{Input, SchemeName};
use crate::ending::{end_audit, end_bad_history, end_fault, end_unread};
use crate::scenarios::scenario_of;
use crate::schemes::signatures_of;
use mp_memory::Memory;
use mp_race::{RaceFault, RecordedHistory, Scenario, audit_history};
use mp_signatures::Signatures;
use std::fs::File;
use std::io::{Read, Write};
use std::process::ExitCode;

/// Audits the history that the reader gives, and writes whether it is legal.
pub fn audit_over<R: Read, W: Write>(
    rt: &HostRuntime,
    memory: Memory,
    scenario: &Scenario,
    signatures: &Signatures,
    reader: &mut R,
    writer: &mut W,
) -> ExitCode
    ensures { IfSome (R.remaining reader.old) (λ bytes. EndsAs
        (IsAudited (accepted_by signatures.now) scenario.now bytes
        (W.contents writer.old) (W.contents writer.new))
        (exit_status result)) }
{
    match RecordedHistory::read(memory, reader) {
        Ok(history) => end_audit(
            rt,
            audit_history(memory, scenario, signatures, &history),
            writer,
        ),
        Err(fault) => end_bad_history(rt, fault),
    }
}

/// Reads the scenario and the history from these files, and writes whether the history is legal.
pub fn audit_files(
    rt: &HostRuntime,
    scenario: &str,
    history: &str,
    signatures: SchemeName,
    explains: bool,
) -> ExitCode {
    let Ok(memory) = Memory::new(rt.alloc()) else {
        return end_fault(rt, RaceFault::NoMemory);
    };
    match signatures_of(rt, memory, signatures) {
        Ok(signatures) => {
            let input = Input {
                file: Some(scenario),
                explains,
            };
            audit_input(rt, memory, &signatures, input, history)
        }
        Err(code) => code,
    }
}

fn audit_input(
    rt: &HostRuntime,
    memory: Memory,
    signatures: &Signatures,
    input: Input<'_>,
    path: &str,
) -> ExitCode {
    match scenario_of(rt, memory, input) {
        Ok(scenario) => audit_file(rt, memory, &scenario, signatures, path),
        Err(code) => code,
    }
}

fn audit_file(
    rt: &HostRuntime,
    memory: Memory,
    scenario: &Scenario,
    signatures: &Signatures,
    path: &str,
) -> ExitCode {
    let mut writer = rt.stdout();
    match File::open(rt, path) {
        Ok(mut history) => audit_over(rt, memory, scenario, signatures, &mut history, &mut writer),
        Err(error) => end_unread(rt, path, error),
    }
}
