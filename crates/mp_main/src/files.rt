//! The files that a race writes.

ghost use Rattle.std.specs.Prelude.{◌≡◌, ◌≤◌, IfErr};
ghost use Rattle.std.specs.Process.{exit_status};
ghost use Rattle.mp_mempool.specs.Opening.{fresh_log};
ghost use Rattle.mp_signatures.specs.Scheme.{accepted_by};
ghost use Rattle.mp_race.specs.History.{IsHistory};
ghost use Rattle.mp_race.specs.HistoryText.{history_text};

use crate::ending::{end_fault, end_unwritten};
use mp_memory::Memory;
use mp_race::{RecordedHistory, Scenario, text_if_legal};
use mp_signatures::Signatures;
use std::fs;
use std::process::ExitCode;

/// Writes the bytes to the file, and replaces its content.
pub fn write_file(rt: &HostRuntime, path: &str, bytes: &[u8]) -> Result<(), ExitCode>
    ensures { IfErr result (λ code. exit_status code ≡ 1) }
{
    match fs::write(rt, path, bytes) {
        Ok(()) => Ok(()),
        Err(error) => Err(end_unwritten(rt, path, error)),
    }
}

// Writes the text of a legal history.
fn write_legal(
    rt: &HostRuntime,
    path: &str,
    scenario: &Scenario,
    signatures: &Signatures,
    history: &RecordedHistory,
    text: &[u8],
) -> Result<(), ExitCode>
    requires text { text.now ≡ history_text history.now.workers history.now.told.items }
    requires legal { IsHistory (accepted_by signatures.now)
        (fresh_log scenario.now.config scenario.now.ledger).opening history.now.workers
        scenario.now.tasks history.now.told.items }
    ensures { IfErr result (λ code. exit_status code ≡ 1) }
{
    let _scenario = scenario;
    let _signatures = signatures;
    let _history = history;
    write_file(rt, path, text)
}

/// Writes the history if its audit finds it legal.
pub fn write_history(
    rt: &HostRuntime,
    memory: Memory,
    scenario: &Scenario,
    signatures: &Signatures,
    history: &RecordedHistory,
    path: &str,
) -> Result<(), ExitCode>
    requires some { 1 ≤ history.now.workers }
    requires most { history.now.workers ≤ 64 }
    ensures { IfErr result (λ code. exit_status code ≡ 1) }
{
    match text_if_legal(memory, scenario, signatures, history) {
        Ok(text) => write_legal(rt, path, scenario, signatures, history, &text),
        Err(fault) => Err(end_fault(rt, fault)),
    }
}
