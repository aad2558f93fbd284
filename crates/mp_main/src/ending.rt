//! How the program ends: what it writes to standard error, and its exit status.

ghost use Rattle.std.specs.Prelude.{◌≡◌, ◌≢◌, ◌≤◌, if◌then◌else◌, is_ok};
ghost use Rattle.std.specs.List.{list_all};
ghost use Rattle.std.specs.Process.{exit_status};
ghost use Rattle.std.specs.IoError.{error_kind};
ghost use Rattle.std.specs.declared.io.ErrorKind.TheVariants as kinds;
ghost use Rattle.clap.specs.Words.{kind_of};
ghost use Rattle.mp_main.specs.Status.{status_of, status_of_all, EndsAs};
ghost use Rattle.mp_main.specs.Legal.{IsSaid};
ghost use Rattle.mp_main.specs.Replay.{IsReplaySaid};

use clap::Error;
use clap::error::ErrorKind;
use mp_clients::{Finished, Service};
use mp_history::{AuditFault, PoolName};
use mp_names::Reason;
use mp_race::RaceFault;
use mp_serve::Device;
use mp_session::RunStop;
use mp_text::{WriteFault, write_all};
use std::process::ExitCode;
use std::{fmt, io};

const REFUSED: u8 = 2;

const LEGAL: &[u8] = b"audit legal\n";

/// After a run or a race that ends with a fault: 1, and the fault's line.
pub fn end_fault<F: fmt::Display + Drop>(rt: &HostRuntime, fault: F) -> ExitCode
    ensures { exit_status result ≡ 1 }
{
    let _ = rt.eprintln(fault);
    ExitCode::FAILURE
}

// Says what is wrong with the line, if that was asked for.
fn explain(rt: &HostRuntime, explains: bool, bad_line: Option<(u64, Reason<'_>)>) {
    if let (true, Some((number, reason))) = (explains, bad_line) {
        let _ = rt.eprintln(format_args!("bad line {number}: {reason}"));
    }
}

/// After the answers to a text: 0, or 1 and the fault's line. With `explains`, a second line says what is wrong with a bad line.
pub fn end_answers(rt: &HostRuntime, explains: bool, ended: Result<(), RunStop<'_>>) -> ExitCode
    ensures { exit_status result ≡ status_of ended.entry }
{
    match ended {
        Ok(()) => ExitCode::SUCCESS,
        Err(stop) => {
            let _ = rt.eprintln(stop.to_fault());
            explain(rt, explains, stop.bad_line());
            ExitCode::FAILURE
        }
    }
}

/// After a race that can't begin because of its text: 1, and the fault's line. With `explains`, a second line says what is wrong
/// with a bad line.
pub fn end_bad_line(rt: &HostRuntime, explains: bool, stop: mp_race::RaceStop<'_>) -> ExitCode
    ensures { exit_status result ≡ 1 }
{
    let _ = rt.eprintln(stop.to_fault());
    explain(rt, explains, stop.bad_line());
    ExitCode::FAILURE
}

/// After a word of the command line that is no text: 2, or 1 if an allocation failed.
pub fn end_unworded(rt: &HostRuntime, error: io::Error) -> ExitCode
    ensures refused { error_kind error ≢ kinds.OutOfMemory → exit_status result ≡ 2 }
    ensures memory { error_kind error ≡ kinds.OutOfMemory → exit_status result ≡ 1 }
{
    let _ = rt.eprintln(format_args!("keltuvar: the command line can't be read: {error}"));
    match error.kind() {
        io::ErrorKind::OutOfMemory => ExitCode::FAILURE,
        _ => ExitCode::from(REFUSED),
    }
}

/// If `name` can't be read: 1.
pub fn end_unread(rt: &HostRuntime, name: &str, error: io::Error) -> ExitCode
    ensures { exit_status result ≡ 1 }
{
    let _ = rt.eprintln(format_args!("keltuvar: {name} can't be read: {error}"));
    ExitCode::FAILURE
}

/// If `name` can't be written: 1.
pub fn end_unwritten(rt: &HostRuntime, name: &str, error: io::Error) -> ExitCode
    ensures { exit_status result ≡ 1 }
{
    let _ = rt.eprintln(format_args!("keltuvar: {name} can't be written: {error}"));
    ExitCode::FAILURE
}

/// If there is no random salt: 1.
pub fn end_undrawn(rt: &HostRuntime, error: io::Error) -> ExitCode
    ensures { exit_status result ≡ 1 }
{
    let _ = rt.eprintln(format_args!("keltuvar: no salt can be drawn: {error}"));
    ExitCode::FAILURE
}

/// If a history can't be read: 1, and the fault's line. A second line gives the form of a history's lines if one of them is bad,
/// or says that there are fewer entries than the first line promises.
pub fn end_bad_history(rt: &HostRuntime, found: RaceFault) -> ExitCode
    ensures { exit_status result ≡ 1 }
{
    let wrong = wrong_text(&found);
    let _ = rt.eprintln(found);
    if let Some(wrong) = wrong {
        let _ = rt.eprintln(wrong);
    }
    ExitCode::FAILURE
}

// What is wrong with a history's text.
fn wrong_text(fault: &RaceFault) -> Option<&'static str> {
    match fault {
        RaceFault::BadLine(_) => Some(
            "of the history: its lines are workers N entries M, and then entry PLACE WORKER COMMAND REPLY",
        ),
        RaceFault::MissingEntry(_) => Some("the history ends before this entry"),
        _ => None,
    }
}

// What is wrong at the place of the fault.
fn wrong_there(fault: &RaceFault) -> Option<&'static str> {
    match fault {
        RaceFault::MissingEntry(_) => Some("the entry has another place"),
        RaceFault::Audit(AuditFault::StrangeCaller(_)) => {
            Some(
                "the command isn't a change that is dealt to this worker and comes behind its last",
            )
        }
        RaceFault::Audit(AuditFault::WrongReply(_)) => Some("the pool replies otherwise there"),
        _ => None,
    }
}

// If an audit finds a fault: 1, and the fault's line. A second line says what is wrong at its place.
fn end_fault_there(rt: &HostRuntime, found: RaceFault) -> ExitCode
    ensures { exit_status result ≡ 1 }
{
    let wrong = wrong_there(&found);
    let _ = rt.eprintln(found);
    if let Some(wrong) = wrong {
        let _ = rt.eprintln(wrong);
    }
    ExitCode::FAILURE
}

// What is wrong in the line of the fault.
fn wrong_line(fault: &mp_replay::ReplayFault<'_>) -> Option<&'static str> {
    match fault {
        mp_replay::ReplayFault::NoAnswer(_) => Some(
            "the history ends before the answer to this line",
        ),
        mp_replay::ReplayFault::WrongAnswer(_) => Some("the pool answers otherwise there"),
        mp_replay::ReplayFault::WrongPlace(_) => Some("the entry has another place"),
        mp_replay::ReplayFault::BadCaller(_) => Some("the entry has no caller from 0 to 63"),
        _ => None,
    }
}

// If the replay of a history finds a fault: 1, and the fault's line. A second line says what is wrong.
fn end_fault_in(rt: &HostRuntime, found: mp_replay::ReplayFault<'_>) -> ExitCode
    ensures { exit_status result ≡ 1 }
{
    let _ = rt.eprintln(format_args!("{found}"));
    explain(rt, true, found.bad_line());
    if let Some(wrong) = wrong_line(&found) {
        let _ = rt.eprintln(wrong);
    }
    ExitCode::FAILURE
}

/// After the replay of a served pool's history: 0 and that the history is legal, or 1 and the fault's line.
pub fn end_replay<W: io::Write>(
    rt: &HostRuntime,
    ended: Result<(), mp_replay::ReplayFault<'_>>,
    writer: &mut W,
) -> ExitCode
    ensures { EndsAs (IsReplaySaid (W.contents writer.old) (W.contents writer.new) ended.entry)
        (exit_status result) }
{
    match ended {
        Ok(()) => match write_all(writer, LEGAL) {
            Ok(()) => ExitCode::SUCCESS,
            Err(WriteFault) => end_fault(rt, RaceFault::WriteFault),
        },
        Err(fault) => end_fault_in(rt, fault),
    }
}

/// After an audit: 0 and that the history is legal, or 1 and the fault's line.
pub fn end_audit<W: io::Write>(
    rt: &HostRuntime,
    ended: Result<(), RaceFault>,
    writer: &mut W,
) -> ExitCode
    ensures { EndsAs (IsSaid (W.contents writer.old) (W.contents writer.new) ended)
        (exit_status result) }
{
    match ended {
        Ok(()) => match write_all(writer, LEGAL) {
            Ok(()) => ExitCode::SUCCESS,
            Err(WriteFault) => end_fault(rt, RaceFault::WriteFault),
        },
        Err(fault) => end_fault_there(rt, fault),
    }
}

// Whether all conversations ended with their input.
fn all_ended<N: PoolName, D: Device>(finished: &[Finished<N, D>]) -> bool
    ensures { result ≡ list_all (λ f. is_ok f.ended) finished.now }
{
    finished.iter().all(|one| one.ended.is_ok())
}

/// After all conversations of an operator and clients: 0, or 1 and the first fault's line, which names the client.
pub fn end_conversations<N: PoolName, D: Device>(
    rt: &HostRuntime,
    service: &Service<N, D>,
) -> ExitCode
    ensures { exit_status result
        ≡ status_of_all service.now.is_known service.now.finished.items }
{
    if service.is_known && all_ended(&service.finished) {
        return ExitCode::SUCCESS;
    }
    for (number, one) in service.finished.iter().enumerate() {
        match one.ended {
            Ok(()) => {}
            Err(fault) => return end_fault_of(rt, number, fault),
        }
    }
    end_fault(rt, mp_clients::ClientFault::Foreign)
}

// After a fault of the operator's conversation, or of the client's with this number.
fn end_fault_of(rt: &HostRuntime, number: usize, fault: mp_clients::ClientFault) -> ExitCode
    ensures { exit_status result ≡ 1 }
{
    if number == 0 {
        end_fault(rt, fault)
    } else {
        let _ = rt.eprintln(format_args!("client {number}: {fault}"));
        ExitCode::FAILURE
    }
}

// After the help or the version: 0, or 1 if it can't be written.
fn end_help(is_written: bool) -> ExitCode
    ensures { exit_status result ≡ if is_written then 0 else 1 }
{
    if is_written {
        ExitCode::SUCCESS
    } else {
        ExitCode::FAILURE
    }
}

/// After the help or the version: 0, or 1 if it can't be written. After a refused command line: 2, or 1 if an allocation failed.
pub fn end_unparsed(rt: &HostRuntime, error: Error) -> ExitCode
    ensures refused { kind_of error ≢ ErrorKind.DisplayHelp
        → kind_of error ≢ ErrorKind.DisplayVersion
        → kind_of error ≢ ErrorKind.OutOfMemory → exit_status result ≡ 2 }
    ensures memory { kind_of error ≡ ErrorKind.OutOfMemory → exit_status result ≡ 1 }
    ensures help { kind_of error ≡ ErrorKind.DisplayHelp → exit_status result ≤ 1 }
    ensures version { kind_of error ≡ ErrorKind.DisplayVersion → exit_status result ≤ 1 }
{
    let is_written = error.print(rt).is_ok();
    match error.kind() {
        ErrorKind::DisplayHelp | ErrorKind::DisplayVersion => end_help(is_written),
        ErrorKind::OutOfMemory => ExitCode::FAILURE,
        _ => ExitCode::from(REFUSED),
    }
}
