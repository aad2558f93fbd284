//! The program of a plain `./keltuvar run`: it runs the scenario of standard input, and writes the answers to standard
//! output. The signatures are trial ones. The program depends on fewer crates than the whole one, so that it is built
//! sooner. It ends with status 0, with 1 after a fault, and with 2 if it has an argument.
#![tactic(auto)]

ghost use Rattle.std.specs.Prelude.{◌≡◌, ◌≢◌, ◌<◌, IfOk, IfSome};
ghost use Rattle.std.specs.Process.{exit_status};
ghost use Rattle.std.specs.IoError.{error_kind};
ghost use Rattle.std.specs.declared.io.ErrorKind.TheVariants as kinds;
ghost use Rattle.mp_signatures.specs.declared.scheme.Scheme.TheVariants.{Trial};
ghost use Rattle.mp_run.specs.Status.{status_of, EndsAs};

use mp_memory::{Memory, NoMemory};
use mp_session::{RunFault, run};
use mp_signatures::{Scheme, Signatures};
use std::io::{Read, Write};
use std::process::ExitCode;
use std::{env, io};

const REFUSED: u8 = 2;

fn main(rt: HostRuntime) -> ExitCode {
    match count_words(&rt) {
        Ok(words) => run_unless_asked(&rt, words),
        Err(error) => end_unworded(&rt, error),
    }
}

// Runs the scenario of standard input, unless there are words after the program's name.
fn run_unless_asked(rt: &HostRuntime, words: usize) -> ExitCode
    ensures { 1 < words → exit_status result ≡ 2 }
{
    if words > 1 {
        return end_refused(rt);
    }
    run_input(rt)
}

// The number of words in the command line, including the program's name.
fn count_words(rt: &HostRuntime) -> io::Result<usize> {
    Ok(env::args(rt)?.count())
}

// Runs the scenario of standard input.
fn run_input(rt: &HostRuntime) -> ExitCode {
    match begin(rt) {
        Ok((memory, signatures)) => run_over(
            rt,
            memory,
            &signatures,
            &mut rt.stdin(),
            &mut rt.stdout(),
        ),
        Err(NoMemory) => end(rt, Err(RunFault::NoMemory)),
    }
}

// The memory of a run, and trial signatures.
fn begin(rt: &HostRuntime) -> Result<(Memory, Signatures), NoMemory>
    ensures { IfOk result (λ r. r.1 ≡ Trial) }
{
    let memory = Memory::new(rt.alloc())?;
    let signatures = Signatures::new(memory, Scheme::Trial)?;
    Ok((memory, signatures))
}

// Runs the scenario of the reader, and writes the answers to the writer.
fn run_over<R: Read, W: Write>(
    rt: &HostRuntime,
    memory: Memory,
    signatures: &Signatures,
    reader: &mut R,
    writer: &mut W,
) -> ExitCode
    ensures { IfSome (R.remaining reader.old) (λ bytes. EndsAs signatures.now bytes
        (W.contents writer.old) (W.contents writer.new) (exit_status result)) }
{
    end(rt, run(memory, signatures, reader, writer))
}

// After the answers: 0, or 1 and the fault's line.
fn end(rt: &HostRuntime, ended: Result<(), RunFault>) -> ExitCode
    ensures { exit_status result ≡ status_of ended }
{
    match ended {
        Ok(()) => ExitCode::SUCCESS,
        Err(fault) => {
            let _ = rt.eprintln(fault);
            ExitCode::FAILURE
        }
    }
}

// With an argument: 2.
fn end_refused(rt: &HostRuntime) -> ExitCode
    ensures { exit_status result ≡ 2 }
{
    let _ = rt.eprintln("mp_run: it takes no arguments: the scenario is on standard input");
    ExitCode::from(REFUSED)
}

// If the command line can't be read: 2, or 1 if there is no memory for it.
fn end_unworded(rt: &HostRuntime, error: io::Error) -> ExitCode
    ensures refused { error_kind error ≢ kinds.OutOfMemory → exit_status result ≡ 2 }
    ensures memory { error_kind error ≡ kinds.OutOfMemory → exit_status result ≡ 1 }
{
    let _ = rt.eprintln(format_args!("mp_run: the command line can't be read: {error}"));
    match error.kind() {
        io::ErrorKind::OutOfMemory => ExitCode::FAILURE,
        _ => ExitCode::from(REFUSED),
    }
}
