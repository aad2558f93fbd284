//! `keltuvar run`: the answers to a scenario.

ghost use Rattle.std.specs.Prelude.{IfSome};
ghost use Rattle.std.specs.Process.{exit_status};
ghost use Rattle.mp_session.specs.Ending.{Ended};
ghost use Rattle.mp_main.specs.Status.{EndsAs};

use crate::command_line::{Input, SchemeName};
use crate::ending::{end_answers, end_fault, end_unread};
use crate::schemes::signatures_of;
use mp_memory::Memory;
use mp_session::{RunFault, answer_text};
use mp_signatures::Signatures;
use mp_text::{InputFault, read_all};
use std::fs::File;
use std::io::{Read, Write};
use std::process::ExitCode;

/// Runs the scenario that the reader gives, and writes its answers to the writer.
pub fn run_over<R: Read, W: Write>(
    rt: &HostRuntime,
    memory: Memory,
    signatures: &Signatures,
    explains: bool,
    reader: &mut R,
    writer: &mut W,
) -> ExitCode
    ensures { IfSome (R.remaining reader.old) (λ bytes. EndsAs
        (Ended signatures.now bytes (W.contents writer.old) (W.contents writer.new))
        (exit_status result)) }
{
    match read_all(memory, reader) {
        Ok(text) => {
            let ended = answer_text(memory, signatures, &text, writer);
            end_answers(rt, explains, ended)
        }
        Err(InputFault::NoMemory) => end_fault(rt, RunFault::NoMemory),
        Err(InputFault::Read) => end_fault(rt, RunFault::ReadFault),
    }
}

/// Runs a scenario, whose pool accepts these signatures, and writes its answers to standard output.
pub fn run_scenario(rt: &HostRuntime, input: Input<'_>, signatures: SchemeName) -> ExitCode {
    let Ok(memory) = Memory::new(rt.alloc()) else {
        return end_fault(rt, RunFault::NoMemory);
    };
    match signatures_of(rt, memory, signatures) {
        Ok(signatures) => run_input(rt, memory, &signatures, input),
        Err(code) => code,
    }
}

// Runs the scenario of the file, or of standard input where there is none.
fn run_input(
    rt: &HostRuntime,
    memory: Memory,
    signatures: &Signatures,
    input: Input<'_>,
) -> ExitCode {
    let explains = input.explains;
    let mut writer = rt.stdout();
    match input.file {
        None => run_over(
            rt,
            memory,
            signatures,
            explains,
            &mut rt.stdin(),
            &mut writer,
        ),
        Some(path) => match File::open(rt, path) {
            Ok(mut scenario) => {
                run_over(rt, memory, signatures, explains, &mut scenario, &mut writer)
            }
            Err(error) => end_unread(rt, path, error),
        },
    }
}
