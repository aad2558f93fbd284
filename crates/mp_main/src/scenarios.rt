//! The scenario of a race or of an audit.

ghost use Rattle.std.specs.Prelude.{◌≡◌, Ok, IfSome, IfOk, IfErr};
ghost use Rattle.std.specs.Process.{exit_status};
ghost use Rattle.mp_text.specs.Lines.{lines_of};
ghost use Rattle.mp_race.specs.Reading.{scenario_from};

use crate::command_line::Input;
use crate::ending::{end_bad_line, end_fault, end_unread};
use mp_memory::Memory;
use mp_race::{RaceFault, Scenario};
use mp_text::{InputFault, read_all};
use std::fs::File;
use std::io::Read;
use std::process::ExitCode;

/// The scenario that the reader gives, or how the program ends without one.
pub fn read_scenario<R: Read>(
    rt: &HostRuntime,
    memory: Memory,
    explains: bool,
    reader: &mut R,
) -> Result<Scenario, ExitCode>
    ensures read { IfSome (R.remaining reader.old) (λ bytes.
        IfOk result (λ s. scenario_from (lines_of bytes) ≡ Ok s)) }
    ensures status { IfErr result (λ code. exit_status code ≡ 1) }
{
    match read_all(memory, reader) {
        Ok(text) => match Scenario::parse(memory, &text) {
            Ok(scenario) => Ok(scenario),
            Err(stop) => Err(end_bad_line(rt, explains, stop)),
        },
        Err(InputFault::NoMemory) => Err(end_fault(rt, RaceFault::NoMemory)),
        Err(InputFault::Read) => Err(end_fault(rt, RaceFault::ReadFault)),
    }
}

/// The scenario of the file, or of standard input without one.
pub fn scenario_of(rt: &HostRuntime, memory: Memory, input: Input<'_>) -> Result<Scenario, ExitCode>
    ensures { IfErr result (λ code. exit_status code ≡ 1) }
{
    let explains = input.explains;
    match input.file {
        None => read_scenario(rt, memory, explains, &mut rt.stdin()),
        Some(path) => match File::open(rt, path) {
            Ok(mut scenario) => read_scenario(rt, memory, explains, &mut scenario),
            Err(error) => Err(end_unread(rt, path, error)),
        },
    }
}
