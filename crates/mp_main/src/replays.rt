//! `keltuvar audit` of one file: whether it is a legal history of a served pool.

ghost use Rattle.std.specs.Prelude.{IfSome};
ghost use Rattle.std.specs.Process.{exit_status};
ghost use Rattle.mp_serve.specs.Talk.{new_conversation};
ghost use Rattle.mp_main.specs.Status.{EndsAs};
ghost use Rattle.mp_main.specs.Replay.{IsReplayAudited};

use crate::command_line::{MOST_NAMES, SchemeName};
use crate::conversation::prepare;
use crate::ending::{end_fault, end_replay, end_unread};
use mp_memory::{Memory, NoMemory};
use mp_race::{RaceFault, read_history_text};
use mp_replay::replay;
use mp_serve::Conversation;
use mp_signatures::Signatures;
use mp_text::InputFault;
use mp_tx::Salt;
use std::fs::File;
use std::io::{Read, Write};
use std::process::ExitCode;

/// Replays the history that the reader gives, and writes whether it is legal.
pub fn replay_over<R: Read, W: Write>(
    rt: &HostRuntime,
    memory: Memory,
    signatures: Signatures,
    salt: Salt,
    reader: &mut R,
    writer: &mut W,
) -> ExitCode
    ensures { IfSome (R.remaining reader.old) (λ bytes. EndsAs
        (IsReplayAudited (new_conversation signatures salt 65536) bytes
        (W.contents writer.old) (W.contents writer.new))
        (exit_status result)) }
{
    match read_history_text(memory, reader) {
        Ok(text) => replay_text(rt, memory, signatures, salt, &text, writer),
        Err(InputFault::NoMemory) => end_fault(rt, RaceFault::NoMemory),
        Err(InputFault::Read) => end_fault(rt, RaceFault::ReadFault),
    }
}

// Replays the history with this text, and writes whether it is legal.
fn replay_text<W: Write>(
    rt: &HostRuntime,
    memory: Memory,
    signatures: Signatures,
    salt: Salt,
    text: &[u8],
    writer: &mut W,
) -> ExitCode
    ensures { EndsAs (IsReplayAudited (new_conversation signatures salt 65536) text.now
        (W.contents writer.old) (W.contents writer.new)) (exit_status result) }
{
    match Conversation::new(memory, signatures, salt, MOST_NAMES) {
        Ok(mut conversation) => end_replay(rt, replay(memory, &mut conversation, text), writer),
        Err(NoMemory) => end_fault(rt, RaceFault::NoMemory),
    }
}

/// Replays the history in the file, of a pool that accepts these signatures, and writes whether it is legal.
pub fn replay_file(rt: &HostRuntime, path: &str, signatures: SchemeName) -> ExitCode {
    let (memory, signatures, salt) = match prepare(rt, signatures, None) {
        Ok(prepared) => prepared,
        Err(code) => return code,
    };
    let mut writer = rt.stdout();
    match File::open(rt, path) {
        Ok(mut history) => replay_over(rt, memory, signatures, salt, &mut history, &mut writer),
        Err(error) => end_unread(rt, path, error),
    }
}
