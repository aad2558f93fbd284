//! A conversation over a device, with a pool that others share.

ghost use Rattle.std.specs.Prelude.{◌≡◌, ◌∷◌, List, ℕ, IfSome, OnOk};
ghost use Rattle.mp_text.specs.Lines.{lines_of};
ghost use Rattle.mp_clients.specs.Answers.{IsTurn, IsBroken};
ghost use Rattle.mp_clients.specs.Told.{Ended};
ghost use Rattle.mp_clients.specs.Waiting.{turn_with, lines_with, line_in};
ghost use Rattle.mp_clients.specs.Inside.Before.{IsFirst};

use crate::answering::{answer, answer_line};
use crate::conversation::Conversation;
use crate::fault::ClientFault;
use crate::shared::Shared;
use mp_history::PoolName;
use mp_memory::Memory;
use mp_rules::Verifier;
use mp_serve::{Device, MAX_LINE_BYTES, Turn, tell};
use mp_text::LineRead;
use std::sync::Wait;

// Answers each line of the input as it comes, until the input ends. `line` is the buffer for it.
fn answer_all<N: PoolName, V: Verifier, D: Device>(
    rt: &impl Wait,
    shared: &Shared<N, V>,
    memory: Memory,
    conversation: &mut Conversation<N>,
    line: &mut Vec<u8, Memory>,
    device: &mut D,
) -> Result<(), ClientFault>
    requires { D.turn device.old ≡ Turn.Listens }
    ensures answers { IfSome (D.input device.old) (λ bytes.
        Ended (IsTurn N.accepts N.callers) (IsBroken N.accepts N.callers) conversation.old
        (lines_of bytes) (D.output device.old) (D.output device.new) result conversation.new) }
{
    for _count in 1..u64::MAX {
        let found = match device.read_line(line, MAX_LINE_BYTES) {
            Ok(LineRead::End) => return Ok(()),
            Ok(found) => found,
            Err(_) => return Err(ClientFault::ReadFault),
        };
        let answer = match answer(conversation, rt, shared, memory, found, line) {
            Ok(answer) => answer,
            Err(fault) => return Err(fault),
        };
        conversation.count_line();
        match tell(device, &answer) {
            Ok(()) => {}
            Err(_) => return Err(ClientFault::WriteFault),
        }
    }
    Err(ClientFault::ManyLines)
}

// Answers a line that was read already.
fn answer_first<N: PoolName, V: Verifier, D: Device>(
    rt: &impl Wait,
    shared: &Shared<N, V>,
    memory: Memory,
    conversation: &mut Conversation<N>,
    line: &[u8],
    device: &mut D,
) -> Result<(), ClientFault>
    requires { D.turn device.old ≡ Turn.Owes }
    ensures answers { (rest : List (List ℕ)) → IsFirst (IsTurn N.accepts N.callers)
        (IsBroken N.accepts N.callers) conversation.old line.now rest
        (D.output device.old) (D.output device.new) result conversation.new }
    ensures turn { OnOk result (D.turn device.new ≡ Turn.Listens) }
    ensures input { D.input device.new ≡ D.input device.old }
{
    let answer = match answer_line(conversation, rt, shared, memory, line) {
        Ok(answer) => answer,
        Err(fault) => return Err(fault),
    };
    conversation.count_line();
    match tell(device, &answer) {
        Ok(()) => Ok(()),
        Err(_) => Err(ClientFault::WriteFault),
    }
}

// Answers a line that was read already, and then each line of the input as it comes.
fn answer_after<N: PoolName, V: Verifier, D: Device>(
    rt: &impl Wait,
    shared: &Shared<N, V>,
    memory: Memory,
    conversation: &mut Conversation<N>,
    line: &mut Vec<u8, Memory>,
    device: &mut D,
) -> Result<(), ClientFault>
    requires { D.turn device.old ≡ Turn.Owes }
    ensures answers { IfSome (D.input device.old) (λ bytes.
        Ended (IsTurn N.accepts N.callers) (IsBroken N.accepts N.callers) conversation.old
        (line.old.items ∷ lines_of bytes) (D.output device.old) (D.output device.new)
        result conversation.new) }
{
    match answer_first(rt, shared, memory, conversation, line, device) {
        Ok(()) => answer_all(rt, shared, memory, conversation, line, device),
        Err(fault) => Err(fault),
    }
}

/// Answers the line that was read already, if there is one, and then each line of the input as it comes, until the input ends.
///
/// # Errors
/// `ReadFault` and `WriteFault` if the device fails. `ManyLines` after at least 2^64 - 2 lines. `Untold` if a change was made and
/// its answer is lost. `Foreign` isn't expected.
pub fn answer_from<N: PoolName, V: Verifier, D: Device>(
    rt: &impl Wait,
    shared: &Shared<N, V>,
    memory: Memory,
    conversation: &mut Conversation<N>,
    line: Option<Vec<u8, Memory>>,
    device: &mut D,
) -> Result<(), ClientFault>
    requires { D.turn device.old ≡ turn_with (line_in line) }
    ensures answers { IfSome (D.input device.old) (λ bytes.
        Ended (IsTurn N.accepts N.callers) (IsBroken N.accepts N.callers) conversation.old
        (lines_with (line_in line) bytes) (D.output device.old) (D.output device.new)
        result conversation.new) }
{
    match line {
        None => {
            let mut line = Vec::new(memory);
            answer_all(rt, shared, memory, conversation, &mut line, device)
        }
        Some(line) => {
            let mut line = line;
            answer_after(rt, shared, memory, conversation, &mut line, device)
        }
    }
}
