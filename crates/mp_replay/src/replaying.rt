//! The replay of a history, step by step.

ghost use Rattle.std.specs.Prelude.{◌≡◌, ℕ, ◌+◌, ◌-◌, ◌^◌, ◌<◌, ◌≤◌, List, ◌∷◌, length, IfOk, IfErr, OnOk};
ghost use Rattle.mp_text.specs.Lines.{lines_of};
ghost use Rattle.mp_replay.specs.declared.fault.ReplayFault.TheVariants as faults;
ghost use Rattle.mp_replay.specs.ServedHistory.{IsServedHistory, IsStep, replayed};
ghost use Rattle.mp_replay.specs.ReplayFault.{IsReplayFault, IsWrongStep, IsWrongThere};

use crate::asking::ask_line;
use crate::entries::count_entry;
use crate::fault::ReplayFault;
use mp_memory::Memory;
use mp_names::LineFault;
use mp_serve::Conversation;
use mp_text::first_line;

// Asks the line, which has this number, and compares the answer with the next line. Returns the number of entries then.
fn replay_step<'a>(
    conversation: &mut Conversation,
    memory: Memory,
    entries: u64,
    number: u64,
    line: &'a [u8],
    answer: &'a [u8],
) -> Result<u64, ReplayFault<'a>>
    requires few { entries < 2 ^ 64 - 1 }
    requires within { number < 2 ^ 64 - 1 }
    ensures ok { IfOk result (λ more. IsStep (replayed conversation.old entries)
        line.now answer.now (replayed conversation.new more)) }
    ensures few { IfOk result (λ more. more ≤ entries + 1) }
    ensures err { IfErr result
        (IsWrongStep (replayed conversation.old entries) number line.now answer.now) }
{
    match ask_line(conversation, memory, line) {
        Ok(told) => count_entry(number + 1, entries, told.text(), answer),
        Err(LineFault::NoMemory) => Err(ReplayFault::NoMemory),
        Err(LineFault::Bad(reason)) => Err(ReplayFault::BadLine(number, reason)),
    }
}

// Replays the step of the line, which has this number. The text that follows it begins with the line of the answer. Returns the
// number of entries then, and the text that follows the step.
fn replay_from<'a>(
    conversation: &mut Conversation,
    memory: Memory,
    entries: u64,
    number: u64,
    line: &'a [u8],
    behind: &'a [u8],
) -> Result<(u64, &'a [u8]), ReplayFault<'a>>
    requires few { entries < 2 ^ 64 - 1 }
    requires within { number < 2 ^ 64 - 1 }
    ensures ok { IfOk result (λ r. (answer : List ℕ)
        × (lines_of behind.now ≡ answer ∷ lines_of r.1.now)
        × IsStep (replayed conversation.old entries) line.now answer
        (replayed conversation.new r.0)) }
    ensures few { IfOk result (λ r. r.0 ≤ entries + 1) }
    ensures shorter { IfOk result (λ r. length r.1.now < length behind.now) }
    ensures err { IfErr result (IsWrongThere (replayed conversation.old entries) number
        (line.now ∷ lines_of behind.now)) }
{
    let Some((answer, rest)) = first_line(behind) else {
        return Err(ReplayFault::NoAnswer(number));
    };
    let more = replay_step(conversation, memory, entries, number, line, answer)?;
    Ok((more, rest))
}

/// Asks the conversation each line of the history again, and compares the answers.
///
/// # Errors
/// The first fault, if the text isn't a legal history of the conversation. `NoMemory` may replace any other answer. After an `Err`
/// the contract says nothing about the conversation.
pub fn replay<'a>(
    memory: Memory,
    conversation: &mut Conversation,
    text: &'a [u8],
) -> Result<(), ReplayFault<'a>>
    ensures legal { OnOk result (IsServedHistory conversation.old text.now) }
    ensures fault { IfErr result (IsReplayFault conversation.old text.now) }
    ensures illegal { IfErr result
        (λ fault. IsServedHistory conversation.old text.now → fault ≡ faults.NoMemory) }
{
    let mut entries = 0;
    let mut number = 1;
    let mut rest = text;
    while let Some((line, behind)) = first_line(rest) {
        let (more, after) = replay_from(conversation, memory, entries, number, line, behind)?;
        entries = more;
        number += 2;
        rest = after;
    }
    Ok(())
}
