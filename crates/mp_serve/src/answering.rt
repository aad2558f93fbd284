//! The answer to a line, and writing it.

ghost use Rattle.std.specs.Prelude.{◌≡◌, ◌≢◌, ◌<◌, ◌⊎◌, ℕ, List, length, OnOk, OnErr};
ghost use Rattle.std.specs.Io.KnownBytes.{Appends};
ghost use Rattle.mp_serve.specs.Ask.{longest};
ghost use Rattle.mp_text.specs.LineInput.{IsLine, first_line};
ghost use Rattle.mp_serve.specs.Inside.Answer.{text_of};
ghost use Rattle.mp_serve.specs.Texts.{no_memory_text};
ghost use Rattle.mp_serve.specs.Served.{IsBadLine, IsAnswer, AppendsUpTo};

use crate::answer::Answer;
use crate::conversation::Conversation;
use crate::device::{Device, Turn};
use crate::texts::bad_line;
use mp_memory::Memory;
use mp_names::{LineFault, Reason};
use mp_text::{LineRead, WriteFault};

// The answer to the bad line with this number.
fn answer_bad(memory: Memory, number: u64, reason: Reason<'_>) -> Answer
    ensures { IsBadLine number (text_of result) ⊎ (text_of result ≡ no_memory_text) }
{
    match bad_line(memory, number, reason) {
        Ok(text) => Answer::Line(text),
        Err(_) => Answer::NoMemory,
    }
}

// The answer to the line with this number.
fn answer_line(conversation: &mut Conversation, memory: Memory, number: u64, line: &[u8]) -> Answer
    ensures { IsAnswer number conversation.old line.now (text_of result) conversation.new }
{
    match conversation.hear(memory, line) {
        Ok(answer) => answer,
        Err(LineFault::NoMemory) => Answer::NoMemory,
        Err(LineFault::Bad(reason)) => answer_bad(memory, number, reason),
    }
}

// The answer to a line that is too long.
#[tactic(auto, unfolding(crate::specs::Talk::line_step, crate::specs::Ask::ask_of))]
fn answer_long(conversation: &Conversation, memory: Memory, number: u64) -> Answer
    ensures { (line : List ℕ) → longest < length line
        → IsAnswer number conversation.now line (text_of result) conversation.now }
{
    answer_bad(memory, number, Reason::LongLine)
}

/// The answer to what was read of the line with this number.
pub fn answer(
    conversation: &mut Conversation,
    memory: Memory,
    number: u64,
    found: LineRead,
    kept: &[u8],
) -> Answer
    requires { found ≢ LineRead.End }
    ensures { (bytes : List ℕ) → IsLine longest bytes found kept.now → IsAnswer number
        conversation.old (first_line bytes) (text_of result) conversation.new }
{
    match found {
        LineRead::Whole => answer_line(conversation, memory, number, kept),
        LineRead::TooLong => answer_long(conversation, memory, number),
        LineRead::Lost => Answer::NoMemory,
        LineRead::End => unreachable!(),
    }
}

/// Writes the answer, and flushes it.
pub fn tell<D: Device>(device: &mut D, answer: &Answer) -> Result<(), WriteFault>
    requires { D.turn device.old ≡ Turn.Owes }
    ensures ok { OnOk result (Appends (D.output device.old) (D.output device.new)
        (text_of answer.now)) }
    ensures err { OnErr result (AppendsUpTo (D.output device.old) (D.output device.new)
        (text_of answer.now)) }
    ensures turn { OnOk result (D.turn device.new ≡ Turn.Listens) }
    ensures failed { OnErr result (D.turn device.new ≡ Turn.Failed) }
    ensures input { D.input device.new ≡ D.input device.old }
{
    device.write(answer.text())?;
    device.flush()
}
