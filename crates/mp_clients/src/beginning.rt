//! The operator's lines before the pool is open.

ghost use Rattle.std.specs.Prelude.{◌≡◌, ◌≢◌, ◌<◌, ℕ, List, length, true, false, IfSome, IfNone, IfOk, OnOk, OnErr};
ghost use Rattle.std.specs.Io.KnownBytes.{Appends};
ghost use Rattle.mp_text.specs.LineInput.{IsLine, first_line};
ghost use Rattle.mp_serve.specs.Ask.{longest};
ghost use Rattle.mp_serve.specs.Inside.Ask.{to_ask};
ghost use Rattle.mp_serve.specs.Inside.Answer.{text_of};
ghost use Rattle.mp_serve.specs.Served.{IsAnswer, AppendsUpTo};
ghost use Rattle.mp_serve.specs.Talk.{take, counted};
ghost use Rattle.mp_serve.specs.Texts.{no_memory_text};
ghost use Rattle.mp_clients.specs.Asking.{opens};
ghost use Rattle.mp_clients.specs.Beginning.{IsBefore, Opens, HasBegun};
ghost use Rattle.mp_clients.specs.Inside.Before.{IsStepTold};

use crate::allowed::opens;
use crate::bad::answer_bad;
use mp_memory::Memory;
use mp_names::{LineFault, Reason};
use mp_serve::{Answer, Ask, Conversation, ConversationFault, Device, MAX_LINE_BYTES, Turn, tell};
use mp_text::LineRead;

// The answer to what doesn't open the pool.
#[tactic(auto, using(crate::proofs::Before::still_before))]
fn answer_ask(conversation: &mut Conversation, memory: Memory, ask: Ask) -> Answer
    requires { opens (to_ask ask) ≡ false }
    ensures answer { IsStepTold conversation.old.line conversation.old
        (take conversation.old (to_ask ask)) (text_of result) conversation.new }
    ensures before { IsBefore conversation.old.session.stage
        → IsBefore conversation.new.session.stage }
{
    match conversation.take(memory, ask) {
        Ok(answer) => answer,
        Err(LineFault::NoMemory) => Answer::NoMemory,
        Err(LineFault::Bad(reason)) => answer_bad(memory, conversation.line, reason),
    }
}

// The answer to the line, unless it opens the pool.
#[tactic(auto, unfolding(mp_serve::specs::Talk::line_step))]
fn answer_line(conversation: &mut Conversation, memory: Memory, line: &[u8]) -> Option<Answer>
    ensures some { IfSome result (λ answer. IsAnswer conversation.old.line
        conversation.old line.now (text_of answer) conversation.new) }
    ensures none { IfNone result (Opens conversation.old.session.names
        conversation.old.most_names line.now
        × (conversation.new ≡ conversation.old)) }
    ensures before { IsBefore conversation.old.session.stage
        → IsBefore conversation.new.session.stage }
{
    match Ask::parse(
        memory,
        &conversation.session.names,
        conversation.most_names,
        line,
    ) {
        Ok(ask) => {
            if opens(&ask) {
                None
            } else {
                Some(answer_ask(conversation, memory, ask))
            }
        }
        Err(LineFault::NoMemory) => Some(Answer::NoMemory),
        Err(LineFault::Bad(reason)) => Some(answer_bad(memory, conversation.line, reason)),
    }
}

// The answer to a line that is too long.
#[tactic(auto, unfolding(mp_serve::specs::Talk::line_step, mp_serve::specs::Ask::ask_of))]
fn answer_long(conversation: &Conversation, memory: Memory) -> Answer
    ensures { (line : List ℕ) → longest < length line → IsAnswer conversation.now.line
        conversation.now line (text_of result) conversation.now }
{
    answer_bad(memory, conversation.line, Reason::LongLine)
}

// The answer to what was read of the next line, unless it opens the pool.
fn answer_found(
    conversation: &mut Conversation,
    memory: Memory,
    found: LineRead,
    kept: &[u8],
) -> Option<Answer>
    requires { found ≢ LineRead.End }
    ensures some { IfSome result (λ answer. (bytes : List ℕ)
        → IsLine longest bytes found kept.now → IsAnswer conversation.old.line
        conversation.old (first_line bytes) (text_of answer) conversation.new) }
    ensures none { IfNone result ((found ≡ LineRead.Whole)
        × Opens conversation.old.session.names conversation.old.most_names kept.now
        × (conversation.new ≡ conversation.old)) }
    ensures before { IsBefore conversation.old.session.stage
        → IsBefore conversation.new.session.stage }
{
    match found {
        LineRead::Whole => answer_line(conversation, memory, kept),
        LineRead::TooLong => Some(answer_long(conversation, memory)),
        LineRead::Lost => Some(Answer::NoMemory),
        LineRead::End => unreachable!(),
    }
}

/// Answers the operator's lines until one asks for something that opens the pool, or the input ends. Returns whether there is such
/// a line. It is then in `line`, and the device owes its answer.
///
/// # Errors
/// `ReadFault` and `WriteFault` if the device fails. `ManyLines` after 2^64 - 2 lines.
pub fn begin<D: Device>(
    memory: Memory,
    conversation: &mut Conversation,
    line: &mut Vec<u8, Memory>,
    device: &mut D,
) -> Result<bool, ConversationFault>
    requires listens { D.turn device.old ≡ Turn.Listens }
    requires before { IsBefore conversation.old.session.stage }
    ensures begun { IfSome (D.input device.old) (λ bytes. HasBegun conversation.old bytes
        (D.output device.old) (D.output device.new) result line.new.items conversation.new
        (D.input device.new)) }
    ensures turn { IfOk result (λ comes. comes ≡ true → D.turn device.new ≡ Turn.Owes) }
    ensures before { IsBefore conversation.new.session.stage }
{
    for _count in 1..u64::MAX {
        let found = match device.read_line(line, MAX_LINE_BYTES) {
            Ok(LineRead::End) => return Ok(false),
            Ok(found) => found,
            Err(_) => return Err(ConversationFault::ReadFault),
        };
        let answer = match answer_found(conversation, memory, found, line) {
            Some(answer) => answer,
            None => return Ok(true),
        };
        match tell(device, &answer) {
            Ok(()) => conversation.count_line(),
            Err(_) => return Err(ConversationFault::WriteFault),
        }
    }
    Err(ConversationFault::ManyLines)
}

/// Answers that an allocation failed, and counts the line. Then the operator's conversation may go on before the pool is open.
///
/// # Errors
/// `WriteFault`.
pub fn refuse<D: Device>(
    conversation: &mut Conversation,
    device: &mut D,
) -> Result<(), ConversationFault>
    requires { D.turn device.old ≡ Turn.Owes }
    ensures ok { OnOk result (Appends (D.output device.old) (D.output device.new)
        no_memory_text) }
    ensures err { OnErr result (AppendsUpTo (D.output device.old) (D.output device.new)
        no_memory_text) }
    ensures turn { OnOk result (D.turn device.new ≡ Turn.Listens) }
    ensures input { D.input device.new ≡ D.input device.old }
    ensures counted { OnOk result (conversation.new ≡ counted conversation.old) }
    ensures same { OnErr result (conversation.new ≡ conversation.old) }
{
    match tell(device, &Answer::NoMemory) {
        Ok(()) => {
            conversation.count_line();
            Ok(())
        }
        Err(_) => Err(ConversationFault::WriteFault),
    }
}
