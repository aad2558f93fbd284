//! The answer to a line.

ghost use Rattle.std.specs.Prelude.{◌≡◌, ◌≢◌, ◌<◌, ℕ, List, length, IfOk, IfErr};
ghost use Rattle.mp_text.specs.LineInput.{IsLine, first_line};
ghost use Rattle.mp_serve.specs.Ask.{longest};
ghost use Rattle.mp_serve.specs.Inside.Ask.{to_ask};
ghost use Rattle.mp_serve.specs.Inside.Answer.{text_of};
ghost use Rattle.mp_clients.specs.Asking.{allowed};
ghost use Rattle.mp_clients.specs.Answers.{IsHeard, IsAnswer, IsBroken};

use crate::allowed::forbids;
use crate::bad::answer_bad;
use crate::conversation::Conversation;
use crate::fault::ClientFault;
use crate::shared::Shared;
use crate::stop::ClientStop;
use mp_history::PoolName;
use mp_memory::Memory;
use mp_names::{LineFault, Reason};
use mp_rules::Verifier;
use mp_serve::{Answer, Ask};
use mp_text::LineRead;
use std::sync::Wait;

// The answer to what is asked.
fn answer_ask<N: PoolName, V: Verifier>(
    conversation: &mut Conversation<N>,
    rt: &impl Wait,
    shared: &Shared<N, V>,
    memory: Memory,
    ask: Ask,
) -> Result<Answer, ClientFault>
    ensures ok { IfOk result (λ answer. IsHeard N.accepts N.callers conversation.old
        (allowed conversation.old.client.pass.caller (to_ask ask)) (text_of answer)
        conversation.new) }
    ensures err { IfErr result (IsBroken N.accepts N.callers conversation.old conversation.new) }
{
    if let Some(reason) = forbids(conversation.client.caller(), &ask) {
        return Ok(answer_bad(memory, conversation.line, reason));
    }
    match conversation.take(rt, shared, memory, ask) {
        Ok(answer) => Ok(answer),
        Err(ClientStop::NoMemory) => Ok(Answer::NoMemory),
        Err(ClientStop::Untold) => Err(ClientFault::Untold),
        Err(ClientStop::Foreign) => Err(ClientFault::Foreign),
    }
}

/// The answer to the line.
///
/// # Errors
/// Those of `answer`.
pub fn answer_line<N: PoolName, V: Verifier>(
    conversation: &mut Conversation<N>,
    rt: &impl Wait,
    shared: &Shared<N, V>,
    memory: Memory,
    line: &[u8],
) -> Result<Answer, ClientFault>
    ensures ok { IfOk result (λ answer. IsAnswer N.accepts N.callers
        conversation.old line.now (text_of answer) conversation.new) }
    ensures err { IfErr result (IsBroken N.accepts N.callers conversation.old conversation.new) }
{
    match Ask::parse(memory, &conversation.names, conversation.most_names, line) {
        Ok(ask) => answer_ask(conversation, rt, shared, memory, ask),
        Err(LineFault::NoMemory) => Ok(Answer::NoMemory),
        Err(LineFault::Bad(reason)) => Ok(answer_bad(memory, conversation.line, reason)),
    }
}

// The answer to a line that is too long.
fn answer_long<N: PoolName>(conversation: &Conversation<N>, memory: Memory) -> Answer
    ensures { (line : List ℕ) → longest < length line → IsAnswer N.accepts N.callers
        conversation.now line (text_of result) conversation.now }
{
    answer_bad(memory, conversation.line, Reason::LongLine)
}

/// The answer to what was read of the next line.
///
/// # Errors
/// `Foreign`, if the pool has an entry of this conversation that it doesn't know. Then nothing has changed but what it has seen.
/// `Untold`, if a change was made and its answer is lost.
pub fn answer<N: PoolName, V: Verifier>(
    conversation: &mut Conversation<N>,
    rt: &impl Wait,
    shared: &Shared<N, V>,
    memory: Memory,
    found: LineRead,
    kept: &[u8],
) -> Result<Answer, ClientFault>
    requires { found ≢ LineRead.End }
    ensures ok { IfOk result (λ answer. (bytes : List ℕ) → IsLine longest bytes found kept.now
        → IsAnswer N.accepts N.callers
        conversation.old (first_line bytes) (text_of answer) conversation.new) }
    ensures err { IfErr result (IsBroken N.accepts N.callers conversation.old conversation.new) }
{
    match found {
        LineRead::Whole => answer_line(conversation, rt, shared, memory, kept),
        LineRead::TooLong => Ok(answer_long(conversation, memory)),
        LineRead::Lost => Ok(Answer::NoMemory),
        LineRead::End => unreachable!(),
    }
}
