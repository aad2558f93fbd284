//! Asking the shared pool for a change.

ghost use Rattle.std.specs.Prelude.{◌≡◌, ◌++◌, ◌∷◌, [], Ok, IfOk, IfErr, OnOk, OnErr};
ghost use Rattle.std.specs.Result.{result_err};
ghost use Rattle.hex.specs.Hex.{encode_lower};
ghost use Rattle.mp_seqpool.specs.Inside.Command.{command_of};
ghost use Rattle.mp_answers.specs.AnswerText.{reply_text, answer_text, given_text};
ghost use Rattle.mp_names.specs.Names as told;
ghost use Rattle.mp_serve.specs.Refused.{counted_if};
ghost use Rattle.mp_clients.specs.Answers.{IsAnswerTo};
ghost use Rattle.mp_clients.specs.Inside.Asked.{answer_in, IsUnanswered, IsBefore};

use crate::stop::ClientStop;
use mp_answers::{answer_line, given_refused_line, put_id, put_reply};
use mp_history::PoolName;
use mp_memory::{Memory, NoMemory};
use mp_mempool::{Mempool, Pass, Receipt, Refusal};
use mp_names::Names;
use mp_rules::Verifier;
use mp_seqpool::{Command, Reply};
use mp_serve::{Counts, count_if_refused};
use mp_text::Text;
use mp_tx::TxId;
use std::sync::Wait;

/// A receipt, or the refusal of the sequential pool, which isn't `NoMemory`.
pub type Asked = Result<Receipt, mp_seqpool::Refusal>;

/// Asks for the change. After an `Err` the pass is as it was.
pub fn ask_pool<N: PoolName, V: Verifier>(
    rt: &impl Wait,
    pool: &Mempool<N, V>,
    pass: &mut Pass<N>,
    command: &Command,
) -> Result<Asked, ClientStop>
    ensures ok { IfOk result (λ asked. IsAnswerTo N.accepts N.callers
        pass.old (command_of command.now) (answer_in asked) pass.new) }
    ensures err { OnErr result (pass.new ≡ pass.old) }
    ensures before { IfErr result IsBefore }
{
    match pool.ask(rt, pass, command) {
        Ok(receipt) => Ok(Ok(receipt)),
        Err(refusal) => match &refusal {
            Refusal::Foreign(_) => Err(ClientStop::Foreign),
            Refusal::Pool(mp_seqpool::Refusal::NoMemory) => Err(ClientStop::NoMemory),
            Refusal::Pool(other) => Ok(Err(*other)),
        },
    }
}

/// Counts the refusal, if there is one.
pub fn count_refusal(counts: &mut Counts, asked: &Asked)
    ensures { counts.new ≡ counted_if counts.old (result_err (answer_in asked.now)) }
{
    match asked {
        Ok(_) => {}
        Err(refusal) => count_if_refused(counts, &Some(*refusal)),
    }
}

/// The line of an accepted submit has at most this many bytes.
pub const ROOM: usize = 32;

/// With the transaction's id it has at most this many.
pub const GIVEN_ROOM: usize = 96;

/// Room for a line of this many bytes.
pub fn make_room(memory: Memory, bytes: usize) -> Result<Text, NoMemory>
    ensures { IfOk result (λ text. text.items ≡ []) }
{
    Ok(Vec::with_capacity(memory, bytes)?)
}

// Writes the line of the reply into the room.
fn put_line(text: &mut Text, reply: &Reply) -> Result<(), NoMemory>
    ensures { OnOk result (text.new.items ≡ text.old.items ++ (reply_text reply.now ++ 10 ∷ [])) }
{
    put_reply(text, reply)?;
    text.push(b'\n')?;
    Ok(())
}

// The line of the reply, in the room.
#[tactic(auto, unfolding(mp_answers::specs::AnswerText::answer_text))]
fn reply_in(room: Text, reply: &Reply) -> Result<Text, NoMemory>
    requires { room.items ≡ [] }
    ensures { IfOk result (λ text. (names : told.Names)
        → text.items ≡ answer_text names (Ok reply.now)) }
{
    let mut text = room;
    put_line(&mut text, reply)?;
    Ok(text)
}

/// The line of the answer, in the room for that of an accepted submit.
///
/// # Errors
/// `Untold` if the change was made, and `NoMemory` if it was refused.
pub fn asked_line(
    memory: Memory,
    names: &Names,
    room: Text,
    asked: &Asked,
) -> Result<Text, ClientStop>
    requires { room.items ≡ [] }
    ensures ok { IfOk result (λ text. text.items ≡ answer_text names.now (answer_in asked.now)) }
    ensures err { IfErr result (IsUnanswered (answer_in asked.now)) }
{
    match asked {
        Ok(receipt) => match reply_in(room, &receipt.entry.reply) {
            Ok(text) => Ok(text),
            Err(_) => Err(ClientStop::Untold),
        },
        Err(refusal) => match answer_line(memory, names, &Err(*refusal)) {
            Ok(text) => Ok(text),
            Err(_) => Err(ClientStop::NoMemory),
        },
    }
}

// Writes the line of the reply, with the id, into the room.
fn put_given_line(text: &mut Text, reply: &Reply, id: &TxId) -> Result<(), NoMemory>
    ensures { OnOk result (text.new.items
        ≡ text.old.items ++ ((reply_text reply.now ++ 32 ∷ encode_lower id.now) ++ 10 ∷ [])) }
{
    put_reply(text, reply)?;
    text.push(b' ')?;
    put_id(text, id)?;
    text.push(b'\n')?;
    Ok(())
}

// The line of the reply, with the id, in the room.
#[tactic(auto, unfolding(mp_answers::specs::AnswerText::given_text))]
fn given_reply_in(room: Text, reply: &Reply, id: &TxId) -> Result<Text, NoMemory>
    requires { room.items ≡ [] }
    ensures { IfOk result (λ text. (names : told.Names)
        → text.items ≡ given_text names (Ok reply.now) id.now) }
{
    let mut text = room;
    put_given_line(&mut text, reply, id)?;
    Ok(text)
}

/// The line of the answer with the transaction's id, in the room for that of an accepted submit.
///
/// # Errors
/// `Untold` if the change was made, and `NoMemory` if it was refused.
pub fn given_line(
    memory: Memory,
    names: &Names,
    room: Text,
    asked: &Asked,
    id: &TxId,
) -> Result<Text, ClientStop>
    requires { room.items ≡ [] }
    ensures ok { IfOk result (λ text. text.items
        ≡ given_text names.now (answer_in asked.now) id.now) }
    ensures err { IfErr result (IsUnanswered (answer_in asked.now)) }
{
    match asked {
        Ok(receipt) => match given_reply_in(room, &receipt.entry.reply, id) {
            Ok(text) => Ok(text),
            Err(_) => Err(ClientStop::Untold),
        },
        Err(refusal) => match given_refused_line(memory, names, refusal, id) {
            Ok(text) => Ok(text),
            Err(_) => Err(ClientStop::NoMemory),
        },
    }
}
