//! The answers of changes, and what they make of a conversation.

ghost use Rattle.std.specs.Prelude.{◌≡◌, [], IfOk, IfErr, OnOk, OnErr};
ghost use Rattle.mp_tx.specs.Spelling.{id_of};
ghost use Rattle.mp_answers.specs.AnswerText.{answer_text, given_text};
ghost use Rattle.mp_serve.specs.Request.{reported_if};
ghost use Rattle.mp_serve.specs.Inside.Answer.{text_of};
ghost use Rattle.mp_clients.specs.Answers.{counting, unstaged};
ghost use Rattle.mp_clients.specs.Inside.Asked.{answer_in, IsUnanswered};

use crate::asking::{Asked, asked_line, given_line};
use crate::client::Client;
use crate::shared::{Room, Shared};
use crate::stop::ClientStop;
use mp_history::PoolName;
use mp_memory::Memory;
use mp_names::{Name, Names};
use mp_rules::Verifier;
use mp_serve::{Answer, Staged, Used, report_under};
use mp_text::Text;
use mp_tx::{Tx, TxId};
use std::sync::Wait;

// If the submit was accepted, the transaction is reported under the name from now on.
fn report_if(names: &mut Names, name: &Name, tx: &Tx, asked: &Asked) -> Result<(), ClientStop>
    ensures ok { OnOk result
        (names.new ≡ reported_if names.old name.now tx.now (answer_in asked.now)) }
    ensures err { IfErr result (IsUnanswered (answer_in asked.now)) }
    ensures same { OnErr result (names.new ≡ names.old) }
{
    match asked {
        Ok(_) => match report_under(names, name, tx) {
            Ok(()) => Ok(()),
            Err(_) => Err(ClientStop::Untold),
        },
        Err(_) => Ok(()),
    }
}

// The line of the answer, once the change is in the history's file.
fn line_of<N: PoolName, V: Verifier>(
    rt: &impl Wait,
    shared: &Shared<N, V>,
    memory: Memory,
    names: &Names,
    room: Room,
    asked: &Asked,
) -> Result<Text, ClientStop>
    requires { room.answer.items ≡ [] }
    ensures ok { IfOk result (λ text. text.items ≡ answer_text names.now (answer_in asked.now)) }
    ensures err { IfErr result (IsUnanswered (answer_in asked.now)) }
{
    let Room { answer, lines } = room;
    match shared.enter(rt, lines, asked) {
        Ok(()) => asked_line(memory, names, answer, asked),
        Err(stop) => Err(stop),
    }
}

// The same with the transaction's id.
fn given_line_of<N: PoolName, V: Verifier>(
    rt: &impl Wait,
    shared: &Shared<N, V>,
    memory: Memory,
    names: &Names,
    room: Room,
    asked: &Asked,
    id: &TxId,
) -> Result<Text, ClientStop>
    requires { room.answer.items ≡ [] }
    ensures ok { IfOk result (λ text. text.items
        ≡ given_text names.now (answer_in asked.now) id.now) }
    ensures err { IfErr result (IsUnanswered (answer_in asked.now)) }
{
    let Room { answer, lines } = room;
    match shared.enter(rt, lines, asked) {
        Ok(()) => given_line(memory, names, answer, asked, id),
        Err(stop) => Err(stop),
    }
}

/// The line of the answer, once the change is in the history's file. A refusal is counted.
///
/// # Errors
/// `Untold` if the change was made, and `NoMemory` if it was refused.
pub fn finish<N: PoolName, V: Verifier>(
    rt: &impl Wait,
    shared: &Shared<N, V>,
    memory: Memory,
    names: &Names,
    client: &mut Client<N>,
    room: Room,
    asked: &Asked,
) -> Result<Answer, ClientStop>
    requires { room.answer.items ≡ [] }
    ensures ok { IfOk result (λ a. text_of a ≡ answer_text names.now (answer_in asked.now)) }
    ensures client { OnOk result (client.new ≡ counting (answer_in asked.now) client.old) }
    ensures err { IfErr result (IsUnanswered (answer_in asked.now)) }
    ensures same { OnErr result (client.new ≡ client.old) }
{
    match line_of(rt, shared, memory, names, room, asked) {
        Ok(text) => {
            client.count_refusal(asked);
            Ok(Answer::Line(text))
        }
        Err(stop) => Err(stop),
    }
}

/// The same for a transaction without a name.
pub fn finish_given<N: PoolName, V: Verifier>(
    rt: &impl Wait,
    shared: &Shared<N, V>,
    memory: Memory,
    names: &Names,
    client: &mut Client<N>,
    room: Room,
    tx: &Tx,
    asked: &Asked,
) -> Result<Answer, ClientStop>
    requires { room.answer.items ≡ [] }
    ensures ok { IfOk result (λ a.
        text_of a ≡ given_text names.now (answer_in asked.now) (id_of tx.now)) }
    ensures client { OnOk result (client.new ≡ counting (answer_in asked.now) client.old) }
    ensures err { IfErr result (IsUnanswered (answer_in asked.now)) }
    ensures same { OnErr result (client.new ≡ client.old) }
{
    match given_line_of(rt, shared, memory, names, room, asked, tx.id()) {
        Ok(text) => {
            client.count_refusal(asked);
            Ok(Answer::Line(text))
        }
        Err(stop) => Err(stop),
    }
}

/// The same for a transaction with a name. If it was accepted, it is reported under the name from now on.
pub fn finish_submit<N: PoolName, V: Verifier>(
    rt: &impl Wait,
    shared: &Shared<N, V>,
    memory: Memory,
    names: &mut Names,
    client: &mut Client<N>,
    room: Room,
    name: &Name,
    tx: &Tx,
    asked: &Asked,
) -> Result<Answer, ClientStop>
    requires { room.answer.items ≡ [] }
    ensures ok { IfOk result (λ a. text_of a ≡ answer_text names.old (answer_in asked.now)) }
    ensures client { OnOk result (client.new ≡ counting (answer_in asked.now) client.old) }
    ensures names { OnOk result
        (names.new ≡ reported_if names.old name.now tx.now (answer_in asked.now)) }
    ensures err { IfErr result (IsUnanswered (answer_in asked.now)) }
    ensures same { OnErr result (client.new ≡ client.old) }
    ensures kept { OnErr result (names.new ≡ names.old) }
{
    match line_of(rt, shared, memory, names, room, asked) {
        Ok(text) => match report_if(names, name, tx, asked) {
            Ok(()) => {
                client.count_refusal(asked);
                Ok(Answer::Line(text))
            }
            Err(stop) => Err(stop),
        },
        Err(stop) => Err(stop),
    }
}

/// If the change was made, what it used isn't staged any more.
pub fn forget_used(staged: &mut Staged, used: Used, asked: &Asked)
    ensures { staged.new ≡ unstaged staged.old used (answer_in asked.now) }
{
    match asked {
        Ok(_) => staged.forget(used),
        Err(_) => {}
    }
}
