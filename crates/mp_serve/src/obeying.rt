//! Commands to the pool, and their answers.

ghost use Rattle.std.specs.Prelude.{◌≡◌, ◌≤◌, ◌^◌, Some, Err, IfOk, IfErr, OnOk, OnErr};
ghost use Rattle.std.specs.Result.{result_err};
ghost use Rattle.std.specs.Arc.{arc_value};
ghost use Rattle.mp_seqpool.specs.Command.{Submit};
ghost use Rattle.mp_seqpool.specs.Inside.Command.{command_of};
ghost use Rattle.mp_seqpool.specs.Prepared.{Prepares};
ghost use Rattle.mp_seqpool.specs.SlowPool.{answer, next, AreSigned, IsRefused};
ghost use Rattle.mp_tx.specs.Spelling.{id_of};
ghost use Rattle.mp_answers.specs.AnswerText.{answer_text, given_text};
ghost use Rattle.mp_signatures.specs.Scheme.{accepted_by};
ghost use Rattle.mp_serve.specs.Request.{counted_anew, reported_as, reported_if};
ghost use Rattle.mp_serve.specs.Inside.Pool.{IsReady};
ghost use Rattle.mp_serve.specs.Inside.KeepsLedger.{KeepsLedger};

use mp_answers::{answer_line, given_refused_line, given_reply_line, reply_line};
use mp_memory::{Memory, NoMemory};
use mp_names::{Name, Names};
use mp_seqpool::{Command, Prepared, Refusal, SeqPool};
use mp_signatures::Signatures;
use mp_text::Text;
use mp_tx::{Tx, TxId};
use std::sync::Arc;

fn prepare(
    signatures: &Signatures,
    pool: &mut SeqPool,
    command: &Command,
) -> Result<Prepared, Refusal>
    requires { AreSigned (accepted_by signatures.now) pool.old.pool }
    ensures same { pool.new.pool ≡ pool.old.pool }
    ensures ready { IfOk result
        (Prepares (accepted_by signatures.now) pool.new (command_of command.now)) }
    ensures refused { IfErr result
        (IsRefused (accepted_by signatures.now) pool.old.pool (command_of command.now)) }
{
    match command {
        Command::Submit(tx) => pool.prepare_submit(tx, None, signatures),
        Command::Remove(ids) => pool.prepare_remove(ids, signatures),
        Command::Sync(ledger) => pool.prepare_sync(ledger, signatures),
    }
}

// Counts the changes from 0 again if the pool has made as many as it may.
fn count_anew(pool: &mut SeqPool)
    requires least { 1 ≤ pool.old.pool.limit }
    requires most { pool.old.pool.limit ≤ 2 ^ 32 }
    ensures { pool.new.pool ≡ counted_anew pool.old.pool }
{
    let limit = pool.config().limit;
    if limit <= pool.changes() {
        pool.renew(limit);
    }
}

/// The line that answers a command, and the refusal if it is refused.
pub type Answered = (Text, Option<Refusal>);

fn refused(memory: Memory, names: &Names, refusal: &Refusal) -> Result<Answered, NoMemory>
    ensures text { IfOk result (λ r. r.0.items ≡ answer_text names.now (Err refusal.now)) }
    ensures refusal { IfOk result (λ r. r.1 ≡ Some refusal.now) }
{
    let text = answer_line(memory, names, &Err(*refusal))?;
    Ok((text, Some(*refusal)))
}

// Does what is asked. The line is allocated first, so that nothing has to be undone.
fn carry_out(
    memory: Memory,
    names: &Names,
    signatures: &Signatures,
    pool: &mut SeqPool,
    command: &Command,
) -> Result<Answered, NoMemory>
    requires { IsReady (accepted_by signatures.now) pool.old.pool }
    ensures pool { OnOk result (pool.new.pool
        ≡ counted_anew (next (accepted_by signatures.now) pool.old.pool (command_of command.now))) }
    ensures text { IfOk result (λ r. r.0.items ≡ answer_text names.now
        (answer (accepted_by signatures.now) pool.old.pool (command_of command.now))) }
    ensures refusal { IfOk result (λ r. r.1
        ≡ result_err (answer (accepted_by signatures.now) pool.old.pool (command_of command.now))) }
    ensures err { OnErr result (pool.new.pool ≡ pool.old.pool) }
{
    match prepare(signatures, pool, command) {
        Ok(prepared) => {
            let text = reply_line(memory, prepared.reply())?;
            let _ = pool.finish(prepared);
            count_anew(pool);
            Ok((text, None))
        }
        Err(refusal) => match refusal {
            Refusal::NoMemory => Err(NoMemory),
            other => refused(memory, names, &other),
        },
    }
}

/// Does what is asked. Returns the line of the answer, and the refusal if it is refused. After an `Err` nothing has changed.
pub fn obey(
    memory: Memory,
    names: &Names,
    signatures: &Signatures,
    pool: &mut SeqPool,
    command: &Command,
) -> Result<Answered, NoMemory>
    requires { IsReady (accepted_by signatures.now) pool.old.pool }
    ensures pool { OnOk result (pool.new.pool
        ≡ counted_anew (next (accepted_by signatures.now) pool.old.pool (command_of command.now))) }
    ensures text { IfOk result (λ r. r.0.items ≡ answer_text names.now
        (answer (accepted_by signatures.now) pool.old.pool (command_of command.now))) }
    ensures refusal { IfOk result (λ r. r.1
        ≡ result_err (answer (accepted_by signatures.now) pool.old.pool (command_of command.now))) }
    ensures err { OnErr result (pool.new.pool ≡ pool.old.pool) }
    ensures ready { IsReady (accepted_by signatures.now) pool.new.pool }
    ensures ledger { KeepsLedger (command_of command.now)
        → pool.new.pool.ledger ≡ pool.old.pool.ledger }
{
    carry_out(memory, names, signatures, pool, command)
}

/// From now on the transaction is reported under the name. After an `Err` nothing has changed.
pub fn report_under(names: &mut Names, name: &Name, tx: &Tx) -> Result<(), NoMemory>
    ensures ok { OnOk result (names.new ≡ reported_as names.old name.now tx.now) }
    ensures err { OnErr result (names.new ≡ names.old) }
{
    if name.as_bytes() == names.name_of(tx.id()) {
        return Ok(());
    }
    names.report(name.as_bytes())
}

// Submits the transaction. The line is allocated and the name noted first, so that nothing has to be undone.
fn take_in(
    memory: Memory,
    names: &mut Names,
    name: &Name,
    signatures: &Signatures,
    pool: &mut SeqPool,
    tx: &Arc<Tx, Memory>,
) -> Result<Answered, NoMemory>
    requires { IsReady (accepted_by signatures.now) pool.old.pool }
    ensures pool { OnOk result (pool.new.pool
        ≡ counted_anew (next (accepted_by signatures.now) pool.old.pool
        (Submit (arc_value tx.now)))) }
    ensures names { OnOk result (names.new ≡ reported_if names.old name.now (arc_value tx.now)
        (answer (accepted_by signatures.now) pool.old.pool (Submit (arc_value tx.now)))) }
    ensures text { IfOk result (λ r. r.0.items ≡ answer_text names.old
        (answer (accepted_by signatures.now) pool.old.pool (Submit (arc_value tx.now)))) }
    ensures refusal { IfOk result (λ r. r.1
        ≡ result_err (answer (accepted_by signatures.now) pool.old.pool
        (Submit (arc_value tx.now)))) }
    ensures err { OnErr result (pool.new.pool ≡ pool.old.pool) }
    ensures kept { OnErr result (names.new ≡ names.old) }
{
    match pool.prepare_submit(tx, None, signatures) {
        Ok(prepared) => {
            let text = reply_line(memory, prepared.reply())?;
            report_under(names, name, tx)?;
            let _ = pool.finish(prepared);
            count_anew(pool);
            Ok((text, None))
        }
        Err(refusal) => match refusal {
            Refusal::NoMemory => Err(NoMemory),
            other => refused(memory, names, &other),
        },
    }
}

/// Submits the transaction, and reports it under the name from then on if it is accepted. Returns the line of the answer, and the
/// refusal if it is refused. After an `Err` nothing has changed.
pub fn submit(
    memory: Memory,
    names: &mut Names,
    name: &Name,
    signatures: &Signatures,
    pool: &mut SeqPool,
    tx: &Arc<Tx, Memory>,
) -> Result<Answered, NoMemory>
    requires { IsReady (accepted_by signatures.now) pool.old.pool }
    ensures pool { OnOk result (pool.new.pool
        ≡ counted_anew (next (accepted_by signatures.now) pool.old.pool
        (Submit (arc_value tx.now)))) }
    ensures names { OnOk result (names.new ≡ reported_if names.old name.now (arc_value tx.now)
        (answer (accepted_by signatures.now) pool.old.pool (Submit (arc_value tx.now)))) }
    ensures text { IfOk result (λ r. r.0.items ≡ answer_text names.old
        (answer (accepted_by signatures.now) pool.old.pool (Submit (arc_value tx.now)))) }
    ensures refusal { IfOk result (λ r. r.1
        ≡ result_err (answer (accepted_by signatures.now) pool.old.pool
        (Submit (arc_value tx.now)))) }
    ensures err { OnErr result (pool.new.pool ≡ pool.old.pool) }
    ensures kept { OnErr result (names.new ≡ names.old) }
    ensures ready { IsReady (accepted_by signatures.now) pool.new.pool }
    ensures ledger { pool.new.pool.ledger ≡ pool.old.pool.ledger }
{
    take_in(memory, names, name, signatures, pool, tx)
}

fn given_refused(
    memory: Memory,
    names: &Names,
    refusal: &Refusal,
    id: &TxId,
) -> Result<Answered, NoMemory>
    ensures text { IfOk result (λ r.
        r.0.items ≡ given_text names.now (Err refusal.now) id.now) }
    ensures refusal { IfOk result (λ r. r.1 ≡ Some refusal.now) }
{
    let text = given_refused_line(memory, names, refusal, id)?;
    Ok((text, Some(*refusal)))
}

// Submits the transaction. The line is allocated first, so that nothing has to be undone.
fn take_given(
    memory: Memory,
    names: &Names,
    signatures: &Signatures,
    pool: &mut SeqPool,
    tx: &Arc<Tx, Memory>,
) -> Result<Answered, NoMemory>
    requires { IsReady (accepted_by signatures.now) pool.old.pool }
    ensures pool { OnOk result (pool.new.pool
        ≡ counted_anew (next (accepted_by signatures.now) pool.old.pool
        (Submit (arc_value tx.now)))) }
    ensures text { IfOk result (λ r. r.0.items ≡ given_text names.now
        (answer (accepted_by signatures.now) pool.old.pool (Submit (arc_value tx.now)))
        (id_of (arc_value tx.now))) }
    ensures refusal { IfOk result (λ r. r.1
        ≡ result_err (answer (accepted_by signatures.now) pool.old.pool
        (Submit (arc_value tx.now)))) }
    ensures err { OnErr result (pool.new.pool ≡ pool.old.pool) }
{
    match pool.prepare_submit(tx, None, signatures) {
        Ok(prepared) => {
            let text = given_reply_line(memory, prepared.reply(), tx.id())?;
            let _ = pool.finish(prepared);
            count_anew(pool);
            Ok((text, None))
        }
        Err(refusal) => match refusal {
            Refusal::NoMemory => Err(NoMemory),
            other => given_refused(memory, names, &other, tx.id()),
        },
    }
}

/// Submits the transaction. Returns the line of the answer, which has its id, and the refusal if it is refused. After an `Err`
/// nothing has changed.
pub fn give(
    memory: Memory,
    names: &Names,
    signatures: &Signatures,
    pool: &mut SeqPool,
    tx: &Arc<Tx, Memory>,
) -> Result<Answered, NoMemory>
    requires { IsReady (accepted_by signatures.now) pool.old.pool }
    ensures pool { OnOk result (pool.new.pool
        ≡ counted_anew (next (accepted_by signatures.now) pool.old.pool
        (Submit (arc_value tx.now)))) }
    ensures text { IfOk result (λ r. r.0.items ≡ given_text names.now
        (answer (accepted_by signatures.now) pool.old.pool (Submit (arc_value tx.now)))
        (id_of (arc_value tx.now))) }
    ensures refusal { IfOk result (λ r. r.1
        ≡ result_err (answer (accepted_by signatures.now) pool.old.pool
        (Submit (arc_value tx.now)))) }
    ensures err { OnErr result (pool.new.pool ≡ pool.old.pool) }
    ensures ready { IsReady (accepted_by signatures.now) pool.new.pool }
    ensures ledger { pool.new.pool.ledger ≡ pool.old.pool.ledger }
{
    take_given(memory, names, signatures, pool, tx)
}

/// What the submit would answer.
pub fn check(
    memory: Memory,
    names: &Names,
    signatures: &Signatures,
    pool: &mut SeqPool,
    tx: &Arc<Tx, Memory>,
) -> Result<Text, NoMemory>
    ensures pool { pool.new.pool ≡ pool.old.pool }
    ensures text { IfOk result (λ text. text.items ≡ answer_text names.now
        (answer (accepted_by signatures.now) pool.old.pool (Submit (arc_value tx.now)))) }
{
    match pool.prepare_submit(tx, None, signatures) {
        Ok(prepared) => reply_line(memory, prepared.reply()),
        Err(Refusal::NoMemory) => Err(NoMemory),
        Err(refusal) => answer_line(memory, names, &Err(refusal)),
    }
}
