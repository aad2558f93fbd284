//! The pool of a conversation.

use crate::adopting::{go_back, go_on};
use crate::block::ResolvedBlock;
use crate::extending::{Extended, extend};
use crate::former::{Former, Formers};
use crate::obeying::{check, give, obey, submit};
use crate::refused::{Counts, count_if_refused, count_one, none_counted};
use crate::request::Request;
use crate::texts::{back_refused_line, stats_line};
use mp_answers::{kept_line, query_line};
use mp_lines::Query;
use mp_memory::{Memory, NoMemory};
use mp_names::{Name, Names};
use mp_rules::AppliedBlock;
use mp_seqpool::{Command, Config, SeqPool};
use mp_session as session;
use mp_session::{Beginning, Settings};
use mp_signatures::Signatures;
use mp_text::Text;
use mp_tx::{Ledger, Tx, TxId};
use std::marker::Model;
use std::sync::Arc;

/// The line that answers, and whether the ledger state is adopted.
pub type Adopted = (Text, bool);

/// The pool of a conversation, used by one thread, with what leads back to its former ledger states, at most 2,160. After as many
/// changes as it may make, it counts them from 0 again and goes on. Its last ticket stays.
pub struct ServedPool {
    pool: SeqPool,
    signatures: Signatures,
    former: Formers,
    refused: Counts,
    // The last ticket that the peer was offered.
    cursor: u64,
}

impl Drop for ServedPool {
    fn drop(self) {
        let ServedPool {
            pool: _,
            signatures: _,
            former: _,
            refused: _,
            cursor: _,
        } = self;
    }
}

impl Model for ServedPool {
    ghost use Rattle.std.specs.Coded.{codes};
    ghost use Rattle.std.specs.FinMap as finite;
    ghost use Rattle.mp_serve.specs.ServedPool as told;

    ghost Value = { told.ServedPool };

    ghost coded = { Prim.hlevel (codes, finite.code) };

    ghost use Rattle.mp_serve.specs.Inside.ServedPool.{served_of, IsServed};

    ghost view = { served_of };

    ghost invariant = { IsServed };
}

impl ServedPool {
    ghost use Rattle.std.specs.Prelude.{◌≡◌, IfOk, OnOk, OnErr, is_some, option_map, option_and_then};
    ghost use Rattle.mp_tickets.specs.Tickets.{item_at};
    ghost use Rattle.mp_seqpool.specs.SlowPool.{ticket_of};
    ghost use Rattle.mp_serve.specs.Talk.{opened};
    ghost use Rattle.std.specs.Arc.{arc_value};
    ghost use Rattle.mp_seqpool.specs.Command.{Submit};
    ghost use Rattle.mp_seqpool.specs.Inside.Command.{command_of};
    ghost use Rattle.mp_session.specs.Inside.Request as sessions;
    ghost use Rattle.mp_serve.specs.Request.{Return, Check, answer_to, reported_if, do_command, go_on, adopt_block, is_adopted, change, read, give, respond_plainly, respond};
    ghost use Rattle.mp_serve.specs.Inside.KeepsLedger.{KeepsLedger};
    ghost use Rattle.mp_serve.specs.Inside.Request.{to_request};

    /// The empty pool on the opening outputs, which accepts these signatures. `beginning` doesn't change.
    pub fn open(
        memory: Memory,
        signatures: &Signatures,
        settings: &Settings,
        beginning: &Beginning,
    ) -> Result<ServedPool, NoMemory>
        ensures { IfOk result (λ p. p ≡ opened signatures.now settings.now beginning.now) }
    {
        let ledger = beginning.open(memory, settings)?;
        let config = Config {
            limit: settings.limit(),
            last: settings.last(),
        };
        Ok(ServedPool {
            pool: SeqPool::start(memory, config, &ledger)?,
            signatures: signatures.share()?,
            former: Vec::new(memory),
            refused: none_counted(),
            cursor: 0,
        })
    }

    /// Whether the pool holds a transaction with this id.
    pub fn holds(&self, id: &TxId) -> bool
        ensures { result ≡ is_some (ticket_of id.now self.now.pool.items) }
    {
        self.pool.ticket_of(id).is_some()
    }

    /// The peer is offered all transactions again.
    pub fn offer_again(&mut self)
        ensures { self.new ≡ record self.old { cursor = 0 } }
    {
        self.cursor = 0;
    }

    /// The transaction with this id, if the pool holds it.
    pub fn share_held(&self, id: &TxId) -> Result<Option<Arc<Tx, Memory>>, NoMemory>
        ensures { IfOk result (λ t. option_map arc_value t
            ≡ option_and_then (item_at self.now.pool.items)
            (ticket_of id.now self.now.pool.items)) }
    {
        let Some(ticket) = self.pool.ticket_of(id) else {
            return Ok(None);
        };
        match self.pool.get(ticket) {
            Some(tx) => Ok(Some(Arc::try_clone(tx)?)),
            None => Ok(None),
        }
    }

    // Submits the transaction. A refusal is counted. The answer has the transaction's id.
    fn give(
        &mut self,
        memory: Memory,
        names: &Names,
        tx: &Arc<Tx, Memory>,
    ) -> Result<Text, NoMemory>
        ensures ok { IfOk result (λ text.
            give names.now self.old (arc_value tx.now) ≡ (self.new, text.items)) }
        ensures err { OnErr result (self.new ≡ self.old) }
    {
        let (text, refusal) = give(memory, names, &self.signatures, &mut self.pool, tx)?;
        count_if_refused(&mut self.refused, &refusal);
        Ok(text)
    }

    /// Submits the transaction, and reports it under the name from then on if it is accepted. A refusal is counted.
    ///
    /// # Errors
    /// `NoMemory`. Then nothing has changed.
    pub fn submit(
        &mut self,
        memory: Memory,
        names: &mut Names,
        name: &Name,
        tx: &Arc<Tx, Memory>,
    ) -> Result<Text, NoMemory>
        ensures ok { IfOk result (λ text.
            do_command names.old self.old (Submit (arc_value tx.now)) ≡ (self.new, text.items)) }
        ensures names { OnOk result (names.new
            ≡ reported_if names.old name.now (arc_value tx.now)
            (answer_to self.old (Submit (arc_value tx.now)))) }
        ensures err { OnErr result (self.new ≡ self.old) }
        ensures kept { OnErr result (names.new ≡ names.old) }
    {
        let pool = &mut self.pool;
        let (text, refusal) = submit(memory, names, name, &self.signatures, pool, tx)?;
        count_if_refused(&mut self.refused, &refusal);
        Ok(text)
    }

    // Does what is asked of the ledger state that the pool has. A refusal is counted.
    fn execute(
        &mut self,
        memory: Memory,
        names: &Names,
        command: &Command,
    ) -> Result<Text, NoMemory>
        requires { KeepsLedger (command_of command.now) }
        ensures ok { IfOk result (λ text. do_command names.now self.old (command_of command.now)
            ≡ (self.new, text.items)) }
        ensures err { OnErr result (self.new ≡ self.old) }
    {
        let (text, refusal) = obey(memory, names, &self.signatures, &mut self.pool, command)?;
        count_if_refused(&mut self.refused, &refusal);
        Ok(text)
    }

    // Adopts a new ledger state. The previous one is stored whole.
    fn adopt(&mut self, memory: Memory, names: &Names, ledger: &Ledger) -> Result<Text, NoMemory>
        ensures ok { IfOk result (λ text.
            go_on names.now self.old ledger.now ≡ (self.new, text.items)) }
        ensures err { OnErr result (self.new ≡ self.old) }
    {
        let former = Former::Whole(self.pool.ledger().share()?);
        go_on(
            memory,
            names,
            &self.signatures,
            &mut self.pool,
            &mut self.former,
            ledger.share()?,
            former,
        )
    }

    /// Adopts the ledger state after the block, or answers which of its transactions isn't valid after those before it.
    ///
    /// # Errors
    /// `NoMemory`. Then nothing has changed.
    pub fn adopt_block(
        &mut self,
        memory: Memory,
        names: &Names,
        block: &ResolvedBlock,
    ) -> Result<Adopted, NoMemory>
        ensures ok { IfOk result (λ r.
            adopt_block names.now self.old block.now ≡ (self.new, r.0.items)) }
        ensures adopted { IfOk result (λ r. r.1 ≡ is_adopted self.old block.now) }
        ensures err { OnErr result (self.new ≡ self.old) }
    {
        match extend(memory, names, &self.signatures, self.pool.ledger(), block)? {
            Extended::To(applied) => {
                let AppliedBlock { ledger, undo } = applied;
                let text = go_on(
                    memory,
                    names,
                    &self.signatures,
                    &mut self.pool,
                    &mut self.former,
                    ledger,
                    Former::Block(undo),
                )?;
                Ok((text, true))
            }
            Extended::Refused(text) => {
                count_one(&mut self.refused.adopts);
                Ok((text, false))
            }
        }
    }

    // Adopts the ledger state this many steps ago, or answers how many are kept.
    fn return_by(&mut self, memory: Memory, names: &Names, count: u64) -> Result<Text, NoMemory>
        ensures ok { IfOk result (λ text.
            respond names.now self.old (Return count) ≡ (self.new, text.items)) }
        ensures err { OnErr result (self.new ≡ self.old) }
    {
        let count = count as usize;
        let kept = self.former.len();
        if count > kept {
            let text = back_refused_line(memory, kept as u64)?;
            count_one(&mut self.refused.backs);
            return Ok(text);
        }
        go_back(
            memory,
            names,
            &self.signatures,
            &mut self.pool,
            &mut self.former,
            kept - count,
        )
    }

    // Makes the change.
    fn change(&mut self, memory: Memory, names: &Names, command: &Command) -> Result<Text, NoMemory>
        ensures ok { IfOk result (λ text. change names.now self.old (command_of command.now)
            ≡ (self.new, text.items)) }
        ensures err { OnErr result (self.new ≡ self.old) }
    {
        match command {
            Command::Submit(_) => self.execute(memory, names, command),
            Command::Remove(_) => self.execute(memory, names, command),
            Command::Sync(ledger) => self.adopt(memory, names, ledger),
        }
    }

    // Answers the query. An offer moves the cursor.
    fn read(&mut self, memory: Memory, names: &Names, query: Query) -> Result<Text, NoMemory>
        ensures ok { IfOk result (λ text.
            read names.now self.old query ≡ (self.new, text.items)) }
        ensures err { OnErr result (self.new ≡ self.old) }
    {
        let (text, cursor) = query_line(memory, names, self.cursor, &self.pool, query)?;
        self.cursor = cursor;
        Ok(text)
    }

    // Does what a line of a scenario asks.
    fn respond_plainly(
        &mut self,
        memory: Memory,
        names: &Names,
        request: &session::Request,
    ) -> Result<Text, NoMemory>
        ensures ok { IfOk result (λ text.
            respond_plainly names.now self.old (sessions.to_request request.now)
            ≡ (self.new, text.items)) }
        ensures err { OnErr result (self.new ≡ self.old) }
    {
        match request {
            session::Request::Change(command) => self.change(memory, names, command),
            session::Request::Try(ledger) => {
                kept_line(memory, names, &self.pool, ledger, &self.signatures)
            }
            session::Request::Read(query) => self.read(memory, names, *query),
        }
    }

    // What the submit of the transaction would answer.
    fn check(
        &mut self,
        memory: Memory,
        names: &Names,
        tx: &Arc<Tx, Memory>,
    ) -> Result<Text, NoMemory>
        ensures ok { IfOk result (λ text.
            respond names.now self.old (Check (arc_value tx.now)) ≡ (self.new, text.items)) }
        ensures err { OnErr result (self.new ≡ self.old) }
    {
        check(memory, names, &self.signatures, &mut self.pool, tx)
    }

    /// Does what is asked, and returns the line of the answer.
    ///
    /// # Errors
    /// `NoMemory`. Then nothing has changed.
    pub fn respond(
        &mut self,
        memory: Memory,
        names: &Names,
        request: &Request,
    ) -> Result<Text, NoMemory>
        ensures ok { IfOk result (λ text.
            respond names.now self.old (to_request request.now) ≡ (self.new, text.items)) }
        ensures err { OnErr result (self.new ≡ self.old) }
    {
        match request {
            Request::Plain(request) => self.respond_plainly(memory, names, request),
            Request::Return(count) => self.return_by(memory, names, *count),
            Request::Check(tx) => self.check(memory, names, tx),
            Request::Give(tx) => self.give(memory, names, tx),
            Request::Count => stats_line(memory, &self.pool, &self.refused),
        }
    }
}
