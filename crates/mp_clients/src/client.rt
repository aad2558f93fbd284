//! What a conversation has of the pool that it shares with others.

use crate::adopting::{go_back, go_on};
use crate::asking::{Asked, ask_pool, count_refusal};
use crate::checking::{answer_of, share_held};
use crate::former::state_back;
use crate::reading::{for_line, query_line, stats_line};
use crate::stop::ClientStop;
use mp_answers::answer_line;
use mp_history::PoolName;
use mp_lines::Query;
use mp_memory::{Memory, NoMemory};
use mp_mempool::{Mempool, Pass, Reader};
use mp_names::Names;
use mp_rules::Verifier;
use mp_seqpool::Command;
use mp_serve::{Counts, Former, Formers, count_one, none_counted};
use mp_signatures::Signatures;
use mp_text::Text;
use mp_tx::{Ledger, Tx, TxId};
use mp_versions::keep_valid;
use std::marker::Model;
use std::sync::{Arc, Wait};

/// What a conversation has of the pool that it shares with others. It has its pass, the ledger state that it adopted last, and what
/// leads back to those before it. It counts refusals, and knows what its peer was offered.
pub struct Client<N: PoolName> {
    pass: Pass<N>,
    signatures: Signatures,
    // The limit of changes of the pool.
    limit: u64,
    ledger: Ledger,
    former: Formers,
    refused: Counts,
    cursor: u64,
}

impl<N: PoolName> Drop for Client<N> {
    fn drop(self) {
        let Client {
            pass: _,
            signatures: _,
            limit: _,
            ledger: _,
            former: _,
            refused: _,
            cursor: _,
        } = self;
    }
}

impl<N: PoolName> Model for Client<N> {
    ghost use Rattle.std.specs.Coded.{codes};
    ghost use Rattle.std.specs.FinMap as finite;
    ghost use Rattle.mp_clients.specs.Client as told;
    ghost use Rattle.mp_clients.specs.Inside.Client.{client_of, IsClient};

    ghost Value = { told.Client };

    ghost coded = { Prim.hlevel (codes, finite.code) };

    ghost view = { λ c. client_of c.pass c.signatures c.ledger c.former.items c.refused c.cursor };

    ghost invariant = { λ c. IsClient N.accepts
        c.signatures c.limit c.pass c.ledger c.former.items };
}

impl<N: PoolName> Client<N> {
    ghost use Rattle.std.specs.Prelude.{◌≡◌, length, is_some, option_map, option_and_then, Some, IfOk, IfErr, OnErr};
    ghost use Rattle.std.specs.Arc.{arc_value};
    ghost use Rattle.mp_signatures.specs.Scheme.{accepted_by};
    ghost use Rattle.mp_tickets.specs.Tickets.{item_at};
    ghost use Rattle.mp_seqpool.specs.Command.{Sync};
    ghost use Rattle.mp_seqpool.specs.SlowPool.{ticket_of};
    ghost use Rattle.mp_seqpool.specs.Inside.Command.{command_of};
    ghost use Rattle.mp_history.specs.Log.{state_after};
    ghost use Rattle.mp_session.specs.Request.{Try, Read};
    ghost use Rattle.mp_serve.specs.Request.{Plain, Check, Count, one_adopt_more, one_back_more};
    ghost use Rattle.mp_serve.specs.ServedPool.{state_back};
    ghost use Rattle.mp_serve.specs.Inside.Former.{LeadsBack};
    ghost use Rattle.mp_clients.specs.Client.{new_client};
    ghost use Rattle.mp_clients.specs.Answers.{HasLooked, IsAsked, counting, moved, gone_on, gone_back};
    ghost use Rattle.mp_clients.specs.Inside.Asked.{answer_in, IsBefore};
    ghost use Rattle.mp_clients.specs.Inside.Steps.{Responds};

    /// The client of a conversation that has asked nothing. The pool opened with the ledger state, for `limit` changes.
    pub fn new(
        memory: Memory,
        pass: Pass<N>,
        signatures: Signatures,
        limit: u64,
        ledger: Ledger,
    ) -> Client<N>
        requires verifier { accepted_by signatures ≡ N.accepts }
        requires limit { limit ≡ pass.front.opening.limit }
        ensures { result ≡ new_client pass signatures ledger }
    {
        Client {
            pass,
            signatures,
            limit,
            ledger,
            former: Vec::new(memory),
            refused: none_counted(),
            cursor: 0,
        }
    }

    /// The number of the caller.
    pub(crate) fn caller(&self) -> u32
        ensures { result ≡ self.now.pass.caller }
    {
        self.pass.caller()
    }

    /// Its pass.
    pub(crate) fn pass(&self) -> &Pass<N>
        ensures { result.now ≡ self.now.pass }
    {
        &self.pass
    }

    /// The signatures that the pool accepts.
    pub(crate) fn signatures(&self) -> &Signatures
        ensures same { result.now ≡ self.now.signatures }
        ensures verifier { accepted_by result.now ≡ N.accepts }
    {
        &self.signatures
    }

    /// The ledger state that it adopted last.
    pub(crate) fn ledger(&self) -> &Ledger
        ensures { result.now ≡ self.now.ledger }
    {
        &self.ledger
    }

    /// How many ledger states before that one are kept.
    pub(crate) fn kept_back(&self) -> usize
        ensures { result ≡ length self.now.former }
    {
        self.former.len()
    }

    /// The ledger state this many steps ago, if it is kept.
    ///
    /// # Errors
    /// `NoMemory`.
    pub(crate) fn state_back(
        &self,
        memory: Memory,
        count: usize,
    ) -> Result<Option<Ledger>, NoMemory>
        ensures { IfOk result (λ l. l ≡ state_back self.now.former self.now.ledger count) }
    {
        state_back(memory, &self.former, &self.ledger, count)
    }

    /// Looks at the newest version.
    pub(crate) fn look<V: Verifier>(&mut self, reader: &Reader<N, V>)
        ensures { HasLooked N.accepts N.callers self.old self.new }
    {
        reader.refresh(&mut self.pass);
    }

    /// Whether the pool that it has seen holds a transaction with this id.
    pub(crate) fn holds(&self, id: &TxId) -> bool
        ensures { result
            ≡ is_some (ticket_of id.now (state_after N.accepts self.now.pass.front).items) }
    {
        self.pass.shown().version().has(id)
    }

    /// The transaction with this id, if the pool that it has seen holds it.
    ///
    /// # Errors
    /// `NoMemory`.
    pub(crate) fn share_held(&self, id: &TxId) -> Result<Option<Arc<Tx, Memory>>, NoMemory>
        ensures { IfOk result (λ t. option_map arc_value t ≡ option_and_then
            (item_at (state_after N.accepts self.now.pass.front).items)
            (ticket_of id.now (state_after N.accepts self.now.pass.front).items)) }
    {
        share_held(self.pass.shown().version(), id)
    }

    /// The peer is offered all transactions again.
    pub(crate) fn offer_again(&mut self)
        ensures { self.new ≡ record self.old { cursor = 0 } }
    {
        self.cursor = 0;
    }

    /// Answers the query. An offer moves the cursor.
    ///
    /// # Errors
    /// `NoMemory`. Then nothing has changed.
    pub(crate) fn query(
        &mut self,
        memory: Memory,
        names: &Names,
        query: Query,
    ) -> Result<Text, NoMemory>
        ensures ok { IfOk result (λ text. Responds N.accepts names.now
            self.old (Plain (Read query)) text.items self.new) }
        ensures err { OnErr result (self.new ≡ self.old) }
    {
        let shown = self.pass.shown();
        let line = query_line(memory, names, self.cursor, shown, query)?;
        let (text, cursor) = line;
        self.cursor = cursor;
        Ok(text)
    }

    /// Which transactions would stay on the ledger state.
    ///
    /// # Errors
    /// `NoMemory`.
    pub(crate) fn kept(
        &self,
        memory: Memory,
        names: &Names,
        ledger: &Ledger,
    ) -> Result<Text, NoMemory>
        ensures { IfOk result (λ text. Responds N.accepts names.now
            self.now (Plain (Try ledger.now)) text.items self.now) }
    {
        let version = self.pass.shown().version();
        let _most = version.bytes();
        let kept = keep_valid(memory, version.contents(), ledger, &self.signatures)?;
        for_line(memory, names, kept.items.as_slice())
    }

    /// What the submit of the transaction would answer.
    ///
    /// # Errors
    /// `NoMemory`.
    pub(crate) fn check(
        &self,
        memory: Memory,
        names: &Names,
        tx: &Arc<Tx, Memory>,
    ) -> Result<Text, NoMemory>
        ensures { IfOk result (λ text. Responds N.accepts names.now
            self.now (Check (arc_value tx.now)) text.items self.now) }
    {
        let version = self.pass.shown().version();
        let answer = answer_of(memory, version, self.limit, tx, &self.signatures)?;
        answer_line(memory, names, &answer)
    }

    /// The pool's numbers.
    ///
    /// # Errors
    /// `NoMemory`.
    pub(crate) fn count(&self, memory: Memory, names: &Names) -> Result<Text, NoMemory>
        ensures { IfOk result (λ text. Responds N.accepts names.now
            self.now Count text.items self.now) }
    {
        let _ = names;
        stats_line(memory, self.pass.shown().version(), &self.refused)
    }

    /// Asks for the change, which keeps the ledger state. A refusal isn't counted.
    ///
    /// # Errors
    /// Then nothing has changed.
    pub(crate) fn change<V: Verifier>(
        &mut self,
        rt: &impl Wait,
        pool: &Mempool<N, V>,
        command: &Command,
    ) -> Result<Asked, ClientStop>
        ensures ok { IfOk result (λ asked. IsAsked N.accepts N.callers
            self.old (command_of command.now) (moved self.old) (answer_in asked) self.new) }
        ensures err { OnErr result (self.new ≡ self.old) }
        ensures before { IfErr result IsBefore }
    {
        ask_pool(rt, pool, &mut self.pass, command)
    }

    /// Adopts a new ledger state, and keeps how to go back to the one before it. A refusal isn't counted.
    ///
    /// # Errors
    /// Then nothing has changed.
    pub(crate) fn go_on<V: Verifier>(
        &mut self,
        rt: &impl Wait,
        pool: &Mempool<N, V>,
        ledger: Ledger,
        former: Former,
    ) -> Result<Asked, ClientStop>
        requires { LeadsBack ledger former self.old.ledger }
        ensures ok { IfOk result (λ asked. IsAsked N.accepts N.callers
            self.old (Sync ledger) (gone_on self.old ledger) (answer_in asked) self.new) }
        ensures err { OnErr result (self.new ≡ self.old) }
        ensures before { IfErr result IsBefore }
    {
        let (formers, now) = (&mut self.former, &mut self.ledger);
        go_on(rt, pool, &mut self.pass, formers, now, ledger, former)
    }

    /// Adopts the ledger state this many steps ago, which is given. A refusal isn't counted.
    ///
    /// # Errors
    /// Then nothing has changed.
    pub(crate) fn go_back<V: Verifier>(
        &mut self,
        rt: &impl Wait,
        pool: &Mempool<N, V>,
        count: usize,
        ledger: Ledger,
    ) -> Result<Asked, ClientStop>
        requires { state_back self.old.former self.old.ledger count ≡ Some ledger }
        ensures ok { IfOk result (λ asked. IsAsked N.accepts N.callers
            self.old (Sync ledger) (gone_back self.old ledger count) (answer_in asked) self.new) }
        ensures err { OnErr result (self.new ≡ self.old) }
        ensures before { IfErr result IsBefore }
    {
        let left = self.former.len() - count;
        let (formers, now) = (&mut self.former, &mut self.ledger);
        go_back(rt, pool, &mut self.pass, formers, now, left, ledger)
    }

    /// Counts the refusal, if there is one.
    pub(crate) fn count_refusal(&mut self, asked: &Asked)
        ensures { self.new ≡ counting (answer_in asked.now) self.old }
    {
        count_refusal(&mut self.refused, asked);
    }

    /// Counts a refused block.
    pub(crate) fn count_adopt(&mut self)
        ensures { self.new ≡ record self.old { refused = one_adopt_more self.old.refused } }
    {
        count_one(&mut self.refused.adopts);
    }

    /// Counts a request to go back too far.
    pub(crate) fn count_back(&mut self)
        ensures { self.new ≡ record self.old { refused = one_back_more self.old.refused } }
    {
        count_one(&mut self.refused.backs);
    }
}
