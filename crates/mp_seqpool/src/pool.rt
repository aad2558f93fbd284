//! The sequential pool.

use crate::command::{Answer, Command, Reply};
use crate::config::Config;
use crate::going::{are_among, as_tickets, in_order, insert_in_order};
use crate::ids::Ids;
use crate::kept::Kept;
use crate::leaving::{few_of, take_in_turn, take_leaves, take_told};
use crate::parting::part;
use crate::prepared::{Effect, Prepared, keep_effect};
use crate::refusal::Refusal;
use crate::revalidation::revalidate;
use crate::steps::{adopt_step, append_step, sync_step, take_out_step};
use crate::validated_tx::ValidatedTx;
use mp_memory::{Memory, NoMemory};
use mp_rules::{Checked, Resolved, Verifier, check, check_with};
use mp_tickets::{Iter, Node, TicketList, Tickets, make_node};
use mp_tx::{Ledger, OutRef, Tx, TxId};
use mp_utxo::Overlay;
use std::marker::Model;
use std::sync::Arc;

/// The mempool of one thread (the Mempool API of ouroboros-consensus). Applied in order to the adopted ledger state,
/// every transaction is valid. Each has a ticket, and tickets increase and are never reused. Any of these calls may
/// return `NoMemory` instead of an answer, and then nothing has changed.
///
/// Every step has two parts. A `prepare_` call makes all checks and takes all memory, and doesn't change the pool's
/// content. `finish` executes the step that it returned. `submit`, `remove` and `sync` do both.
///
/// Tables lead from what its transactions spend and make to their tickets, so that a submit doesn't iterate over the
/// pool. A contract sees the pool's content and the room that was reserved in its tables.
pub struct SeqPool {
    memory: Memory,
    config: Config,
    overlay: Overlay,
    items: TicketList<ValidatedTx>,
    last: u64,
    bytes: u64,
    changes: u64,
}

impl Drop for SeqPool {
    fn drop(self) {
        let SeqPool {
            memory: _,
            config: _,
            overlay: _,
            items: _,
            last: _,
            bytes: _,
            changes: _,
        } = self;
    }
}

impl Model for SeqPool {
    ghost use Rattle.std.specs.Coded.{codes};
    ghost use Rattle.std.specs.FinMap as finite;
    ghost use Rattle.mp_seqpool.specs.Pool.{Holding};

    ghost Value = { Holding };

    ghost coded = { Prim.hlevel (codes, finite.code) };

    ghost use Rattle.mp_seqpool.specs.Inside.SeqPool.{holding, IsCounted};

    ghost view = { holding };

    ghost invariant = { IsCounted };
}

impl SeqPool {
    ghost use Rattle.std.specs.Prelude.{◌≡◌, ◌≢◌, ◌⊎◌, ◌+◌, ◌*◌, ◌<◌, ◌≤◌, ◌^◌, ◌==◌, true, List, [], ◌∷◌, length, option_map, All, None, IfNone, IfSome, IfOk, IfErr, OnOk, OnErr, Ok, IsTrue};
    ghost use Rattle.std.specs.Arc.{arc_value};
    ghost use Rattle.std.specs.List.{filter_map};
    ghost use Rattle.std.specs.List.Sorted.{IsStrictlyIncreasing};
    ghost use Rattle.std.specs.Map.Iter.{ShowsInOrder};
    ghost use Rattle.mp_tx.specs.Spelling.{id_of};
    ghost use Rattle.mp_rules.specs.Validity.{IsValid};
    ghost use Rattle.mp_rules.specs.FirstFault.{first_fault};
    ghost use Rattle.mp_rules.specs.Checked.{IsChecked, WasValid};
    ghost use Rattle.mp_tickets.specs.Tickets.{IsRising, has_ticket, item_at, after, shown};
    ghost use Rattle.mp_seqpool.specs.ValidatedTx as validated;
    ghost use Rattle.mp_seqpool.specs.ValidatedTx.{ticketed};
    ghost use Rattle.mp_seqpool.specs.Keep.{transactions, tickets, dropped};
    ghost use Rattle.mp_seqpool.specs.Kept.{IsKeptOf};
    ghost use Rattle.mp_seqpool.specs.Inside.Chained.{all_accepted};
    ghost use Rattle.mp_seqpool.specs.Inside.NamedLeaves.{tickets_named};
    ghost use Rattle.mp_seqpool.specs.Inside.Followed.{EndsAt, IsMadeAmong, DependsOn, DependsAt, AreFollowed, TakesFollowed};
    ghost use Rattle.mp_seqpool.specs.Inside.Steps.{IsKeep, IsAdoption, AdoptsParted};
    ghost use Rattle.mp_seqpool.specs.Inside.Place.{misplaced};
    ghost use Rattle.mp_seqpool.specs.Inside.Rules.{IsBrokenRule};
    ghost use Rattle.mp_seqpool.specs.Command.{Submit, Remove, Sync};
    ghost use Rattle.mp_seqpool.specs.Config.{fresh_pool, renewed};
    ghost use Rattle.mp_seqpool.specs.SlowPool.{answer, next, IsRefused, AreSigned, bytes_held, free_bytes, unspent, ticket_of, HasPlace, pool_with, pool_upon};
    ghost use Rattle.mp_seqpool.specs.Prepared.{Append, Keep, CanAppend, HasApplied, IsLeafAt, GoInTurn, HasRoom, Prepares, IsPrepared, apart, left_by, leads_to};
    ghost use Rattle.mp_seqpool.specs.declared.command.Reply.TheVariants.{Accepted};
    ghost use Rattle.mp_seqpool.specs.Inside.Command.{command_of};

    /// A pool without transactions on the ledger state.
    pub fn start(memory: Memory, config: Config, ledger: &Ledger) -> Result<SeqPool, NoMemory>
        ensures { IfOk result (λ pool. pool.pool ≡ fresh_pool config ledger.now) }
    {
        let items = TicketList::new(memory)?;
        let overlay = Overlay::over(memory, ledger)?;
        Ok(SeqPool {
            memory,
            config,
            overlay,
            items,
            last: config.last,
            bytes: 0,
            changes: 0,
        })
    }

    // Why the pool has no place for the transaction, whatever the rules say.
    #[tactic(auto, unfolding(crate::specs::Inside::Place::misplaced))]
    fn misplaced(&self, tx: &Tx) -> Option<Refusal>
        ensures refusal { result ≡ misplaced self.now.pool tx.now }
        ensures place { IfNone result (HasPlace self.now.pool tx.now) }
        ensures new { IfNone result (ticket_of (id_of tx.now) self.now.pool.items ≡ None) }
    {
        if self.changes >= self.config.limit {
            return Some(Refusal::HistoryFull);
        }
        if self.last == u64::MAX {
            return Some(Refusal::TicketsSpent);
        }
        if let Some(ticket) = self.ticket_of(tx.id()) {
            return Some(Refusal::AlreadyInPool(ticket));
        }
        let need = tx.size();
        let free = self.free_bytes();
        if need > free {
            return Some(Refusal::Full { need, free });
        }
        None
    }

    // Checks the rules after all transactions of the pool, given earlier results for its signatures and scripts.
    fn check_rules<V: Verifier>(
        &self,
        tx: &Tx,
        checked: Option<&Checked>,
        verifier: &V,
    ) -> Result<Resolved, Refusal>
        requires { IfSome checked (λ c. IsChecked (V.accepts verifier.now) tx.now c.now) }
        ensures clear { OnOk result (first_fault (V.accepts verifier.now)
            (unspent self.now.pool) self.now.pool.ledger.tick tx.now ≡ None) }
        ensures valid { IfOk result (WasValid tx.now) }
        ensures fault { IfErr result
            (IsBrokenRule (V.accepts verifier.now) self.now.pool tx.now) }
    {
        let tick = self.overlay.ledger().tick();
        let found = match checked {
            Some(checked) => check_with(self.memory, tx, &self.overlay, tick, checked, verifier),
            None => check(self.memory, tx, &self.overlay, tick, verifier),
        };
        Ok(found?)
    }

    // The step that adds the transaction. It has all memory that it needs.
    fn prepare_append(
        &mut self,
        tx: &Arc<Tx, Memory>,
        resolved: Resolved,
    ) -> Result<Prepared, NoMemory>
        requires place { HasPlace self.old.pool (arc_value tx.now) }
        requires new { ticket_of (id_of (arc_value tx.now)) self.old.pool.items ≡ None }
        requires valid { WasValid (arc_value tx.now) resolved }
        ensures same { self.new.pool ≡ self.old.pool }
        ensures command { IfOk result (λ q. q.command ≡ Submit (arc_value tx.now)) }
        ensures reply { IfOk result (λ q. q.reply ≡ Accepted (self.old.pool.last + 1)) }
        ensures effect { IfOk result (λ q. q.effect
            ≡ Append (record { tx = arc_value tx.now; resolved = resolved })) }
        ensures room { IfOk result (HasRoom self.new) }
    {
        self.overlay.reserve_for(tx)?;
        self.items.reserve()?;
        append_step(self.memory, tx, resolved, self.last + 1)
    }

    /// Prepares to add the transaction with the next ticket, as one change. `checked` has earlier results for its
    /// signatures and scripts, if there are any. Then no signature is checked again, and scripts run again only if the
    /// transaction names other outputs than before.
    ///
    /// # Errors
    /// The first refusal in the order of `Refusal`. For the rules, it has the first rule that fails. It is never
    /// `Refusal::Invalid(Invalid::NoMemory)`: an allocation failure is `Refusal::NoMemory`.
    pub fn prepare_submit<V: Verifier>(
        &mut self,
        tx: &Arc<Tx, Memory>,
        checked: Option<&Checked>,
        verifier: &V,
    ) -> Result<Prepared, Refusal>
        requires { IfSome checked
            (λ c. IsChecked (V.accepts verifier.now) (arc_value tx.now) c.now) }
        ensures same { self.new.pool ≡ self.old.pool }
        ensures ready { IfOk result (Prepares (V.accepts verifier.now)
            self.new (Submit (arc_value tx.now))) }
        ensures refused { IfErr result (IsRefused (V.accepts verifier.now)
            self.old.pool (Submit (arc_value tx.now))) }
    {
        if let Some(refusal) = self.misplaced(tx) {
            return Err(refusal);
        }
        let resolved = self.check_rules(tx, checked, verifier)?;
        Ok(self.prepare_append(tx, resolved)?)
    }

    // Checks all transactions again.
    fn revalidate<V: Verifier>(
        &self,
        ledger: &Ledger,
        without: &[TxId],
        verifier: &V,
    ) -> Result<Kept, NoMemory>
        requires { AreSigned (V.accepts verifier.now) self.now.pool }
        ensures { IfOk result (IsKeptOf (V.accepts verifier.now)
            ledger.now self.now.pool.items without.now) }
    {
        revalidate(self.memory, ledger, &self.items, without, verifier)
    }

    // The tickets of those of these ids that the pool has, in the order of the ids.
    fn tickets_of(&self, ids: &[TxId]) -> Result<Vec<u64, Memory>, NoMemory>
        ensures { IfOk result (λ found. found.items
            ≡ filter_map (λ id. ticket_of id self.now.pool.items) ids.now) }
    {
        let mut found = Vec::with_capacity(self.memory, ids.len())?;
        for id in ids {
            if let Some(ticket) = self.ticket_of(id) {
                found.push(ticket)?;
            }
        }
        Ok(found)
    }

    // The tickets of the transactions with these ids, in order.
    fn named(&self, ids: &[TxId]) -> Result<Tickets, NoMemory>
        ensures { IfOk result (λ named. named ≡ tickets_named ids.now self.now.pool) }
    {
        let mut found = self.tickets_of(ids)?;
        found.sort_unstable();
        found.dedup();
        as_tickets(self.memory, &found)
    }

    // Adds the tickets of the transactions that spend an output of the one with the ticket.
    fn add_spenders(&self, ticket: u64, found: &mut Vec<u64, Memory>) -> Result<(), NoMemory> {
        let Some(tx) = self.get(ticket) else {
            return Ok(());
        };
        let count = tx.outputs().len() as u16;
        for index in 0..count {
            let own = OutRef {
                id: *tx.id(),
                index,
            };
            if let Some(spender) = self.overlay.spender_of(&own) {
                insert_in_order(found, spender)?;
            }
        }
        Ok(())
    }

    // The named tickets and those of all that spend an output of one that goes, in order, if these are at most `most`.
    // Nothing depends on that: `are_followed` checks the result.
    fn follow(&self, named: &Tickets, most: usize) -> Result<Option<Tickets>, NoMemory> {
        let mut found = Vec::from_slice(self.memory, named.as_slice())?;
        for index in 0..most {
            let Some(ticket) = found.get(index).copied() else {
                break;
            };
            self.add_spenders(ticket, &mut found)?;
            if found.len() > most {
                break;
            }
        }
        if found.len() > most {
            return Ok(None);
        }
        Ok(Some(in_order(self.memory, found)?))
    }

    // Whether the pool has a transaction with the ticket, and all its dependents are among those with these tickets.
    // `false` may be returned although they are.
    fn ends_at(&self, ticket: u64, gone: &Tickets) -> bool
        ensures { IsTrue result → EndsAt self.now.pool gone.now ticket }
    {
        match self.get(ticket) {
            Some(tx) => self.overlay.has_dependents_among(tx, gone.as_slice()),
            None => false,
        }
    }

    // Whether a transaction with one of these tickets makes an output at the reference.
    fn is_made_among(&self, reference: &OutRef, gone: &Tickets) -> bool
        ensures { IsTrue result → IsMadeAmong self.now.pool.items gone.now reference.now }
    {
        match self.overlay.maker_of(reference) {
            Some(ticket) => gone.contains(ticket),
            None => false,
        }
    }

    // Whether the transaction spends or reads what one of those makes.
    fn depends_on(&self, tx: &Tx, gone: &Tickets) -> bool
        ensures { IsTrue result → DependsOn self.now.pool.items gone.now tx.now }
    {
        tx.inputs()
            .iter()
            .any(|i| self.is_made_among(&i.from, gone))
            || tx.references().iter().any(|r| self.is_made_among(r, gone))
    }

    fn depends_at(&self, ticket: u64, gone: &Tickets) -> bool
        ensures { IsTrue result → DependsAt self.now.pool gone.now ticket }
    {
        match self.get(ticket) {
            Some(tx) => self.depends_on(tx, gone),
            None => false,
        }
    }

    fn all_end(&self, gone: &Tickets) -> bool
        ensures ended { IsTrue result → All (EndsAt self.now.pool gone.now) gone.now }
        ensures rise { IsStrictlyIncreasing gone.now }
    {
        gone.as_slice()
            .iter()
            .all(|ticket| self.ends_at(*ticket, gone))
    }

    // Whether each of these tickets is named or of a transaction that depends on one that goes.
    fn all_depend(&self, named: &Tickets, gone: &Tickets) -> bool
        ensures { IsTrue result → All (λ n.
            (has_ticket named.now n ≡ true) ⊎ DependsAt self.now.pool gone.now n) gone.now }
    {
        gone.as_slice().iter().all(|ticket| named.contains(*ticket)
            || self.depends_at(*ticket, gone))
    }

    // Whether these tickets are the named ones and those of all that depend on one that goes. `false` says nothing.
    fn are_followed(&self, named: &Tickets, gone: &Tickets) -> bool
        ensures { IsTrue result → AreFollowed self.now.pool named.now gone.now }
    {
        if !are_among(named, gone) {
            return false;
        }
        if !self.all_end(gone) {
            return false;
        }
        self.all_depend(named, gone)
    }

    // The step that takes out the transactions with these ids and their dependents, if these are few.
    fn prepare_followed(&self, ids: &Arc<Ids, Memory>) -> Result<Option<Prepared>, NoMemory>
        ensures { IfOk result (λ step.
            IfSome step (TakesFollowed self.now.pool (arc_value ids.now))) }
    {
        let named = self.named(ids.as_slice())?;
        let most = few_of(self.items.len()).max(named.as_slice().len());
        let Some(gone) = self.follow(&named, most)? else {
            return Ok(None);
        };
        if !self.are_followed(&named, &gone) {
            return Ok(None);
        }
        let asked = Arc::try_clone(ids)?;
        Ok(Some(take_out_step(self.memory, asked, named, gone)?))
    }

    /// Prepares to take out the transactions with these ids, whether they are valid or not, and those that aren't valid
    /// without them. Ids that no transaction of the pool has, and repeated ids, have no effect. It is one change, even
    /// if no transaction goes.
    ///
    /// # Errors
    /// `Refusal::HistoryFull` if the number of changes has reached its limit. `Refusal::NoMemory` may be returned
    /// instead of any answer.
    pub fn prepare_remove<V: Verifier>(
        &self,
        ids: &Arc<Ids, Memory>,
        verifier: &V,
    ) -> Result<Prepared, Refusal>
        requires { AreSigned (V.accepts verifier.now) self.now.pool }
        ensures ready { IfOk result (Prepares (V.accepts verifier.now)
            self.now (Remove (arc_value ids.now))) }
        ensures refused { IfErr result (IsRefused (V.accepts verifier.now)
            self.now.pool (Remove (arc_value ids.now))) }
    {
        if self.changes >= self.config.limit {
            return Err(Refusal::HistoryFull);
        }
        if let Some(step) = self.prepare_followed(ids)? {
            return Ok(step);
        }
        let asked = Arc::try_clone(ids)?;
        let Kept {
            overlay,
            kept,
            named,
            dropped,
        } = self.revalidate(self.overlay.ledger(), ids.as_slice(), verifier)?;
        let effect = keep_effect(self.memory, overlay, kept)?;
        Ok(Prepared {
            command: Command::Remove(asked),
            reply: Reply::Removed { named, dropped },
            effect,
        })
    }

    // The step that adopts the ledger state, if its changes decide which transactions go, and no others depend on
    // these.
    fn prepare_adoption(&self, ledger: &Ledger) -> Result<Option<Prepared>, NoMemory>
        ensures { IfOk result (λ step. IfSome step (AdoptsParted self.now.pool ledger.now)) }
    {
        let most = few_of(self.items.len());
        match part(self.memory, &self.overlay, ledger, &self.items, most)? {
            Some(parted) => Ok(Some(adopt_step(ledger, parted)?)),
            None => Ok(None),
        }
    }

    /// Prepares to adopt the ledger state, and to drop the transactions that aren't valid on it. The others keep their
    /// tickets. None is dropped for its size. It is one change, even if no transaction goes.
    ///
    /// # Errors
    /// `Refusal::HistoryFull` if the number of changes has reached its limit. `Refusal::NoMemory` may be returned
    /// instead of any answer.
    pub fn prepare_sync<V: Verifier>(
        &self,
        ledger: &Ledger,
        verifier: &V,
    ) -> Result<Prepared, Refusal>
        requires { AreSigned (V.accepts verifier.now) self.now.pool }
        ensures ready { IfOk result (Prepares (V.accepts verifier.now)
            self.now (Sync ledger.now)) }
        ensures refused { IfErr result (IsRefused (V.accepts verifier.now)
            self.now.pool (Sync ledger.now)) }
    {
        if self.changes >= self.config.limit {
            return Err(Refusal::HistoryFull);
        }
        if let Some(step) = self.prepare_adoption(ledger)? {
            return Ok(step);
        }
        let adopted = ledger.share()?;
        let left = self.revalidate(ledger, &[], verifier)?;
        Ok(sync_step(self.memory, adopted, left)?)
    }

    /// The tickets that a sync to the ledger state would drop, even at the limit of changes. The pool doesn't change.
    ///
    /// # Errors
    /// `NoMemory`.
    pub fn dropped_upon<V: Verifier>(
        &self,
        ledger: &Ledger,
        verifier: &V,
    ) -> Result<Tickets, NoMemory>
        requires { AreSigned (V.accepts verifier.now) self.now.pool }
        ensures { IfOk result (λ gone. gone
            ≡ dropped (V.accepts verifier.now) ledger.now self.now.pool.items) }
    {
        let tried = self.revalidate(ledger, &[], verifier)?;
        Ok(tried.dropped)
    }

    // Appends the item.
    fn append(&mut self, node: Node<ValidatedTx>, applied: Arc<Tx, Memory>)
        requires one { arc_value applied ≡ node.tx }
        requires can { CanAppend self.old node }
        requires valid { IsValid all_accepted
            (unspent self.old.pool) self.old.pool.ledger.tick node.tx }
        ensures { self.new.pool ≡ pool_with self.old.pool node.tx }
    {
        let ticket = self.last + 1;
        self.bytes += applied.size();
        self.overlay.apply(ticket, applied);
        self.items.push_node(ticket, node);
        self.last = ticket;
        self.changes += 1;
    }

    // Adds the transaction, with the effect of the step of `prepare_append`, but without making that step.
    fn take_in(&mut self, tx: &Arc<Tx, Memory>, resolved: Resolved) -> Result<Reply, NoMemory>
        requires place { HasPlace self.old.pool (arc_value tx.now) }
        requires new { ticket_of (id_of (arc_value tx.now)) self.old.pool.items ≡ None }
        requires valid { WasValid (arc_value tx.now) resolved }
        requires rules { IsValid all_accepted
            (unspent self.old.pool) self.old.pool.ledger.tick (arc_value tx.now) }
        ensures reply { IfOk result (λ reply. reply ≡ Accepted (self.old.pool.last + 1)) }
        ensures next { OnOk result (self.new.pool ≡ pool_with self.old.pool (arc_value tx.now)) }
        ensures err { OnErr result (self.new.pool ≡ self.old.pool) }
    {
        self.overlay.reserve_for(tx)?;
        self.items.reserve()?;
        let applied = Arc::try_clone(tx)?;
        let item = ValidatedTx {
            tx: Arc::try_clone(tx)?,
            resolved,
        };
        let Ok(node) = make_node(self.memory, item) else {
            return Err(NoMemory);
        };
        let ticket = self.last + 1;
        self.append(node, applied);
        Ok(Reply::Accepted { ticket })
    }

    // Takes out what the reply names, each by its ticket.
    fn leave(&mut self, overlay: Overlay, reply: &Reply)
        requires change { self.old.pool.changes < self.old.pool.limit }
        requires applied { HasApplied overlay (left_by reply.now self.old.pool.items) }
        requires told { IsKeep self.old overlay reply.now }
        ensures { self.new.pool ≡ pool_upon self.old.pool overlay.ledger
            (left_by reply.now self.old.pool.items) }
    {
        self.bytes -= take_told(&mut self.items, reply);
        self.overlay = overlay;
        self.changes += 1;
    }

    // Takes out the transactions with these tickets, as the reply says. No others depend on them.
    fn take_out(&mut self, gone: &Tickets, reply: &Reply)
        requires change { self.old.pool.changes < self.old.pool.limit }
        requires turn { GoInTurn self.old.pool.ledger self.old.pool.items gone.now }
        requires told { apart gone.now self.old.pool.items
            ≡ left_by reply.now self.old.pool.items }
        ensures { self.new.pool ≡ pool_upon self.old.pool self.old.pool.ledger
            (left_by reply.now self.old.pool.items) }
    {
        take_in_turn(&mut self.overlay, &self.items, gone);
        let bytes = take_told(&mut self.items, reply);
        self.bytes -= bytes;
        self.changes += 1;
    }

    // Takes out the transactions with these tickets, as the reply says, and puts the ledger state below the others. No
    // others depend on them.
    fn adopt(&mut self, ledger: Ledger, gone: &Tickets, reply: &Reply)
        requires change { self.old.pool.changes < self.old.pool.limit }
        requires leaves { All (IsLeafAt self.old.pool) gone.now }
        requires left { apart gone.now self.old.pool.items
            ≡ left_by reply.now self.old.pool.items }
        requires told { IsAdoption self.old ledger gone.now reply.now }
        ensures { self.new.pool ≡ pool_upon self.old.pool ledger
            (left_by reply.now self.old.pool.items) }
    {
        take_leaves(&mut self.overlay, &self.items, gone);
        self.overlay.rebase(ledger);
        let bytes = take_told(&mut self.items, reply);
        self.bytes -= bytes;
        self.changes += 1;
    }

    /// Executes the step of the last `prepare_` call on this pool, and returns its reply. It takes no memory, and can't fail.
    pub fn finish(&mut self, prepared: Prepared) -> Reply
        requires { IsPrepared self.old prepared }
        ensures pool { self.new.pool ≡ leads_to self.old.pool prepared }
        ensures reply { result ≡ prepared.reply }
    {
        let (reply, effect) = prepared.into_parts();
        match effect {
            Effect::Append(node, applied) => self.append(node, applied),
            Effect::Keep(overlay, _kept) => self.leave(Box::into_inner(overlay), &reply),
            Effect::TakeOut(gone) => self.take_out(&gone, &reply),
            Effect::Adopt(ledger, gone) => self.adopt(ledger, &gone, &reply),
        }
        reply
    }

    /// Adds the transaction with the next ticket, as one change.
    ///
    /// # Errors
    /// As `prepare_submit`.
    pub fn submit<V: Verifier>(
        &mut self,
        tx: &Arc<Tx, Memory>,
        verifier: &V,
    ) -> Result<Reply, Refusal>
        ensures ok { IfOk result (λ reply. answer (V.accepts verifier.now)
            self.old.pool (Submit (arc_value tx.now)) ≡ Ok reply) }
        ensures next { OnOk result (self.new.pool ≡ next (V.accepts verifier.now)
            self.old.pool (Submit (arc_value tx.now))) }
        ensures refused { IfErr result (IsRefused (V.accepts verifier.now)
            self.old.pool (Submit (arc_value tx.now))) }
        ensures err { OnErr result (self.new.pool ≡ self.old.pool) }
    {
        if let Some(refusal) = self.misplaced(tx) {
            return Err(refusal);
        }
        let resolved = self.check_rules(tx, None, verifier)?;
        Ok(self.take_in(tx, resolved)?)
    }

    /// Takes out the transactions with these ids, and those that aren't valid without them.
    ///
    /// # Errors
    /// As `prepare_remove`.
    pub fn remove<V: Verifier>(
        &mut self,
        ids: &Arc<Ids, Memory>,
        verifier: &V,
    ) -> Result<Reply, Refusal>
        requires { AreSigned (V.accepts verifier.now) self.old.pool }
        ensures ok { IfOk result (λ reply. answer (V.accepts verifier.now)
            self.old.pool (Remove (arc_value ids.now)) ≡ Ok reply) }
        ensures next { OnOk result (self.new.pool ≡ next (V.accepts verifier.now)
            self.old.pool (Remove (arc_value ids.now))) }
        ensures refused { IfErr result (IsRefused (V.accepts verifier.now)
            self.old.pool (Remove (arc_value ids.now))) }
        ensures err { OnErr result (self.new.pool ≡ self.old.pool) }
    {
        let prepared = self.prepare_remove(ids, verifier)?;
        Ok(self.finish(prepared))
    }

    /// Adopts the ledger state, and drops the transactions that aren't valid on it.
    ///
    /// # Errors
    /// As `prepare_sync`.
    pub fn sync<V: Verifier>(&mut self, ledger: &Ledger, verifier: &V) -> Result<Reply, Refusal>
        requires { AreSigned (V.accepts verifier.now) self.old.pool }
        ensures ok { IfOk result (λ reply. answer (V.accepts verifier.now)
            self.old.pool (Sync ledger.now) ≡ Ok reply) }
        ensures next { OnOk result (self.new.pool ≡ next (V.accepts verifier.now)
            self.old.pool (Sync ledger.now)) }
        ensures refused { IfErr result (IsRefused (V.accepts verifier.now)
            self.old.pool (Sync ledger.now)) }
        ensures err { OnErr result (self.new.pool ≡ self.old.pool) }
    {
        let prepared = self.prepare_sync(ledger, verifier)?;
        Ok(self.finish(prepared))
    }

    /// Executes the command, by the call of its kind.
    pub fn execute<V: Verifier>(
        &mut self,
        command: &Command,
        verifier: &V,
    ) -> Result<Reply, Refusal>
        requires { AreSigned (V.accepts verifier.now) self.old.pool }
        ensures ok { IfOk result (λ reply. answer (V.accepts verifier.now)
            self.old.pool (command_of command.now) ≡ Ok reply) }
        ensures next { OnOk result (self.new.pool ≡ next (V.accepts verifier.now)
            self.old.pool (command_of command.now)) }
        ensures refused { IfErr result (IsRefused (V.accepts verifier.now)
            self.old.pool (command_of command.now)) }
        ensures err { OnErr result (self.new.pool ≡ self.old.pool) }
    {
        match command {
            Command::Submit(tx) => self.submit(tx, verifier),
            Command::Remove(ids) => self.remove(ids, verifier),
            Command::Sync(ledger) => self.sync(ledger, verifier),
        }
    }

    /// Executes the command, and returns the reply or the refusal.
    pub fn step<V: Verifier>(&mut self, command: &Command, verifier: &V) -> Result<Answer, NoMemory>
        requires { AreSigned (V.accepts verifier.now) self.old.pool }
        ensures answer { IfOk result (λ a. a ≡ answer (V.accepts verifier.now)
            self.old.pool (command_of command.now)) }
        ensures next { OnOk result (self.new.pool ≡ next (V.accepts verifier.now)
            self.old.pool (command_of command.now)) }
        ensures err { OnErr result (self.new.pool ≡ self.old.pool) }
    {
        match self.execute(command, verifier) {
            Ok(reply) => Ok(Ok(reply)),
            Err(refusal) => match refusal {
                Refusal::NoMemory => Err(NoMemory),
                other => Ok(Err(other)),
            },
        }
    }

    /// Makes the pool a new one that opens with the same content. No change has been made, there may be at most `limit`
    /// (1 to 2^32), and the last ticket stays. It takes no memory.
    pub fn renew(&mut self, limit: u64)
        requires least { 1 ≤ limit }
        requires greatest { limit ≤ 2 ^ 32 }
        ensures { self.new.pool ≡ renewed limit self.old.pool }
    {
        self.config = Config {
            limit,
            last: self.last,
        };
        self.changes = 0;
    }

    /// The transactions with their tickets, oldest first. The tickets are strictly increasing and greater than 0.
    pub fn contents(&self) -> Iter<'_, ValidatedTx>
        ensures all { ticketed result ≡ self.now.pool.items }
        ensures rising { IsRising self.now.pool.items }
        ensures runs { ShowsInOrder (shown {T = validated.ValidatedTx}) }
    {
        self.items.iter()
    }

    /// The number of transactions.
    pub fn len(&self) -> usize
        ensures { result ≡ length self.now.pool.items }
    {
        self.items.len()
    }

    /// Whether there are no transactions.
    pub fn is_empty(&self) -> bool
        ensures { result ≡ (length self.now.pool.items == 0) }
    {
        self.items.is_empty()
    }

    /// The adopted ledger state.
    pub fn ledger(&self) -> &Ledger
        ensures { result.now ≡ self.now.pool.ledger }
    {
        self.overlay.ledger()
    }

    /// The last ticket that the pool gave, or that of the configuration. No transaction has a greater one.
    pub fn last_ticket(&self) -> u64
        ensures last { result ≡ self.now.pool.last }
        ensures given { All (λ k. k ≤ result) (tickets self.now.pool.items) }
    {
        self.last
    }

    /// The number of bytes of all transactions, at most 2^40.
    pub fn bytes(&self) -> u64
        ensures bytes { result ≡ bytes_held self.now.pool }
        ensures most { result ≤ 2 ^ 40 }
    {
        self.bytes
    }

    /// The number of changes that were made.
    pub fn changes(&self) -> u64
        ensures changes { result ≡ self.now.pool.changes }
        ensures most { result ≤ self.now.pool.limit }
    {
        self.changes
    }

    /// The configuration of the pool.
    pub fn config(&self) -> Config
        ensures limit { result.limit ≡ self.now.pool.limit }
        ensures last { result.last ≡ self.now.pool.opening_ticket }
    {
        self.config
    }

    /// The capacity in bytes: twice the block bytes of the adopted ledger state. A submit can't exceed it. After a
    /// sync, the transactions may have more bytes.
    pub fn capacity(&self) -> u64
        ensures twice { result ≡ 2 * self.now.pool.ledger.block_bytes }
        ensures most { result ≤ 2 ^ 40 }
    {
        2 * self.overlay.ledger().block_bytes()
    }

    /// The ticket of the transaction with this id, if it is in the pool. It doesn't iterate over the pool.
    pub fn ticket_of(&self, id: &TxId) -> Option<u64>
        ensures { result ≡ ticket_of id.now self.now.pool.items }
    {
        self.overlay.ticket_of(id)
    }

    /// The transaction with the ticket, if there is one. It doesn't iterate over the pool.
    pub fn get(&self, ticket: u64) -> Option<&Arc<Tx, Memory>>
        ensures { option_map (λ tx. arc_value tx.now) result
            ≡ item_at self.now.pool.items ticket }
    {
        match self.items.get(ticket) {
            Some(item) => Some(&item.tx),
            None => None,
        }
    }

    /// The transactions with greater tickets than this one, oldest first. It begins with a look-up of the ticket. If no
    /// transaction has it, the number of steps has two bounds: the difference to the next smaller ticket in the pool,
    /// and the number of transactions with greater tickets.
    pub fn contents_after(&self, ticket: u64) -> Iter<'_, ValidatedTx>
        ensures all { ticketed result ≡ after self.now.pool.items ticket }
        ensures runs { ShowsInOrder (shown {T = validated.ValidatedTx}) }
    {
        self.items.iter_after(ticket)
    }

    /// The number of free bytes, or 0 if the transactions have more bytes than the capacity.
    pub fn free_bytes(&self) -> u64
        ensures free { result ≡ free_bytes self.now.pool }
        ensures most { bytes_held self.now.pool + result ≤ 2 ^ 40 }
    {
        self.capacity().saturating_sub(self.bytes)
    }
}
