//! What a pool's lock guards.
ghost use Rattle.std.specs.Prelude.{◌≡◌, ◌<◌, ◌≤◌, ◌≢◌, ◌^◌, [], true, false, length, replicate, Some, None, IfSome, IfOk, IfErr, OnOk, OnErr};
ghost use Rattle.std.specs.Arc.{arc_value};
ghost use Rattle.mp_rules.specs.Checked.{IsChecked};
ghost use Rattle.mp_seqpool.specs.Command.{Submit, Remove, Sync};
ghost use Rattle.mp_seqpool.specs.Prepared.{IsPrepared, Prepares, leads_to};
ghost use Rattle.mp_seqpool.specs.SlowPool as slow;
ghost use Rattle.mp_seqpool.specs.declared.refusal.Refusal.TheVariants as refusals;
ghost use Rattle.mp_history.specs.Log.{Begins, IsLegalLog, entered, last_of, state_after};
ghost use Rattle.mp_history.specs.Successors.{successor};
ghost use Rattle.mp_versions.specs.Shown.{IsVersionOf};
ghost use Rattle.mp_mempool.specs.Pass.{IsOwn};
ghost use Rattle.mp_mempool.specs.Locked.{holding, IsKept, with_published};
ghost use Rattle.mp_mempool.specs.Inside.Locked.{IsAt};
ghost use Rattle.mp_mempool.specs.Ready.{IsReady, Own, Tells};

use crate::read::{Pass, Receipt};
use crate::write::ready::{Outcome, Owners, Ready};
use mp_history::{Caller, CommitRight, Entry, Front, History, PoolName};
use mp_memory::{Memory, NoMemory};
use mp_rules::{Checked, Verifier};
use mp_seqpool::{Ids, Prepared, Refusal, SeqPool};
use mp_tx::{Ledger, Tx};
use mp_versions::{Boards, Publisher, Shown, Version};
use std::marker::Model;
use std::sync::{Arc, Wait};

/// What a pool's lock guards: the commit right, the sequential pool after the history, and the newest version. Also the right to
/// publish versions, and for each caller the place of its last entry.
///
/// Contracts see the history, the room that the sequential pool has for its next step, and the histories of two versions. One
/// waits to be published, the other was published last. The history determines everything else, as the readers say.
pub struct Locked<N: PoolName> {
    pool: SeqPool,
    right: CommitRight<N>,
    newest: Shown<N>,
    publisher: Publisher<N>,
    // The newest version, until it is published.
    waiting: Option<Shown<N>>,
    // By caller, the place of its last entry.
    places: Vec<Option<u64>, Memory>,
}

impl<N: PoolName> Drop for Locked<N> {
    fn drop(self) {
        let Locked {
            pool: _,
            right: _,
            newest: _,
            publisher: _,
            waiting: _,
            places: _,
        } = self;
    }
}

impl<N: PoolName> Model for Locked<N> {
    ghost use Rattle.std.specs.Coded.{codes};
    ghost use Rattle.std.specs.FinMap as finite;
    ghost use Rattle.mp_mempool.specs.Locked as told;
    ghost use Rattle.mp_mempool.specs.Inside.Locked.{IsAt};

    ghost Value = { told.Locked };

    ghost coded = { Prim.hlevel (codes, finite.code) };

    ghost view = { λ l. record {
      log = l.right;
      room = l.pool.room;
      waiting = l.waiting;
      published = l.publisher;
    } };

    ghost invariant = { λ l. IsAt N.accepts N.callers
        l.right l.pool.pool l.newest l.places.items
        × told.IsKept l.right l.waiting l.publisher };
}

// The entry that records the step.
fn entry_of<N: PoolName>(caller: &Caller<N>, prepared: &Prepared) -> Result<Entry, NoMemory>
    ensures caller { IfOk result (λ e. e.caller ≡ caller.now.number) }
    ensures command { IfOk result (λ e. e.command ≡ prepared.now.command) }
    ensures reply { IfOk result (λ e. e.reply ≡ prepared.now.reply) }
{
    let command = prepared.command().share()?;
    let reply = prepared.reply().copy()?;
    Ok(caller.entry(command, reply))
}

// Three owners of the version.
fn own_thrice(memory: Memory, version: Version) -> Result<Owners, NoMemory>
    ensures pass { IfOk result (λ o. arc_value o.for_pass ≡ version) }
    ensures lock { IfOk result (λ o. arc_value o.for_lock ≡ version) }
    ensures board { IfOk result (λ o. arc_value o.for_board ≡ version) }
{
    let for_pass = Arc::new(memory, version)?;
    let for_lock = Arc::try_clone(&for_pass)?;
    let for_board = Arc::try_clone(&for_pass)?;
    Ok(Owners {
        for_pass,
        for_lock,
        for_board,
    })
}

// Takes the step. The entry of the step has its reply already.
fn take_step(pool: &mut SeqPool, prepared: Prepared)
    requires { IsPrepared pool.old prepared }
    ensures { pool.new.pool ≡ leads_to pool.old.pool prepared }
{
    let _reply = pool.finish(prepared);
}

impl<N: PoolName> Locked<N> {
    // All parts together. No version waits.
    fn of(
        pool: SeqPool,
        right: CommitRight<N>,
        newest: Shown<N>,
        publisher: Publisher<N>,
        places: Vec<Option<u64>, Memory>,
    ) -> Locked<N>
        requires at { IsAt N.accepts N.callers right pool.pool newest places.items }
        requires published { publisher ≡ right }
        ensures log { result.log ≡ right }
        ensures waiting { result.waiting ≡ None }
        ensures published { result.published ≡ right }
    {
        Locked {
            pool,
            right,
            newest,
            publisher,
            waiting: None,
            places,
        }
    }

    /// What the lock guards in a new pool: no entries, and no version that waits, since the opening one is published.
    pub fn open(
        pool: SeqPool,
        right: CommitRight<N>,
        newest: Shown<N>,
        publisher: Publisher<N>,
        places: Vec<Option<u64>, Memory>,
    ) -> Locked<N>
        requires state { right ≡ record { opening = pool.pool; entries = [] } }
        requires legal { IsLegalLog N.accepts N.callers right }
        requires newest { newest ≡ right }
        requires published { publisher ≡ right }
        requires places { places.items ≡ replicate N.callers None }
        ensures log { result.log ≡ right }
        ensures waiting { result.waiting ≡ None }
        ensures published { result.published ≡ right }
    {
        Locked::of(pool, right, newest, publisher, places)
    }

    /// What the lock of a successor guards, given the successor's right. The sequential pool is renewed, and no item is copied.
    pub fn renew<M: PoolName>(
        self,
        limit: u64,
        right: CommitRight<M>,
        newest: Shown<M>,
        publisher: Publisher<M>,
        places: Vec<Option<u64>, Memory>,
    ) -> Locked<M>
        requires least { 1 ≤ limit }
        requires greatest { limit ≤ 2 ^ 32 }
        requires right { right ≡ successor N.accepts limit self.log }
        requires legal { IsLegalLog M.accepts M.callers right }
        requires newest { newest ≡ right }
        requires published { publisher ≡ right }
        requires places { places.items ≡ replicate M.callers None }
        ensures log { result.log ≡ right }
        ensures waiting { result.waiting ≡ None }
        ensures published { result.published ≡ right }
    {
        let Locked {
            mut pool,
            right: _,
            newest: _,
            publisher: _,
            waiting: _,
            places: _,
        } = self;
        pool.renew(limit);
        Locked::open(pool, right, newest, publisher, places)
    }

    // The readers, which say how the parts are related.

    /// The front with all entries.
    pub fn front(&self) -> Front<N>
        ensures front { result ≡ self.now.log }
        ensures legal { IsLegalLog N.accepts N.callers self.now.log }
    {
        self.right.front()
    }

    /// The sequential pool, which is the slow pool after the history.
    pub fn pool(&self) -> &SeqPool
        ensures { result.now ≡ holding N.accepts self.now }
    {
        &self.pool
    }

    /// The version after all entries. It is published, or waits for that.
    pub fn newest(&self) -> &Shown<N>
        ensures newest { result.now ≡ self.now.log }
        ensures kept { IsKept self.now.log self.now.waiting self.now.published }
    {
        &self.newest
    }

    /// How many callers there are.
    pub fn callers(&self) -> usize
        ensures callers { result ≡ N.callers }
    {
        self.places.len()
    }

    /// The place of the caller's last entry.
    pub fn last_of(&self, caller: &Caller<N>) -> Option<u64>
        ensures { result ≡ last_of caller.now.number self.now.log.entries }
    {
        self.places[caller.number() as usize]
    }

    /// What the front has is a prefix of the history under the lock.
    pub fn covers(&mut self, front: &Front<N>)
        ensures same { self.new ≡ self.old }
        ensures begins { Begins front.now self.new.log }
    {
        self.right.covers(front);
    }

    /// Whether the pass knows the last of its caller's entries. What the pass has seen is a prefix of the history under the lock.
    pub fn is_known_to(&mut self, pass: &Pass<N>) -> bool
        ensures same { self.new ≡ self.old }
        ensures begins { Begins pass.now.front self.new.log }
        ensures own { IsOwn pass.now }
        ensures known { result ≡ true
            → last_of pass.now.caller self.new.log.entries ≡ pass.now.last }
        ensures foreign { result ≡ false
            → last_of pass.now.caller self.new.log.entries ≢ pass.now.last }
    {
        self.right.covers(pass.front());
        self.last_of(pass.token()) == pass.last_place()
    }

    // Owners of the version after the step that the entry records.
    fn own_next(
        &self,
        memory: Memory,
        caller: &Caller<N>,
        entry: &Entry,
        prepared: &Prepared,
    ) -> Result<Owners, NoMemory>
        requires caller { entry.now.caller ≡ caller.now.number }
        requires asked { entry.now.command ≡ prepared.now.command }
        requires reply { entry.now.reply ≡ prepared.now.reply }
        requires prepares { Prepares N.accepts (holding N.accepts self.now)
            prepared.now.command prepared.now }
        ensures { IfOk result (Own N.accepts N.callers (entered self.now.log entry.now)) }
    {
        let version = self.version_after(memory, caller, entry, prepared)?;
        own_thrice(memory, version)
    }

    // The version after the step that the entry records.
    fn version_after(
        &self,
        memory: Memory,
        caller: &Caller<N>,
        entry: &Entry,
        prepared: &Prepared,
    ) -> Result<Version, NoMemory>
        requires caller { entry.now.caller ≡ caller.now.number }
        requires asked { entry.now.command ≡ prepared.now.command }
        requires reply { entry.now.reply ≡ prepared.now.reply }
        requires prepares { Prepares N.accepts (holding N.accepts self.now)
            prepared.now.command prepared.now }
        ensures { IfOk result (IsVersionOf N.accepts N.callers
            (entered self.now.log entry.now)) }
    {
        let _number = caller.number();
        self.newest.version().after(memory, &self.pool, prepared)
    }

    // The entry that records the step, and owners of the version after it.
    fn tell(
        &self,
        memory: Memory,
        caller: &Caller<N>,
        prepared: &Prepared,
    ) -> Result<Outcome, NoMemory>
        requires { Prepares N.accepts (holding N.accepts self.now)
            prepared.now.command prepared.now }
        ensures { IfOk result (Tells N.accepts N.callers
            self.now.log caller.now.number prepared.now) }
    {
        let entry = entry_of(caller, prepared)?;
        let owners = self.own_next(memory, caller, &entry, prepared)?;
        Ok(Outcome { entry, owners })
    }

    // The step, with its entry and versions allocated before it is taken.
    fn make_ready(
        &self,
        memory: Memory,
        caller: &Caller<N>,
        prepared: Prepared,
    ) -> Result<Ready, Refusal>
        requires { Prepares N.accepts (holding N.accepts self.now) prepared.command prepared }
        ensures ready { IfOk result (IsReady N.accepts N.callers self.now caller.now.number) }
        ensures command { IfOk result (λ r. r.prepared.command ≡ prepared.command) }
        ensures refused { IfErr result (λ r. r ≡ refusals.NoMemory) }
    {
        match self.tell(memory, caller, &prepared) {
            Ok(outcome) => Ok(Ready { prepared, outcome }),
            Err(NoMemory) => Err(Refusal::NoMemory),
        }
    }

    // What the sequential pool prepares for the transaction, given what was found before the lock.
    fn prepare_in_pool<V: Verifier>(
        &mut self,
        tx: &Arc<Tx, Memory>,
        checked: Option<&Checked>,
        verifier: &V,
    ) -> Result<Prepared, Refusal>
        requires verifier { V.accepts verifier.now ≡ N.accepts }
        requires checked { IfSome checked (λ c. IsChecked N.accepts (arc_value tx.now) c.now) }
        ensures same { self.new.log ≡ self.old.log }
        ensures ready { IfOk result (Prepares N.accepts
            (holding N.accepts self.new) (Submit (arc_value tx.now))) }
        ensures refused { IfErr result (slow.IsRefused N.accepts
            (state_after N.accepts self.old.log) (Submit (arc_value tx.now))) }
    {
        self.pool.prepare_submit(tx, checked, verifier)
    }

    /// Prepares to add the transaction, given what was found before the lock, and allocates all that the step needs.
    pub fn prepare_submit<V: Verifier>(
        &mut self,
        memory: Memory,
        caller: &Caller<N>,
        tx: &Arc<Tx, Memory>,
        checked: Option<&Checked>,
        verifier: &V,
    ) -> Result<Ready, Refusal>
        requires verifier { V.accepts verifier.now ≡ N.accepts }
        requires checked { IfSome checked (λ c. IsChecked N.accepts (arc_value tx.now) c.now) }
        ensures same { self.new.log ≡ self.old.log }
        ensures ready { IfOk result (IsReady N.accepts N.callers self.new caller.now.number) }
        ensures command { IfOk result (λ r. r.prepared.command ≡ Submit (arc_value tx.now)) }
        ensures refused { IfErr result (slow.IsRefused N.accepts
            (state_after N.accepts self.old.log) (Submit (arc_value tx.now))) }
    {
        match self.prepare_in_pool(tx, checked, verifier) {
            Ok(prepared) => self.make_ready(memory, caller, prepared),
            Err(refusal) => Err(refusal),
        }
    }

    // What the sequential pool prepares for the ids.
    fn prepare_remove_in_pool<V: Verifier>(
        &self,
        ids: &Arc<Ids, Memory>,
        verifier: &V,
    ) -> Result<Prepared, Refusal>
        requires { V.accepts verifier.now ≡ N.accepts }
        ensures ready { IfOk result (Prepares N.accepts
            (holding N.accepts self.now) (Remove (arc_value ids.now))) }
        ensures refused { IfErr result (slow.IsRefused N.accepts
            (state_after N.accepts self.now.log) (Remove (arc_value ids.now))) }
    {
        self.pool.prepare_remove(ids, verifier)
    }

    /// Prepares to remove the transactions with these ids, and allocates all that the step needs.
    pub fn prepare_remove<V: Verifier>(
        &self,
        memory: Memory,
        caller: &Caller<N>,
        ids: &Arc<Ids, Memory>,
        verifier: &V,
    ) -> Result<Ready, Refusal>
        requires { V.accepts verifier.now ≡ N.accepts }
        ensures ready { IfOk result (IsReady N.accepts N.callers self.now caller.now.number) }
        ensures command { IfOk result (λ r. r.prepared.command ≡ Remove (arc_value ids.now)) }
        ensures refused { IfErr result (slow.IsRefused N.accepts
            (state_after N.accepts self.now.log) (Remove (arc_value ids.now))) }
    {
        match self.prepare_remove_in_pool(ids, verifier) {
            Ok(prepared) => self.make_ready(memory, caller, prepared),
            Err(refusal) => Err(refusal),
        }
    }

    // What the sequential pool prepares for the ledger state.
    fn prepare_sync_in_pool<V: Verifier>(
        &self,
        ledger: &Ledger,
        verifier: &V,
    ) -> Result<Prepared, Refusal>
        requires { V.accepts verifier.now ≡ N.accepts }
        ensures ready { IfOk result (Prepares N.accepts
            (holding N.accepts self.now) (Sync ledger.now)) }
        ensures refused { IfErr result (slow.IsRefused N.accepts
            (state_after N.accepts self.now.log) (Sync ledger.now)) }
    {
        self.pool.prepare_sync(ledger, verifier)
    }

    /// Prepares to adopt the ledger state, and allocates all that the step needs.
    pub fn prepare_sync<V: Verifier>(
        &self,
        memory: Memory,
        caller: &Caller<N>,
        ledger: &Ledger,
        verifier: &V,
    ) -> Result<Ready, Refusal>
        requires { V.accepts verifier.now ≡ N.accepts }
        ensures ready { IfOk result (IsReady N.accepts N.callers self.now caller.now.number) }
        ensures command { IfOk result (λ r. r.prepared.command ≡ Sync ledger.now) }
        ensures refused { IfErr result (slow.IsRefused N.accepts
            (state_after N.accepts self.now.log) (Sync ledger.now)) }
    {
        match self.prepare_sync_in_pool(ledger, verifier) {
            Ok(prepared) => self.make_ready(memory, caller, prepared),
            Err(refusal) => Err(refusal),
        }
    }

    // The place of the next entry. One more change has to be allowed.
    fn next_place(&self) -> u64
        requires { (state_after N.accepts self.now.log).changes
            < (state_after N.accepts self.now.log).limit }
        ensures place { result ≡ length self.now.log.entries }
        ensures room { result < 2 ^ 32 }
    {
        let _limit = self.pool.config().limit;
        self.pool.changes()
    }

    /// Commits the caller's entry and takes the step. The caller has then seen the version after it, which waits to be published.
    /// It allocates nothing and can't fail.
    pub fn commit(&mut self, history: &History<N>, pass: &mut Pass<N>, ready: Ready) -> Receipt
        requires { IsReady N.accepts N.callers self.old pass.old.caller ready }
        ensures log { self.new.log ≡ entered self.old.log ready.outcome.entry }
        ensures waiting { self.new.waiting ≡ Some self.new.log }
        ensures published { self.new.published ≡ self.old.published }
        ensures place { result.place ≡ length self.old.log.entries }
        ensures entry { result.entry ≡ ready.outcome.entry }
        ensures pass { pass.new ≡ record pass.old {
          last = Some (length self.old.log.entries);
          front = self.new.log;
        } }
    {
        let Ready { prepared, outcome } = ready;
        let Outcome { entry, owners } = outcome;
        let place = self.next_place();
        let number = pass.caller() as usize;
        pass.commit(history, &mut self.right, &entry, owners.for_pass);
        take_step(&mut self.pool, prepared);
        self.places[number] = Some(place);
        self.newest = Shown::of(owners.for_lock, self.right.front());
        self.waiting = Some(Shown::of(owners.for_board, self.right.front()));
        Receipt { place, entry }
    }

    /// Publishes the version that waits, if there is one.
    ///
    /// # Errors
    /// `NoMemory`. Then the version still waits.
    pub fn publish_waiting(
        &mut self,
        rt: &impl Wait,
        memory: Memory,
        boards: &Boards<N>,
    ) -> Result<(), NoMemory>
        ensures published { OnOk result (self.new ≡ with_published self.old) }
        ensures waits { OnErr result (self.new ≡ self.old) }
    {
        let Some(shown) = self.waiting.take() else {
            return Ok(());
        };
        if let Err(shown) = self.publisher.publish(rt, memory, boards, shown) {
            self.waiting = Some(shown);
            return Err(NoMemory);
        }
        Ok(())
    }
}
