//! The pool that many callers share.
ghost use Rattle.std.specs.Prelude.{◌≡◌, ◌≤◌, ◌^◌, None, IfOk, IfErr, OnOk};
ghost use Rattle.std.specs.Arc.{arc_value};
ghost use Rattle.mp_seqpool.specs.Command.{Submit, Remove, Sync};
ghost use Rattle.mp_history.specs.PoolName.{head_of};
ghost use Rattle.mp_history.specs.Successors.{successor};
ghost use Rattle.mp_mempool.specs.Answers.{IsEntered, IsRefused};
ghost use Rattle.mp_mempool.specs.Opening.{fresh_log, fresh_passes, open_fault, IsOpenFault};
ghost use Rattle.mp_mempool.specs.Successor.{AreSuccessors, IsRefusedSuccessor};
ghost use Rattle.mp_mempool.specs.Inside.Heir.{IsHeir};

use crate::config::Config;
use crate::opening::{Parts, open_fault, open_parts};
use crate::read::{Pass, Reader, Receipt};
use crate::readers::{Readers, make_readers};
use crate::refusal::{OpenRefusal, Refusal, SuccessorRefusal};
use crate::successor::{Heir, prepare};
use crate::under_lock::{remove_in, submit_in, sync_in};
use crate::write::Locked;
use mp_history::{History, NewName, PoolName};
use mp_memory::{Memory, NoMemory};
use mp_rules::Verifier;
use mp_seqpool::{Command, Ids};
use mp_tx::{Ledger, Tx};
use std::sync::{Arc, Mutex, MutexGuard, Wait};

/// The mempool that many callers share (the Mempool API of ouroboros-consensus).
///
/// It has one history: what each caller asked, in one order, and what the pool replied. Each reply is that of a sequential pool
/// after the entries before it. Each transaction in the pool is valid on the adopted ledger state after those before it. Tickets
/// are strictly increasing and never reused.
///
/// Each caller has a `Pass`, which holds the version of the pool that the caller has seen last. What a pass holds is only
/// replaced by what extends it. A call that changes the pool (`submit`, `remove`, `sync`) takes the pool's lock. It commits one
/// entry and returns a `Receipt`, or is refused and commits none. The pass then holds the version at which the answer is the
/// sequential pool's, unless the refusal is `Foreign` or an allocation failure.
///
/// The calls that read are those of a `Reader`, which comes with the pool. A thread that only reads needs the reader and its
/// pass, and no pool.
///
/// Any number of threads may share a pool, each with passes of its own.
pub struct Mempool<N: PoolName, V: Verifier> {
    pub(crate) history: History<N>,
    pub(crate) reader: Arc<Reader<N, V>, Memory>,
    locked: Mutex<Locked<N>>,
}

impl<N: PoolName, V: Verifier + Drop> Drop for Mempool<N, V> {
    fn drop(self) {
        let Mempool {
            history: _,
            reader: _,
            locked: _,
        } = self;
    }
}

/// A pool, its reader, and the passes of its callers 0, 1, .. in order.
pub type Opened<N, V> = (
    Mempool<N, V>,
    Arc<Reader<N, V>, Memory>,
    Vec<Pass<N>, Memory>,
);

/// A successor; or why the pool doesn't hand over, with the pool and the passes as they were.
pub type Handover<N, M, V> = Result<
    Opened<M, V>,
    (SuccessorRefusal<N>, Mempool<N, V>, Vec<Pass<N>, Memory>),
>;

impl<N: PoolName, V: Verifier + Drop> Mempool<N, V> {
    /// Opens a pool under the name, on the ledger state, for 1 to 1,024 callers. Returns a pool without transactions, its reader,
    /// and a pass for each of the callers 0, 1, .. in order. The opening version is published. The verifier is shared.
    ///
    /// # Errors
    /// The first of `OpenRefusal`'s reasons that holds. The name is used up.
    pub fn open(
        rt: &impl Wait,
        memory: Memory,
        name: NewName,
        config: Config,
        ledger: &Ledger,
        verifier: &Arc<V, Memory>,
        callers: u32,
    ) -> Result<Opened<N, V>, OpenRefusal>
        requires name { name ≡ head_of N.book N.root }
        requires callers { callers ≡ N.callers }
        requires accepts { V.accepts (arc_value verifier.now) ≡ N.accepts }
        ensures passes { IfOk result (λ opened. opened.2.items
            ≡ fresh_passes callers (fresh_log config ledger.now)) }
        ensures open { OnOk result (open_fault config.limit callers ≡ None) }
        ensures refused { IfErr result (IsOpenFault config.limit callers) }
    {
        if let Some(refusal) = open_fault(config.limit, callers) {
            return Err(refusal);
        }
        match Mempool::open_within(rt, memory, name, config, ledger, verifier, callers) {
            Ok(opened) => Ok(opened),
            Err(NoMemory) => Err(OpenRefusal::NoMemory),
        }
    }

    // Opens a pool whose limits are in range.
    fn open_within(
        rt: &impl Wait,
        memory: Memory,
        name: NewName,
        config: Config,
        ledger: &Ledger,
        verifier: &Arc<V, Memory>,
        callers: u32,
    ) -> Result<Opened<N, V>, NoMemory>
        requires name { name ≡ head_of N.book N.root }
        requires number { callers ≡ N.callers }
        requires accepts { V.accepts (arc_value verifier.now) ≡ N.accepts }
        requires some { 1 ≤ callers }
        requires most { callers ≤ 1024 }
        requires least { 1 ≤ config.limit }
        requires greatest { config.limit ≤ 2 ^ 32 }
        ensures { IfOk result (λ opened. opened.2.items
            ≡ fresh_passes callers (fresh_log config ledger.now)) }
    {
        let Parts {
            history,
            boards,
            locked,
            passes,
        } = open_parts(rt, memory, name, config, ledger, callers)?;
        let readers = make_readers(memory, Arc::try_clone(verifier)?, boards)?;
        Ok(Mempool::of_parts(history, locked, readers, passes))
    }

    // The pool, its reader and the passes.
    fn of_parts(
        history: History<N>,
        locked: Locked<N>,
        readers: Readers<N, V>,
        passes: Vec<Pass<N>, Memory>,
    ) -> Opened<N, V>
        ensures { result.2.items ≡ passes.items }
    {
        let Readers { for_pool, for_host } = readers;
        let locked = Mutex::new(locked);
        let pool = Mempool {
            history,
            reader: for_pool,
            locked,
        };
        (pool, for_host, passes)
    }

    /// Hands over to a successor under the name, for `limit` changes and 1 to 1,024 callers. It opens with this pool's
    /// transactions, their tickets, the ledger state and the last ticket, and no change made yet. Nothing is checked again, and
    /// no transaction is copied.
    ///
    /// It takes the passes of all callers of this pool, and returns a new one for each caller of the successor, with the
    /// successor's reader. Readers and versions of the old pool stay usable for those who have them.
    ///
    /// # Errors
    /// The first of `SuccessorRefusal`'s reasons that holds, with the pool and the passes as they were. The name is used up.
    pub fn into_successor<M: PoolName>(
        self,
        rt: &impl Wait,
        memory: Memory,
        name: NewName,
        passes: Vec<Pass<N>, Memory>,
        limit: u64,
        callers: u32,
    ) -> Handover<N, M, V>
        requires name { name ≡ head_of M.book M.root }
        requires callers { callers ≡ M.callers }
        requires accepts { M.accepts ≡ N.accepts }
        ensures successor { IfOk result (λ s. AreSuccessors N.accepts N.callers
            passes.items limit callers s.2.items) }
        ensures open { OnOk result (open_fault limit callers ≡ None) }
        ensures refused { IfErr result (λ e. IsRefusedSuccessor N.accepts N.callers
            passes.items limit callers e.0) }
        ensures passes { IfErr result (λ e. e.2.items ≡ passes.items) }
    {
        let Mempool {
            history,
            reader,
            locked,
        } = self;
        let mut locked = locked.into_inner();
        match prepare(
            rt,
            memory,
            name,
            &reader,
            &mut locked,
            &passes,
            limit,
            callers,
        ) {
            Ok(heir) => Ok(Mempool::inherit(locked, limit, heir)),
            Err(refusal) => {
                let locked = Mutex::new(locked);
                let pool = Mempool {
                    history,
                    reader,
                    locked,
                };
                Err((refusal, pool, passes))
            }
        }
    }

    // The successor.
    fn inherit<M: PoolName>(locked: Locked<N>, limit: u64, heir: Heir<M, V>) -> Opened<M, V>
        requires least { 1 ≤ limit }
        requires greatest { limit ≤ 2 ^ 32 }
        requires heir { IsHeir M.accepts M.callers (successor N.accepts limit locked.log)
            heir.right heir.shown heir.publisher heir.places.items }
        ensures { result.2.items ≡ heir.passes.items }
    {
        let Heir {
            history,
            right,
            shown,
            publisher,
            places,
            readers,
            passes,
        } = heir;
        let locked = locked.renew(limit, right, shown, publisher, places);
        Mempool::of_parts(history, locked, readers, passes)
    }
}

impl<N: PoolName, V: Verifier> Mempool<N, V> {
    /// Adds the transaction under the next ticket. Signatures and scripts are checked before the lock is taken, on the outputs
    /// that the newest version has. Under the lock, scripts are run again only if an output differs, and both are checked if an
    /// output wasn't found. The call may wait for other callers.
    ///
    /// # Errors
    /// `Refusal::Foreign`, or else a refusal of the sequential pool. `NoMemory` may replace the latter. The reasons are, in
    /// order: the history is full, the tickets are used up, the transaction is in the pool, the pool is full, the first rule that
    /// fails.
    pub fn submit(
        &self,
        rt: &impl Wait,
        pass: &mut Pass<N>,
        tx: &Arc<Tx, Memory>,
    ) -> Result<Receipt, Refusal<N>>
        ensures receipt { IfOk result (λ r. IsEntered N.accepts N.callers
            pass.old (Submit (arc_value tx.now)) r.place r.entry pass.new) }
        ensures refused { IfErr result (λ r. IsRefused N.accepts N.callers
            pass.old (Submit (arc_value tx.now)) r pass.new) }
    {
        let checked = self.reader.check_early(pass, tx);
        let mut locked = self.locked.lock(rt);
        submit_in(self, rt, &mut locked, pass, tx, checked.as_ref())
    }

    /// Removes the transactions with these ids, valid or not, and those that aren't valid without them. It commits an entry even
    /// if nothing is removed. The call may wait for other callers.
    ///
    /// # Errors
    /// `Refusal::Foreign`, or else that the history is full. `NoMemory` may replace the latter.
    pub fn remove(
        &self,
        rt: &impl Wait,
        pass: &mut Pass<N>,
        ids: &Arc<Ids, Memory>,
    ) -> Result<Receipt, Refusal<N>>
        ensures receipt { IfOk result (λ r. IsEntered N.accepts N.callers
            pass.old (Remove (arc_value ids.now)) r.place r.entry pass.new) }
        ensures refused { IfErr result (λ r. IsRefused N.accepts N.callers
            pass.old (Remove (arc_value ids.now)) r pass.new) }
    {
        let mut locked = self.locked.lock(rt);
        remove_in(self, rt, &mut locked, pass, ids)
    }

    /// Adopts the ledger state, and drops the transactions that aren't valid on it. The others keep their tickets. It commits an
    /// entry even if nothing is dropped. The call may wait for other callers.
    ///
    /// # Errors
    /// Those of `remove`.
    pub fn sync(
        &self,
        rt: &impl Wait,
        pass: &mut Pass<N>,
        ledger: &Ledger,
    ) -> Result<Receipt, Refusal<N>>
        ensures receipt { IfOk result (λ r. IsEntered N.accepts N.callers
            pass.old (Sync ledger.now) r.place r.entry pass.new) }
        ensures refused { IfErr result (λ r. IsRefused N.accepts N.callers
            pass.old (Sync ledger.now) r pass.new) }
    {
        let mut locked = self.locked.lock(rt);
        sync_in(self, rt, &mut locked, pass, ledger)
    }

    /// Takes the lock, for what is asked of the whole history. No change is made until the guard is dropped. The call may wait for
    /// other callers.
    pub fn lock(&self, rt: &impl Wait) -> MutexGuard<'_, Locked<N>> {
        self.locked.lock(rt)
    }
}

impl<N: PoolName, V: Verifier> Mempool<N, V> {
    ghost use Rattle.std.specs.Prelude.{IfOk, IfErr};
    ghost use Rattle.mp_seqpool.specs.Inside.Command.{command_of};
    ghost use Rattle.mp_mempool.specs.Answers.{IsEntered, IsRefused};

    /// Does what the command asks: `submit`, `remove` or `sync`. The call may wait for other callers.
    ///
    /// # Errors
    /// Those of that call.
    pub fn ask(
        &self,
        rt: &impl Wait,
        pass: &mut Pass<N>,
        command: &Command,
    ) -> Result<Receipt, Refusal<N>>
        ensures receipt { IfOk result (λ r. IsEntered N.accepts N.callers
            pass.old (command_of command.now) r.place r.entry pass.new) }
        ensures refused { IfErr result (λ r. IsRefused N.accepts N.callers
            pass.old (command_of command.now) r pass.new) }
    {
        match command {
            Command::Submit(tx) => self.submit(rt, pass, tx),
            Command::Remove(ids) => self.remove(rt, pass, ids),
            Command::Sync(ledger) => self.sync(rt, pass, ledger),
        }
    }
}
