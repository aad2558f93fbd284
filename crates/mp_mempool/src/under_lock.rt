//! What happens under the pool's lock. First: does the pass know its caller's entries? Then a change is prepared, its entry is
//! committed, its step taken and its version published; or the change is refused.
ghost use Rattle.std.specs.Prelude.{◌≡◌, ◌≢◌, true, false, IfSome, IfOk, IfErr, OnOk, OnErr};
ghost use Rattle.std.specs.Arc.{arc_value};
ghost use Rattle.mp_rules.specs.Checked.{IsChecked};
ghost use Rattle.mp_seqpool.specs.Command.{Command, Submit, Remove, Sync};
ghost use Rattle.mp_seqpool.specs.SlowPool as slow;
ghost use Rattle.mp_seqpool.specs.declared.refusal.Refusal.TheVariants as refusals;
ghost use Rattle.mp_history.specs.Log.{Begins, IsLegalLog, entered, last_of, state_after};
ghost use Rattle.mp_mempool.specs.Ready.{IsReady};
ghost use Rattle.mp_mempool.specs.Pass.{IsOwn};
ghost use Rattle.mp_mempool.specs.Answers.{IsEntered, IsRefused, IsOfLog};

use crate::mempool::Mempool;
use crate::read::{Pass, Receipt};
use crate::refusal::Refusal;
use crate::write::{Locked, Ready};
use mp_history::PoolName;
use mp_memory::{Memory, NoMemory};
use mp_rules::{Checked, Verifier};
use mp_seqpool::Ids;
use mp_tx::{Ledger, Tx};
use std::sync::{Arc, Wait};

// The pass knows all entries of its caller, or a front has one that it doesn't know.
fn require_known<N: PoolName>(locked: &mut Locked<N>, pass: &Pass<N>) -> Result<(), Refusal<N>>
    ensures same { locked.new ≡ locked.old }
    ensures begins { Begins pass.now.front locked.new.log }
    ensures known { OnOk result
        (last_of pass.now.caller locked.new.log.entries ≡ pass.now.last) }
    ensures foreign { IfErr result (λ r. (c : Command)
        → IsRefused N.accepts N.callers pass.now c r pass.now) }
    ensures there { IfErr result (λ r. IsOfLog locked.new.log r pass.now) }
{
    if locked.is_known_to(pass) {
        Ok(())
    } else {
        Err(Refusal::Foreign(locked.front()))
    }
}

// Whether an allocation failed.
fn wants_memory(refusal: &mp_seqpool::Refusal) -> bool
    ensures wanting { result ≡ true → refusal.now ≡ refusals.NoMemory }
    ensures other { result ≡ false → refusal.now ≢ refusals.NoMemory }
{
    matches!(refusal, mp_seqpool::Refusal::NoMemory)
}

// Publishes the version that waits. If an allocation fails it waits on, until the next change or refusal.
fn publish<N: PoolName, V: Verifier>(
    rt: &impl Wait,
    mempool: &Mempool<N, V>,
    locked: &mut Locked<N>,
)
    ensures { locked.new.log ≡ locked.old.log }
{
    let reader = &mempool.reader;
    let _waits = locked.publish_waiting(rt, reader.memory(), reader.boards());
}

// Commits the entry of a step that is ready, and publishes the version after it, which the pass then holds. It can't fail.
fn enter<N: PoolName, V: Verifier>(
    rt: &impl Wait,
    mempool: &Mempool<N, V>,
    locked: &mut Locked<N>,
    pass: &mut Pass<N>,
    ready: Ready,
) -> Receipt
    requires ready { IsReady N.accepts N.callers locked.old pass.old.caller ready }
    requires begins { Begins pass.old.front locked.old.log }
    requires known { last_of pass.old.caller locked.old.log.entries ≡ pass.old.last }
    ensures receipt { IsEntered N.accepts N.callers
        pass.old ready.prepared.command result.place result.entry pass.new }
    ensures grown { locked.new.log ≡ entered locked.old.log result.entry }
    ensures last { pass.new.front ≡ locked.new.log }
{
    let _last = pass.last_place();
    let receipt = locked.commit(&mempool.history, pass, ready);
    publish(rt, mempool, locked);
    receipt
}

// Gives the pass the version of the whole history, and publishes the version that waits. If an allocation fails, the pass is as
// it was.
fn bring_up<N: PoolName, V: Verifier>(
    rt: &impl Wait,
    mempool: &Mempool<N, V>,
    locked: &mut Locked<N>,
    pass: &mut Pass<N>,
) -> Result<(), NoMemory>
    requires { Begins pass.old.front locked.old.log }
    ensures ok { OnOk result (pass.new ≡ record pass.old { front = locked.old.log }) }
    ensures err { OnErr result (pass.new ≡ pass.old) }
    ensures same { locked.new.log ≡ locked.old.log }
    ensures legal { IsLegalLog N.accepts N.callers locked.old.log }
    ensures own { IsOwn pass.old }
{
    let _last = pass.last_place();
    let _front = locked.front();
    let shown = locked.newest().share()?;
    pass.see(shown);
    publish(rt, mempool, locked);
    Ok(())
}

// Gives the pass the version at which the sequential pool refuses. If an allocation fails here or failed before, the pass is as
// it was.
fn refuse<N: PoolName, V: Verifier>(
    rt: &impl Wait,
    mempool: &Mempool<N, V>,
    locked: &mut Locked<N>,
    pass: &mut Pass<N>,
    refusal: mp_seqpool::Refusal,
) -> Refusal<N>
    requires begins { Begins pass.old.front locked.old.log }
    requires known { last_of pass.old.caller locked.old.log.entries ≡ pass.old.last }
    ensures refused { (c : Command)
        → slow.IsRefused N.accepts (state_after N.accepts locked.old.log) c refusal
        → IsRefused N.accepts N.callers pass.old c result pass.new }
    ensures there { IsOfLog locked.old.log result pass.new }
    ensures same { locked.new.log ≡ locked.old.log }
{
    if wants_memory(&refusal) {
        return Refusal::Pool(refusal);
    }
    match bring_up(rt, mempool, locked, pass) {
        Ok(()) => Refusal::Pool(refusal),
        Err(NoMemory) => Refusal::Pool(mp_seqpool::Refusal::NoMemory),
    }
}

/// What `Mempool::submit` does under the lock, given what was found about the transaction before.
pub fn submit_in<N: PoolName, V: Verifier>(
    mempool: &Mempool<N, V>,
    rt: &impl Wait,
    locked: &mut Locked<N>,
    pass: &mut Pass<N>,
    tx: &Arc<Tx, Memory>,
    checked: Option<&Checked>,
) -> Result<Receipt, Refusal<N>>
    requires { IfSome checked (λ c. IsChecked N.accepts (arc_value tx.now) c.now) }
    ensures receipt { IfOk result (λ r. IsEntered N.accepts N.callers
        pass.old (Submit (arc_value tx.now)) r.place r.entry pass.new) }
    ensures grown { IfOk result (λ r. locked.new.log ≡ entered locked.old.log r.entry) }
    ensures last { OnOk result (pass.new.front ≡ locked.new.log) }
    ensures refused { IfErr result (λ r. IsRefused N.accepts N.callers
        pass.old (Submit (arc_value tx.now)) r pass.new) }
    ensures there { IfErr result (λ r. IsOfLog locked.old.log r pass.new) }
    ensures same { OnErr result (locked.new.log ≡ locked.old.log) }
{
    require_known(locked, pass)?;
    let reader = &mempool.reader;
    match locked.prepare_submit(
        reader.memory(),
        pass.token(),
        tx,
        checked,
        reader.verifier(),
    ) {
        Ok(ready) => Ok(enter(rt, mempool, locked, pass, ready)),
        Err(refusal) => Err(refuse(rt, mempool, locked, pass, refusal)),
    }
}

/// What `Mempool::remove` does under the lock.
pub fn remove_in<N: PoolName, V: Verifier>(
    mempool: &Mempool<N, V>,
    rt: &impl Wait,
    locked: &mut Locked<N>,
    pass: &mut Pass<N>,
    ids: &Arc<Ids, Memory>,
) -> Result<Receipt, Refusal<N>>
    ensures receipt { IfOk result (λ r. IsEntered N.accepts N.callers
        pass.old (Remove (arc_value ids.now)) r.place r.entry pass.new) }
    ensures grown { IfOk result (λ r. locked.new.log ≡ entered locked.old.log r.entry) }
    ensures last { OnOk result (pass.new.front ≡ locked.new.log) }
    ensures refused { IfErr result (λ r. IsRefused N.accepts N.callers
        pass.old (Remove (arc_value ids.now)) r pass.new) }
    ensures there { IfErr result (λ r. IsOfLog locked.old.log r pass.new) }
    ensures same { OnErr result (locked.new.log ≡ locked.old.log) }
{
    require_known(locked, pass)?;
    let reader = &mempool.reader;
    match locked.prepare_remove(reader.memory(), pass.token(), ids, reader.verifier()) {
        Ok(ready) => Ok(enter(rt, mempool, locked, pass, ready)),
        Err(refusal) => Err(refuse(rt, mempool, locked, pass, refusal)),
    }
}

/// What `Mempool::sync` does under the lock.
pub fn sync_in<N: PoolName, V: Verifier>(
    mempool: &Mempool<N, V>,
    rt: &impl Wait,
    locked: &mut Locked<N>,
    pass: &mut Pass<N>,
    ledger: &Ledger,
) -> Result<Receipt, Refusal<N>>
    ensures receipt { IfOk result (λ r. IsEntered N.accepts N.callers
        pass.old (Sync ledger.now) r.place r.entry pass.new) }
    ensures grown { IfOk result (λ r. locked.new.log ≡ entered locked.old.log r.entry) }
    ensures last { OnOk result (pass.new.front ≡ locked.new.log) }
    ensures refused { IfErr result (λ r. IsRefused N.accepts N.callers
        pass.old (Sync ledger.now) r pass.new) }
    ensures there { IfErr result (λ r. IsOfLog locked.old.log r pass.new) }
    ensures same { OnErr result (locked.new.log ≡ locked.old.log) }
{
    require_known(locked, pass)?;
    let reader = &mempool.reader;
    match locked.prepare_sync(reader.memory(), pass.token(), ledger, reader.verifier()) {
        Ok(ready) => Ok(enter(rt, mempool, locked, pass, ready)),
        Err(refusal) => Err(refuse(rt, mempool, locked, pass, refusal)),
    }
}
