//! Whether a history is legal.

ghost use Rattle.std.specs.Prelude.{◌≡◌, ◌≢◌, ◌≤◌, ◌^◌, Some, IfOk, OnOk, IfErr};
ghost use Rattle.mp_seqpool.specs.Config.{fresh_pool, renewed};
ghost use Rattle.mp_seqpool.specs.PoolLaws.{IsLawful};
ghost use Rattle.mp_seqpool.specs.SlowPool.{AreSigned, next};
ghost use Rattle.mp_history.specs.Log.{IsRight, IsLegal, pool_of};
ghost use Rattle.mp_history.specs.AuditFault.{entry_fault, IsFaultOf, IsIllegal};
ghost use Rattle.mp_history.specs.declared.fault.AuditFault.TheVariants as faults;

use crate::entry::Entry;
use crate::fault::AuditFault;
use mp_memory::{Memory, NoMemory};
use mp_seqpool::{Config, SeqPool, Verifier};
use mp_tx::Ledger;

// Executes the command of one entry, if the entry is right.
fn replay<V: Verifier>(
    pool: &mut SeqPool,
    callers: u32,
    place: usize,
    entry: &Entry,
    verifier: &V,
) -> Result<(), AuditFault>
    requires { AreSigned (V.accepts verifier.now) pool.old.pool }
    ensures right { OnOk result
        (IsRight (V.accepts verifier.now) callers pool.old.pool entry.now) }
    ensures next { OnOk result
        (pool.new.pool ≡ next (V.accepts verifier.now) pool.old.pool entry.now.command) }
    ensures fault { IfErr result (λ fault. fault ≢ faults.NoMemory
        → entry_fault (V.accepts verifier.now) callers pool.old.pool place entry.now ≡ Some fault) }
{
    if entry.caller >= callers {
        return Err(AuditFault::StrangeCaller(place));
    }
    match pool.step(&entry.command, verifier) {
        Ok(Ok(reply)) => {
            if reply == entry.reply {
                Ok(())
            } else {
                Err(AuditFault::WrongReply(place))
            }
        }
        Ok(Err(_)) => Err(AuditFault::WrongReply(place)),
        Err(NoMemory) => Err(AuditFault::NoMemory),
    }
}

// Executes the commands of the entries, in order, up to the first that is wrong.
fn replay_all<V: Verifier>(
    pool: &mut SeqPool,
    callers: u32,
    entries: &[Entry],
    verifier: &V,
) -> Result<(), AuditFault>
    requires { IsLawful (V.accepts verifier.now) pool.old.pool }
    ensures legal { OnOk result
        (IsLegal (V.accepts verifier.now) callers pool.old.pool entries.now) }
    ensures pool { OnOk result
        (pool.new.pool ≡ pool_of (V.accepts verifier.now) pool.old.pool entries.now) }
    ensures fault { IfErr result
        (IsFaultOf (V.accepts verifier.now) callers pool.old.pool entries.now) }
    ensures illegal { IfErr result (λ fault. fault ≢ faults.NoMemory
        → IsIllegal (V.accepts verifier.now) callers pool.old.pool entries.now) }
{
    for (place, entry) in entries.iter().enumerate() {
        replay(pool, callers, place, entry, verifier)?;
    }
    Ok(())
}

/// Replays a history of `callers` callers on a pool that opens on the ledger state. The verifier decides which
/// signatures are good. An entry is right if its caller's number is less than `callers`, and its reply is the reference
/// pool's after the entries before it. A history is legal if all entries are right. Returns the pool after all entries
/// of a legal history, from which `audit_successor` goes on. Else returns the fault of the first bad entry. Its caller is
/// checked before its reply.
pub fn audit<V: Verifier>(
    memory: Memory,
    config: Config,
    ledger: &Ledger,
    callers: u32,
    entries: &[Entry],
    verifier: &V,
) -> Result<SeqPool, AuditFault>
    ensures legal { OnOk result
        (IsLegal (V.accepts verifier.now) callers (fresh_pool config ledger.now) entries.now) }
    ensures pool { IfOk result (λ pool. pool.pool
        ≡ pool_of (V.accepts verifier.now) (fresh_pool config ledger.now) entries.now) }
    ensures lawful { IfOk result (λ pool. IsLawful (V.accepts verifier.now) pool.pool) }
    ensures fault { IfErr result
        (IsFaultOf (V.accepts verifier.now) callers (fresh_pool config ledger.now) entries.now) }
    ensures illegal { IfErr result (λ fault. fault ≢ faults.NoMemory
        → IsIllegal (V.accepts verifier.now) callers (fresh_pool config ledger.now) entries.now) }
{
    let mut pool = SeqPool::start(memory, config, ledger)?;
    replay_all(&mut pool, callers, entries, verifier)?;
    Ok(pool)
}

/// Replays the history of a pool that took over with this limit, 1 to 2^32, from a pool that ended in this state. What
/// `audit` and this call return is such a state, so a whole chain of handovers can be audited. Entries are right, histories
/// legal, and faults reported, as by `audit`.
pub fn audit_successor<V: Verifier>(
    mut pool: SeqPool,
    limit: u64,
    callers: u32,
    entries: &[Entry],
    verifier: &V,
) -> Result<SeqPool, AuditFault>
    requires least { 1 ≤ limit }
    requires greatest { limit ≤ 2 ^ 32 }
    requires lawful { IsLawful (V.accepts verifier.now) pool.pool }
    ensures legal { OnOk result
        (IsLegal (V.accepts verifier.now) callers (renewed limit pool.pool) entries.now) }
    ensures pool { IfOk result (λ after. after.pool
        ≡ pool_of (V.accepts verifier.now) (renewed limit pool.pool) entries.now) }
    ensures lawful { IfOk result (λ after. IsLawful (V.accepts verifier.now) after.pool) }
    ensures fault { IfErr result
        (IsFaultOf (V.accepts verifier.now) callers (renewed limit pool.pool) entries.now) }
    ensures illegal { IfErr result (λ fault. fault ≢ faults.NoMemory
        → IsIllegal (V.accepts verifier.now) callers (renewed limit pool.pool) entries.now) }
{
    pool.renew(limit);
    match replay_all(&mut pool, callers, entries, verifier) {
        Ok(()) => Ok(pool),
        Err(fault) => Err(fault),
    }
}
