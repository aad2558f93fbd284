//! What of a pool would stay valid on another ledger state.
ghost use Rattle.std.specs.Prelude.{◌≡◌, IfOk};
ghost use Rattle.mp_seqpool.specs.Keep.{keep, bytes_of};
ghost use Rattle.mp_seqpool.specs.SlowPool.{AreSigned};

use mp_memory::{Memory, NoMemory};
use mp_rules::Verifier;
use mp_tx::Ledger;
use mp_versions::{Items, Version, keep_valid};

/// Those of a pool's transactions that would stay valid on another ledger state: each that is valid on it after those kept before
/// it. The pool doesn't change. The transactions are the pool's own, and shared.
#[derive(Drop)]
pub struct SnapshotFor {
    /// The transactions with their tickets, oldest first.
    pub items: Items,
    /// How many bytes they have in all.
    pub bytes: u64,
    /// How many entries the pool's history had.
    pub number: u64,
}

/// Which of the version's items would stay valid on the ledger state. The version doesn't change. The signatures are good, and
/// aren't checked again.
///
/// # Errors
/// `NoMemory`.
pub(crate) fn snapshot_upon<V: Verifier>(
    memory: Memory,
    version: &Version,
    ledger: &Ledger,
    verifier: &V,
) -> Result<SnapshotFor, NoMemory>
    requires { AreSigned (V.accepts verifier.now) version.now.pool }
    ensures items { IfOk result (λ s. s.items
        ≡ keep (V.accepts verifier.now) ledger.now version.now.pool.items) }
    ensures bytes { IfOk result (λ s. s.bytes ≡ bytes_of s.items) }
    ensures number { IfOk result (λ s. s.number ≡ version.now.pool.changes) }
{
    let _most = version.bytes();
    let kept = keep_valid(memory, version.contents(), ledger, verifier)?;
    Ok(SnapshotFor {
        items: kept.items,
        bytes: kept.bytes,
        number: version.number(),
    })
}
