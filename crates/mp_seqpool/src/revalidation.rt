//! Checking all items again.

ghost use Rattle.std.specs.Prelude.{◌≡◌, ◌<◌, ℕ, List, [], All, IfOk, OnOk, is_some};
ghost use Rattle.std.specs.Map.{lookup};
ghost use Rattle.indexmap.specs.IndexMap.{hasher_of};
ghost use Rattle.mp_tx.specs.Reference.{same_ref};
ghost use Rattle.mp_tx.specs.Spelling.{id_of};
ghost use Rattle.mp_rules.specs.Verifier.{Accepts};
ghost use Rattle.mp_utxo.specs.ById.{key_of};
ghost use Rattle.mp_seqpool.specs.ValidatedTx.{IsVouched, ticketed};
ghost use Rattle.mp_seqpool.specs.Kept.{IsKeptOf};
ghost use Rattle.mp_seqpool.specs.Inside.Judged.{AreBelow, Keeps, Judges, Handles};

use crate::id_set::{IdSet, id_set_of, is_named};
use crate::kept::Kept;
use crate::validated_tx::ValidatedTx;
use mp_memory::{Memory, NoMemory};
use mp_rules::{Verifier, stays_valid};
use mp_tickets::{TicketList, Tickets};
use mp_tx::{Ledger, TxId};
use mp_utxo::Overlay;
use std::sync::Arc;

// The ledger state without items.
fn nothing_kept(memory: Memory, ledger: &Ledger) -> Result<Kept, NoMemory>
    ensures { (accepts : Accepts) (ids : List (List ℕ)) → IfOk result
        (IsKeptOf accepts ledger.now [] ids) }
{
    Ok(Kept {
        overlay: Overlay::over(memory, ledger)?,
        kept: Tickets::new(memory),
        named: Tickets::new(memory),
        dropped: Tickets::new(memory),
    })
}

// Applies the item.
fn keep(kept: &mut Kept, ticket: u64, item: &ValidatedTx) -> Result<(), NoMemory>
    requires { All (λ t. t < ticket) kept.old.kept }
    ensures { OnOk result (Keeps kept.old (ticket, item.now.tx) kept.new) }
{
    let tx = Arc::try_clone(&item.tx)?;
    kept.overlay.reserve_for(&tx)?;
    kept.overlay.apply(ticket, tx);
    kept.kept.push(ticket)
}

// Keeps the item if it is valid after those that were kept, and else drops it.
fn judge<V: Verifier>(
    memory: Memory,
    kept: &mut Kept,
    ticket: u64,
    item: &ValidatedTx,
    verifier: &V,
) -> Result<(), NoMemory>
    requires vouched { IsVouched (V.accepts verifier.now) item.now }
    requires below { AreBelow ticket kept.old }
    ensures { OnOk result (Judges (V.accepts verifier.now)
        kept.old (ticket, item.now.tx) kept.new) }
{
    let tick = kept.overlay.ledger().tick();
    let before = Some(&item.resolved);
    if stays_valid(memory, &item.tx, &kept.overlay, tick, before, verifier)? {
        keep(kept, ticket, item)
    } else {
        kept.dropped.push(ticket)
    }
}

// Takes the item out if its id is one of the names, and else judges it.
fn handle<V: Verifier>(
    memory: Memory,
    names: &IdSet,
    kept: &mut Kept,
    ticket: u64,
    item: &ValidatedTx,
    verifier: &V,
) -> Result<(), NoMemory>
    requires vouched { IsVouched (V.accepts verifier.now) item.now }
    requires below { AreBelow ticket kept.old }
    requires salt { hasher_of names.now ≡ kept.old.overlay.salt }
    ensures { OnOk result (Handles (V.accepts verifier.now)
        (is_some (lookup (same_ref (key_of (id_of item.now.tx))) names.now.entries))
        kept.old (ticket, item.now.tx) kept.new) }
{
    if is_named(names, item.tx.id()) {
        kept.named.push(ticket)
    } else {
        judge(memory, kept, ticket, item, verifier)
    }
}

/// Takes out the items whose ids are in `without`. Of the others, it keeps in order exactly those that are valid on the
/// ledger state after the items kept before them. The items themselves don't change.
///
/// No signature is checked again. If an item names the same outputs as when it was last found valid, only the tick and
/// its own outputs are checked.
///
/// # Errors
/// `NoMemory`.
pub fn revalidate<V: Verifier>(
    memory: Memory,
    ledger: &Ledger,
    items: &TicketList<ValidatedTx>,
    without: &[TxId],
    verifier: &V,
) -> Result<Kept, NoMemory>
    requires { All (λ e. IsVouched (V.accepts verifier.now) e.1) items.now }
    ensures { IfOk result (IsKeptOf (V.accepts verifier.now)
        ledger.now (ticketed items.now) without.now) }
{
    let names = id_set_of(memory, ledger.salt(), without)?;
    let mut kept = nothing_kept(memory, ledger)?;
    for (ticket, item) in items.iter() {
        handle(memory, &names, &mut kept, ticket, item, verifier)?;
    }
    Ok(kept)
}
