//! What a submit would be answered, by a version of the pool.

ghost use Rattle.std.specs.Prelude.{◌≡◌, ◌<◌, ◌-◌, ◌^◌, nat_eq, option_map, option_and_then, IfNone, IfOk};
ghost use Rattle.std.specs.Arc.{arc_value};
ghost use Rattle.mp_tickets.specs.Tickets.{item_at};
ghost use Rattle.std.specs.Cmp.Lexicographic.{pointwise};
ghost use Rattle.mp_tx.specs.Spelling.{id_of};
ghost use Rattle.mp_seqpool.specs.Item.{item_of};
ghost use Rattle.mp_seqpool.specs.Command.{Submit};
ghost use Rattle.mp_seqpool.specs.SlowPool.{answer, ticket_of};
ghost use Rattle.mp_seqpool.specs.Inside.Place.{misplaced};
ghost use Rattle.mp_clients.specs.Inside.Checked.{IsOverlayOf};

use crate::reading::free_bytes;
use mp_memory::{Memory, NoMemory};
use mp_rules::{Verifier, check};
use mp_seqpool::{Answer, Invalid, Refusal, Reply};
use mp_tx::{Tx, TxId};
use mp_utxo::Overlay;
use mp_versions::{Item, Run, Version};
use std::sync::Arc;

// Whether the item's transaction has this id.
fn is_of(item: &Item, id: &TxId) -> bool
    ensures { result ≡ pointwise nat_eq id.now (id_of (item_of item.now).1) }
{
    id == item.tx.id()
}

// The ticket of the item with this id.
fn ticket_of(items: Run<'_>, id: &TxId) -> Option<u64>
    ensures { result ≡ ticket_of id.now items.entry }
{
    for item in items {
        if is_of(item, id) {
            return Some(item.ticket);
        }
    }
    None
}

/// The transaction with this id that the version has.
pub fn share_held(version: &Version, id: &TxId) -> Result<Option<Arc<Tx, Memory>>, NoMemory>
    ensures { IfOk result (λ t. option_map arc_value t ≡ option_and_then
        (item_at version.now.pool.items) (ticket_of id.now version.now.pool.items)) }
{
    let Some(ticket) = ticket_of(version.contents(), id) else {
        return Ok(None);
    };
    match version.lookup(ticket) {
        Some(tx) => Ok(Some(Arc::try_clone(tx)?)),
        None => Ok(None),
    }
}

// Why the pool has no place for the transaction, whatever the rules say.
#[tactic(auto, unfolding(mp_seqpool::specs::Inside::Place::misplaced))]
fn misplaced(version: &Version, limit: u64, tx: &Tx) -> Option<Refusal>
    requires { limit ≡ version.now.pool.limit }
    ensures refusal { result ≡ misplaced version.now.pool tx.now }
    ensures ticket { IfNone result (version.now.pool.last < 2 ^ 64 - 1) }
{
    if version.number() >= limit {
        return Some(Refusal::HistoryFull);
    }
    if version.last_ticket() == u64::MAX {
        return Some(Refusal::TicketsSpent);
    }
    if let Some(ticket) = ticket_of(version.contents(), tx.id()) {
        return Some(Refusal::AlreadyInPool(ticket));
    }
    let need = tx.size();
    let free = free_bytes(version);
    if need > free {
        return Some(Refusal::Full { need, free });
    }
    None
}

fn tick_of(version: &Version) -> u64
    ensures { result ≡ version.now.pool.ledger.tick }
{
    version.ledger().tick()
}

// The version's ledger state with all its transactions applied.
fn overlay_of(memory: Memory, version: &Version) -> Result<Overlay, NoMemory>
    ensures { IfOk result (IsOverlayOf version.now.pool) }
{
    let mut overlay = Overlay::over(memory, version.ledger())?;
    for item in version.contents() {
        overlay.reserve_for(&item.tx)?;
        overlay.apply(item.ticket, Arc::try_clone(&item.tx)?);
    }
    Ok(overlay)
}

/// What the submit of the transaction would be answered by the version's pool, which makes at most `limit` changes. It walks over
/// all its transactions.
///
/// # Errors
/// `NoMemory`.
pub fn answer_of<V: Verifier>(
    memory: Memory,
    version: &Version,
    limit: u64,
    tx: &Tx,
    verifier: &V,
) -> Result<Answer, NoMemory>
    requires { limit ≡ version.now.pool.limit }
    ensures { IfOk result (λ a.
        answer (V.accepts verifier.now) version.now.pool (Submit tx.now) ≡ a) }
{
    if let Some(refusal) = misplaced(version, limit, tx) {
        return Ok(Err(refusal));
    }
    let overlay = overlay_of(memory, version)?;
    match check(memory, tx, &overlay, tick_of(version), verifier) {
        Ok(_) => {
            let ticket = version.last_ticket() + 1;
            Ok(Ok(Reply::Accepted { ticket }))
        }
        Err(fault) => match fault {
            Invalid::NoMemory => Err(NoMemory),
            other => Ok(Err(Refusal::Invalid(other))),
        },
    }
}
