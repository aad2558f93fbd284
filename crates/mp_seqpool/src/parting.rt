//! Which items stay on another ledger state, as far as the outputs that they name decide it.

ghost use Rattle.std.specs.Prelude.{◌≡◌, ◌<◌, [], All, IfSome, IfOk, IsTrue};
ghost use Rattle.std.specs.List.{list_any};
ghost use Rattle.std.specs.FinMap.{get};
ghost use Rattle.mp_seqpool.specs.ValidatedTx.{ticketed};
ghost use Rattle.mp_seqpool.specs.Parted.{is_timely, is_spent_since, is_lost, IsUntouched, IsParted};
ghost use Rattle.mp_seqpool.specs.Inside.Parts.{AreBelow, Stays, Goes, Parts};

use crate::validated_tx::ValidatedTx;
use mp_memory::{Memory, NoMemory};
use mp_rules::output_taken;
use mp_tickets::{TicketList, Tickets};
use mp_tx::{Input, Ledger, OutRef, Tx};
use mp_utxo::Overlay;

/// Items, divided into those that stay and those that don't.
#[derive(Drop)]
pub struct Parted {
    /// The tickets of the items that stay as they are.
    pub kept: Tickets,
    /// The tickets of the items that can't stay.
    pub dropped: Tickets,
}

fn is_timely(tx: &Tx, tick: u64) -> bool
    ensures { result ≡ is_timely tick tx.now }
{
    tx.from() <= tick && tick <= tx.to()
}

// Whether the reference leads to the same output on both.
fn leads_alike(old: &Ledger, new: &Ledger, reference: &OutRef) -> bool
    ensures { IsTrue result → get old.now.utxo reference.now ≡ get new.now.utxo reference.now }
{
    match old.get(reference) {
        Some(before) => match new.get(reference) {
            Some(after) => *before == *after,
            None => false,
        },
        None => new.get(reference).is_none(),
    }
}

fn inputs_lead_alike(old: &Ledger, new: &Ledger, inputs: &[Input]) -> bool
    ensures { IsTrue result → All
        (λ i. get old.now.utxo i.from ≡ get new.now.utxo i.from) inputs.now }
{
    inputs.iter().all(|i| leads_alike(old, new, &i.from))
}

fn references_lead_alike(old: &Ledger, new: &Ledger, references: &[OutRef]) -> bool
    ensures { IsTrue result → All
        (λ r. get old.now.utxo r ≡ get new.now.utxo r) references.now }
{
    references.iter().all(|r| leads_alike(old, new, r))
}

fn is_untouched(old: &Ledger, new: &Ledger, tx: &Tx) -> bool
    ensures { IsTrue result → IsUntouched old.now new.now tx.now }
{
    is_timely(tx, new.tick())
        && inputs_lead_alike(old, new, tx.inputs())
        && references_lead_alike(old, new, tx.references())
        && output_taken(tx, new).is_none()
}

// Whether the reference leads to an output on the old ledger state only.
fn is_spent_since(old: &Ledger, new: &Ledger, reference: &OutRef) -> bool
    ensures { result ≡ is_spent_since (get old.now.utxo) (get new.now.utxo) reference.now }
{
    old.get(reference).is_some() && new.get(reference).is_none()
}

fn spends_what_is_spent(old: &Ledger, new: &Ledger, inputs: &[Input]) -> bool
    ensures { result ≡ list_any
        (λ i. is_spent_since (get old.now.utxo) (get new.now.utxo) i.from) inputs.now }
{
    inputs.iter().any(|i| is_spent_since(old, new, &i.from))
}

fn is_lost(old: &Ledger, new: &Ledger, tx: &Tx) -> bool
    ensures { result ≡ is_lost old.now new.now tx.now }
{
    !is_timely(tx, new.tick()) || spends_what_is_spent(old, new, tx.inputs())
}

fn nothing_parted(memory: Memory) -> Parted
    ensures kept { result.kept ≡ [] }
    ensures dropped { result.dropped ≡ [] }
{
    Parted {
        kept: Tickets::new(memory),
        dropped: Tickets::new(memory),
    }
}

// Adds one more item to the right list, and returns true. Else returns false, and adds nothing. The outputs that the
// item names don't decide it, or it can't stay but has dependents, or `most` items are lost already.
fn part_one(
    overlay: &Overlay,
    new: &Ledger,
    most: usize,
    parted: &mut Parted,
    ticket: u64,
    tx: &Tx,
) -> Result<bool, NoMemory>
    requires { AreBelow ticket parted.old }
    ensures { IfOk result (λ known. IsTrue known
        → Parts overlay.now.ledger overlay.now.applied new.now
        parted.old (ticket, tx.now) parted.new) }
{
    let old = overlay.ledger();
    if is_untouched(old, new, tx) {
        parted.kept.push(ticket)?;
        return Ok(true);
    }
    if parted.dropped.as_slice().len() < most && is_lost(old, new, tx) && overlay.is_leaf(tx) {
        parted.dropped.push(ticket)?;
        return Ok(true);
    }
    Ok(false)
}

/// Divides the overlay's items into those that stay as they are on the new ledger state, and those that can't stay and
/// have no dependents.
/// An item stays if what it names leads to the same outputs on both ledger states. It can't stay if its interval
/// doesn't have the new tick, or if an output that it spends has been spent since. No overlay is built, and the only
/// rules that are checked are the tick and the item's own outputs.
/// Returns `None` if this doesn't decide an item, or if more than `most` items can't stay.
///
/// # Errors
/// `NoMemory`.
pub fn part(
    memory: Memory,
    overlay: &Overlay,
    new: &Ledger,
    items: &TicketList<ValidatedTx>,
    most: usize,
) -> Result<Option<Parted>, NoMemory>
    ensures { IfOk result (λ parted. IfSome parted
        (IsParted overlay.now.ledger overlay.now.applied new.now (ticketed items.now))) }
{
    let mut parted = nothing_parted(memory);
    for (ticket, item) in items.iter() {
        if !part_one(overlay, new, most, &mut parted, ticket, &item.tx)? {
            return Ok(None);
        }
    }
    Ok(Some(parted))
}
