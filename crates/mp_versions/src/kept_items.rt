//! Which items stay valid on another ledger state.
ghost use Rattle.std.specs.Prelude.{◌≡◌, ◌+◌, ◌≤◌, ◌^◌, All, IfOk, OnOk};
ghost use Rattle.mp_tx.specs.Spelling.{size_of};
ghost use Rattle.mp_rules.specs.Checked.{IsSigned};
ghost use Rattle.mp_seqpool.specs.Keep.{keep, bytes_of, transactions};
ghost use Rattle.mp_seqpool.specs.Item.{item_of};
ghost use Rattle.mp_versions.specs.Inside.KeptItems.{HasTried, IsBegun, Keeps, Tries};

use crate::items::Items;
use crate::run::Run;
use mp_memory::{Memory, NoMemory};
use mp_rules::{Verifier, stays_valid};
use mp_seqpool::Item;
use mp_tx::Ledger;
use mp_utxo::Overlay;
use std::sync::Arc;

/// Items that stay valid on a ledger state, one after the other. They share their transactions with the pool.
#[derive(Drop)]
pub struct KeptItems {
    /// The transactions with their tickets, oldest first.
    pub items: Items,
    /// The total number of their bytes.
    pub bytes: u64,
}

// What has been kept so far: the ledger state with it applied, the items, and the number of their bytes.
#[derive(Drop)]
struct Keeping {
    overlay: Overlay,
    items: Vec<Item, Memory>,
    bytes: u64,
}

// The ledger state without items.
fn begin(memory: Memory, ledger: &Ledger) -> Result<Keeping, NoMemory>
    ensures { IfOk result (IsBegun ledger.now) }
{
    Ok(Keeping {
        overlay: Overlay::over(memory, ledger)?,
        items: Vec::new(memory),
        bytes: 0,
    })
}

// Applies the item and appends it.
fn keep(kept: &mut Keeping, item: &Item) -> Result<(), NoMemory>
    requires { kept.old.bytes + size_of (item_of item.now).1 ≤ 2 ^ 40 }
    ensures { OnOk result (Keeps kept.old (item_of item.now) kept.new) }
{
    kept.overlay.reserve_for(&item.tx)?;
    kept.overlay.apply(item.ticket, Arc::try_clone(&item.tx)?);
    kept.items.push(item.share()?)?;
    kept.bytes += item.tx.size();
    Ok(())
}

// Keeps the item if it is valid after those that were kept, and else leaves it out.
fn try_item<V: Verifier>(
    memory: Memory,
    kept: &mut Keeping,
    item: &Item,
    verifier: &V,
) -> Result<(), NoMemory>
    requires signed { IsSigned (V.accepts verifier.now) (item_of item.now).1 }
    requires room { kept.old.bytes + size_of (item_of item.now).1 ≤ 2 ^ 40 }
    ensures { OnOk result (Tries (V.accepts verifier.now)
        kept.old (item_of item.now) kept.new) }
{
    let tick = kept.overlay.ledger().tick();
    if stays_valid(memory, &item.tx, &kept.overlay, tick, None, verifier)? {
        keep(kept, item)?;
    }
    Ok(())
}

// Tries each of the items, oldest first.
fn try_all<V: Verifier>(
    memory: Memory,
    items: Run<'_>,
    ledger: &Ledger,
    verifier: &V,
) -> Result<Keeping, NoMemory>
    requires signed { All (IsSigned (V.accepts verifier.now)) (transactions items) }
    requires most { bytes_of items ≤ 2 ^ 40 }
    ensures { IfOk result (HasTried (V.accepts verifier.now) ledger.now items.entry) }
{
    let mut kept = begin(memory, ledger)?;
    for item in items {
        try_item(memory, &mut kept, item, verifier)?;
    }
    Ok(kept)
}

/// The items that would stay valid on the ledger state: each that is valid there after those kept before it. Together
/// they have at most 2^40 bytes. Their signatures are good, and aren't checked again.
///
/// # Errors
/// `NoMemory`.
pub fn keep_valid<V: Verifier>(
    memory: Memory,
    items: Run<'_>,
    ledger: &Ledger,
    verifier: &V,
) -> Result<KeptItems, NoMemory>
    requires signed { All (IsSigned (V.accepts verifier.now)) (transactions items) }
    requires most { bytes_of items ≤ 2 ^ 40 }
    ensures items { IfOk result (λ k. k.items
        ≡ keep (V.accepts verifier.now) ledger.now items.entry) }
    ensures bytes { IfOk result (λ k. k.bytes ≡ bytes_of k.items) }
{
    let kept = try_all(memory, items, ledger, verifier)?;
    Ok(KeptItems {
        items: Items::of(kept.items),
        bytes: kept.bytes,
    })
}
