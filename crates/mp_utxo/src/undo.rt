//! Undoing what a transaction spends and makes.

ghost use Rattle.std.specs.Prelude.{◌≡◌};
ghost use Rattle.indexmap.specs.IndexMap.{hasher_of};
ghost use Rattle.mp_utxo.specs.Inside.Changes.{RestoresOne, Restores, ForgetsOne, Forgets};

use crate::changes::{Change, Changes, note_again};
use mp_tx::{Input, OutRef, Tx};

// Removes the change of the reference.
fn forget(changes: &mut Changes, reference: &OutRef)
    ensures notes { ForgetsOne changes.old.entries reference.now changes.new.entries }
    ensures salt { hasher_of changes.new ≡ hasher_of changes.old }
{
    let _ = changes.swap_remove(reference);
}

// Records that the reference isn't spent.
fn restore_one(changes: &mut Changes, reference: &OutRef)
    ensures notes { RestoresOne changes.old.entries reference.now changes.new.entries }
    ensures salt { hasher_of changes.new ≡ hasher_of changes.old }
{
    match changes.get(reference).copied() {
        None | Some(Change::Made(_)) => {}
        Some(Change::Spent) => forget(changes, reference),
        Some(Change::MadeThenSpent(place, _)) => {
            note_again(changes, reference, Change::Made(place));
        }
    }
}

/// Records that the inputs spend nothing.
pub fn restore(changes: &mut Changes, inputs: &[Input])
    ensures notes { Restores changes.old.entries inputs.now changes.new.entries }
    ensures salt { hasher_of changes.new ≡ hasher_of changes.old }
{
    for input in inputs {
        restore_one(changes, &input.from);
    }
}

/// Removes the changes of what the transaction makes.
pub fn forget_made(changes: &mut Changes, tx: &Tx)
    ensures notes { Forgets changes.old.entries tx.now changes.new.entries }
    ensures salt { hasher_of changes.new ≡ hasher_of changes.old }
{
    let count = tx.outputs().len() as u16;
    for index in 0..count {
        let own = OutRef {
            id: *tx.id(),
            index,
        };
        forget(changes, &own);
    }
}
