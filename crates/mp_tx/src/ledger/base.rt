//! The table of outputs below all layers.

ghost use Rattle.std.specs.Prelude.{◌≡◌, fold, IfOk, OnOk, []};
ghost use Rattle.std.specs.FinMap.{from_entries};
ghost use Rattle.indexmap.specs.IndexMap.{hasher_of};
ghost use Rattle.mp_tx.specs.Inside.Changes.{changed};
ghost use Rattle.mp_tx.specs.Inside.Base.{with_kept, with_change};

use crate::ledger::change::{Change, Changes};
use crate::output::Output;
use crate::reference::OutRef;
use crate::salt::Salt;
use indexmap::IndexMap;
use mp_memory::{Memory, NoMemory};

/// Outputs by their references.
pub type Base = IndexMap<OutRef, Output, Salt, Memory>;

// Adds a share of the output, unless the changes have its reference.
fn put_kept(
    base: &mut Base,
    changes: &Changes,
    reference: &OutRef,
    output: &Output,
) -> Result<(), NoMemory>
    ensures put { OnOk result (base.new.entries
        ≡ with_kept changes.now.entries base.old.entries (reference.now, output.now)) }
    ensures salt { OnOk result (hasher_of base.new ≡ hasher_of base.old) }
{
    if !changes.contains_key(reference) {
        base.insert(*reference, output.share()?)?;
    }
    Ok(())
}

// Adds shares of the old outputs, except those whose references the changes have.
fn put_all_kept(base: &mut Base, changes: &Changes, old: &Base) -> Result<(), NoMemory>
    ensures put { OnOk result (base.new.entries
        ≡ fold (with_kept changes.now.entries) base.old.entries old.now.entries) }
    ensures salt { OnOk result (hasher_of base.new ≡ hasher_of base.old) }
{
    for (reference, output) in old {
        put_kept(base, changes, reference, output)?;
    }
    Ok(())
}

// Adds the output, if one was made.
fn put_change(base: &mut Base, reference: OutRef, change: Change) -> Result<(), NoMemory>
    ensures put { OnOk result
        (base.new.entries ≡ with_change base.old.entries (reference, change)) }
    ensures salt { OnOk result (hasher_of base.new ≡ hasher_of base.old) }
{
    if let Change::Made(output) = change {
        base.insert(reference, output)?;
    }
    Ok(())
}

// Adds the outputs that were made.
fn put_changes(base: &mut Base, changes: Changes) -> Result<(), NoMemory>
    ensures put { OnOk result
        (base.new.entries ≡ fold with_change base.old.entries changes.entries) }
    ensures salt { OnOk result (hasher_of base.new ≡ hasher_of base.old) }
{
    for (reference, change) in changes {
        put_change(base, reference, change)?;
    }
    Ok(())
}

// Adds shares of the old outputs, except those whose references the changes have, and then what the changes made.
fn put_all(base: &mut Base, old: &Base, changes: Changes) -> Result<(), NoMemory>
    ensures put { OnOk result (base.new.entries ≡ fold with_change
        (fold (with_kept changes.entries) base.old.entries old.now.entries) changes.entries) }
    ensures salt { OnOk result (hasher_of base.new ≡ hasher_of base.old) }
{
    put_all_kept(base, &changes, old)?;
    put_changes(base, changes)
}

/// The outputs after the changes, in a table of their own.
pub fn settled(memory: Memory, old: &Base, changes: Changes) -> Result<Base, NoMemory>
    ensures settled { IfOk result (λ b. from_entries b.entries
        ≡ changed (from_entries old.now.entries) changes.entries) }
    ensures salt { IfOk result (λ b. hasher_of b ≡ hasher_of old.now) }
{
    let room = old.len() + changes.len();
    let mut base = IndexMap::with_capacity_and_hasher(memory, room, *old.hasher())?;
    put_all(&mut base, old, changes)?;
    Ok(base)
}
