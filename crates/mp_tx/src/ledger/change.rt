//! Changes of references.

ghost use Rattle.std.specs.Prelude.{◌≡◌, fold, OnOk};
ghost use Rattle.indexmap.specs.IndexMap.{hasher_of};
ghost use Rattle.mp_tx.specs.Ledger.{Utxo};
ghost use Rattle.mp_tx.specs.Inside.Changes.{changed_at, changed, with_earlier};

use crate::output::Output;
use crate::reference::OutRef;
use crate::salt::Salt;
use indexmap::IndexMap;
use mp_memory::{Memory, NoMemory};

/// The change of a reference: its output was spent, or made.
#[derive(Drop)]
pub enum Change {
    Spent,
    Made(Output),
}

/// The change of each reference that was spent or made.
pub type Changes = IndexMap<OutRef, Change, Salt, Memory>;

impl Change {
    ghost use Rattle.std.specs.Prelude.{◌≡◌, IfOk, option_copied};
    ghost use Rattle.mp_tx.specs.Inside.Changes.{output_of};

    /// The output of the reference after the change, if there is one.
    pub fn output(&self) -> Option<&Output>
        ensures { option_copied result ≡ output_of self.now }
    {
        match self {
            Change::Spent => None,
            Change::Made(output) => Some(output),
        }
    }

    /// The same change. The entries of the output's bundle are shared and not copied.
    pub fn share(&self) -> Result<Change, NoMemory>
        ensures { IfOk result (λ c. c ≡ self.now) }
    {
        match self {
            Change::Spent => Ok(Change::Spent),
            Change::Made(output) => Ok(Change::Made(output.share()?)),
        }
    }
}

/// Records the change of a reference, and replaces an earlier one.
pub fn note(changes: &mut Changes, reference: OutRef, change: Change) -> Result<(), NoMemory>
    ensures changed { OnOk result ((u : Utxo) → changed u changes.new.entries
        ≡ changed_at (changed u changes.old.entries) reference change) }
    ensures salt { OnOk result (hasher_of changes.new ≡ hasher_of changes.old) }
{
    changes.insert(reference, change)?;
    Ok(())
}

// Records an earlier change of the reference, unless the changes have one.
fn note_earlier(changes: &mut Changes, reference: &OutRef, change: &Change) -> Result<(), NoMemory>
    ensures noted { OnOk result (changes.new.entries
        ≡ with_earlier changes.old.entries (reference.now, change.now)) }
    ensures salt { OnOk result (hasher_of changes.new ≡ hasher_of changes.old) }
{
    if !changes.contains_key(reference) {
        changes.insert(*reference, change.share()?)?;
    }
    Ok(())
}

/// Records earlier changes of references that the changes don't have.
pub fn join(changes: &mut Changes, earlier: &Changes) -> Result<(), NoMemory>
    ensures noted { OnOk result (changes.new.entries
        ≡ fold with_earlier changes.old.entries earlier.now.entries) }
    ensures salt { OnOk result (hasher_of changes.new ≡ hasher_of changes.old) }
{
    for (reference, change) in earlier {
        note_earlier(changes, reference, change)?;
    }
    Ok(())
}
