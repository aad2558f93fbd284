//! The ids of the transactions to take out.

ghost use Rattle.std.specs.Prelude.{◌≡◌, IfOk, OnOk, is_some};
ghost use Rattle.std.specs.Map.{lookup};
ghost use Rattle.indexmap.specs.IndexMap.{hasher_of};
ghost use Rattle.mp_tx.specs.Reference.{same_ref};
ghost use Rattle.mp_utxo.specs.ById.{key_of};
ghost use Rattle.mp_seqpool.specs.Inside.IdSet.{AreNamed, Notes};

use indexmap::IndexMap;
use mp_memory::{Memory, NoMemory};
use mp_tx::{Salt, TxId};
use mp_utxo::{ById, key_of};

/// Ids in a table, so that a look-up doesn't search the list.
pub type IdSet = ById<()>;

// Adds the id.
fn note(names: &mut IdSet, id: &TxId) -> Result<(), NoMemory>
    ensures notes { OnOk result (Notes names.old.entries id.now names.new.entries) }
    ensures salt { hasher_of names.new ≡ hasher_of names.old }
{
    names.insert(key_of(id), ())?;
    Ok(())
}

/// A table of these ids.
pub fn id_set_of(memory: Memory, salt: Salt, ids: &[TxId]) -> Result<IdSet, NoMemory>
    ensures named { IfOk result (λ names. AreNamed ids.now names.entries) }
    ensures salt { IfOk result (λ names. hasher_of names ≡ salt) }
{
    let mut names = IndexMap::with_capacity_and_hasher(memory, ids.len(), salt)?;
    for id in ids {
        note(&mut names, id)?;
    }
    Ok(names)
}

/// Whether the id is one of them.
pub fn is_named(names: &IdSet, id: &TxId) -> bool
    ensures { result ≡ is_some (lookup (same_ref (key_of id.now)) names.now.entries) }
{
    names.contains_key(&key_of(id))
}
