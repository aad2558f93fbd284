//! Tables whose keys are transaction ids.

ghost use Rattle.std.specs.Prelude.{◌≡◌};
ghost use Rattle.mp_utxo.specs.ById.{key_of};

use indexmap::IndexMap;
use mp_memory::Memory;
use mp_tx::{OutRef, Salt, TxId};

/// A table whose keys are transaction ids. The key of an id is the reference to its first output. The hash of a
/// reference depends on the salt, so nobody without it can make ids that collide.
pub type ById<T> = IndexMap<OutRef, T, Salt, Memory>;

/// The key of the id in a table.
pub fn key_of(id: &TxId) -> OutRef
    ensures { result ≡ key_of id.now }
{
    OutRef { id: *id, index: 0 }
}
