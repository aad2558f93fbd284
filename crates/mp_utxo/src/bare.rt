//! Transactions without outputs, which no reference leads to.

ghost use Rattle.std.specs.Prelude.{◌≡◌, ◌<◌, length};
ghost use Rattle.indexmap.specs.IndexMap.{spare, hasher_of};
ghost use Rattle.mp_utxo.specs.ById.{key_of};
ghost use Rattle.mp_utxo.specs.Inside.Bare.{noted_at, NotesBare};

use crate::by_id::{ById, key_of};
use mp_tx::{Tx, TxId};

/// The tickets of transactions without outputs.
pub type Bare = ById<u64>;

/// Records the ticket of the transaction, if it has no outputs.
pub fn note_bare(bare: &mut Bare, ticket: u64, tx: &Tx)
    requires { length tx.now.outputs ≡ 0 → 0 < spare bare.old }
    ensures notes { NotesBare bare.old.entries ticket tx.now bare.new.entries }
    ensures salt { hasher_of bare.new ≡ hasher_of bare.old }
{
    if tx.outputs().is_empty() && bare.insert(key_of(tx.id()), ticket).is_err() {
        unreachable!()
    }
}

/// The ticket that is recorded for the id.
pub fn ticket_of_bare(bare: &Bare, id: &TxId) -> Option<u64>
    ensures { result ≡ noted_at bare.now.entries (key_of id.now) }
{
    if bare.is_empty() {
        return None;
    }
    bare.get(&key_of(id)).copied()
}
