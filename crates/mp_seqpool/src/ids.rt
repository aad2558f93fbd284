//! Lists of ids.

use mp_memory::Memory;
use mp_tx::TxId;
use std::marker::Model;

/// The ids of transactions, in any order. An id may occur twice. A contract sees the list of them.
#[derive(Debug)]
pub struct Ids {
    ids: Vec<TxId, Memory>,
}

impl Drop for Ids {
    fn drop(self) {
        let Ids { ids: _ } = self;
    }
}

impl Model for Ids {
    ghost use Rattle.std.specs.Prelude.{ℕ, List};

    ghost Value = { List (List ℕ) };

    ghost view = { λ i. i.ids.items };
}

impl Ids {
    ghost use Rattle.std.specs.Prelude.{◌≡◌};

    /// These ids. It takes no memory.
    pub fn of(ids: Vec<TxId, Memory>) -> Ids
        ensures { result ≡ ids.items }
    {
        Ids { ids }
    }

    /// The ids, in their order.
    pub fn as_slice(&self) -> &[TxId]
        ensures { result.now ≡ self.now }
    {
        &self.ids
    }
}
