//! A list of items of one's own.

use mp_memory::Memory;
use mp_seqpool::Item;
use std::marker::Model;

/// Items in order. A contract sees the transactions with their tickets.
pub struct Items {
    items: Vec<Item, Memory>,
}

impl Drop for Items {
    fn drop(self) {
        let Items { items: _ } = self;
    }
}

impl Model for Items {
    ghost use Rattle.std.specs.Prelude.{ℕ, List};
    ghost use Rattle.mp_tx.specs.Transaction.{Transaction};
    ghost use Rattle.mp_seqpool.specs.Item.{items_of};

    ghost Value = { List (ℕ × Transaction) };

    ghost view = { λ i. items_of i.items.items };
}

impl Items {
    ghost use Rattle.std.specs.Prelude.{◌≡◌};
    ghost use Rattle.mp_seqpool.specs.Item.{items_of};

    /// These items.
    pub fn of(items: Vec<Item, Memory>) -> Items
        ensures { result ≡ items_of items.items }
    {
        Items { items }
    }

    /// The items, in order.
    pub fn as_slice(&self) -> &[Item]
        ensures { items_of result.now ≡ self.now }
    {
        &self.items
    }
}
