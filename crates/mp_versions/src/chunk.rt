//! Items that are shared together.

use mp_memory::{Memory, NoMemory};
use mp_seqpool::Item;
use std::marker::Model;
use std::sync::Arc;

/// The greatest number of items in a chunk.
pub const MAX_ITEMS: usize = 32;

/// Items that change together, and are shared as one if none changes.
pub struct Chunk {
    items: Arc<Vec<Item, Memory>, Memory>,
}

impl Drop for Chunk {
    fn drop(self) {
        let Chunk { items: _ } = self;
    }
}

impl Model for Chunk {
    ghost use Rattle.std.specs.Prelude.{ℕ, List};
    ghost use Rattle.std.specs.Arc.{arc_value};
    ghost use Rattle.mp_tx.specs.Transaction.{Transaction};
    ghost use Rattle.mp_seqpool.specs.Item.{items_of};

    ghost Value = { List (ℕ × Transaction) };

    ghost view = { λ c. items_of (arc_value c.items).items };
}

impl Chunk {
    ghost use Rattle.std.specs.Prelude.{◌≡◌, IfOk};
    ghost use Rattle.mp_seqpool.specs.Item.{items_of};
    ghost use Rattle.mp_versions.specs.Pages.{first_ticket, last_ticket};

    /// A chunk of these items.
    pub fn of(memory: Memory, items: Vec<Item, Memory>) -> Result<Chunk, NoMemory>
        ensures { IfOk result (λ c. c ≡ items_of items.items) }
    {
        Ok(Chunk {
            items: Arc::new(memory, items)?,
        })
    }

    /// The same chunk, shared. Returns `NoMemory` if there are too many owners.
    pub fn share(&self) -> Result<Chunk, NoMemory>
        ensures { IfOk result (λ c. c ≡ self.now) }
    {
        Ok(Chunk {
            items: Arc::try_clone(&self.items)?,
        })
    }

    /// Its items, in order.
    pub fn as_slice(&self) -> &[Item]
        ensures { items_of result.now ≡ self.now }
    {
        &self.items
    }

    /// The ticket of the first item, or 0 if there are no items.
    pub fn first_ticket(&self) -> u64
        ensures { result ≡ first_ticket self.now }
    {
        match self.as_slice().first() {
            Some(item) => item.ticket,
            None => 0,
        }
    }

    /// The ticket of the last item, or 0 if there are no items.
    pub fn last_ticket(&self) -> u64
        ensures { result ≡ last_ticket self.now }
    {
        match self.as_slice().split_last() {
            Some((item, _)) => item.ticket,
            None => 0,
        }
    }
}
