//! A transaction with its ticket.

use mp_memory::{Memory, NoMemory};
use mp_tx::Tx;
use std::sync::Arc;

/// A transaction, and the ticket that it has in the pool.
#[derive(Debug)]
pub struct Item {
    pub ticket: u64,
    pub tx: Arc<Tx, Memory>,
}

impl Drop for Item {
    fn drop(self) {
        let Item { ticket: _, tx: _ } = self;
    }
}

impl Item {
    ghost use Rattle.std.specs.Prelude.{◌≡◌, IfOk};
    ghost use Rattle.mp_seqpool.specs.Item.{item_of};

    /// The same item, which shares its transaction.
    ///
    /// # Errors
    /// `NoMemory` if there are too many owners of the transaction.
    pub fn share(&self) -> Result<Item, NoMemory>
        ensures { IfOk result (λ i. item_of i ≡ item_of self.now) }
    {
        Ok(Item {
            ticket: self.ticket,
            tx: Arc::try_clone(&self.tx)?,
        })
    }
}
