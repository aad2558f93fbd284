//! Blocks of a pool's transactions.
ghost use Rattle.std.specs.Prelude.{◌≡◌, ◌≢◌, ◌<◌, ◌^◌, [], length, IfOk, OnErr};
ghost use Rattle.mp_seqpool.specs.Keep.{bytes_of};
ghost use Rattle.mp_history.specs.Log.{state_after};
ghost use Rattle.mp_seqpool.specs.Item.{items_of};
ghost use Rattle.mp_seqpool.specs.Reading.{within};

use crate::first_items::share_first;
use crate::items::Items;
use crate::snapshot::Snapshot;
use mp_history::PoolName;
use mp_memory::{Memory, NoMemory};
use mp_seqpool::Item;

/// The first transactions of a pool, for a block. They are the pool's own, and shared.
#[derive(Drop)]
pub struct Block {
    /// The transactions with their tickets, oldest first.
    pub items: Items,
    /// How many bytes they have in all.
    pub bytes: u64,
    /// How many entries the pool's history had.
    pub number: u64,
}

// How many bytes the items have in all.
fn sum_sizes(items: &[Item]) -> u64
    requires { bytes_of (items_of items.now) < 2 ^ 64 }
    ensures { result ≡ bytes_of (items_of items.now) }
{
    let mut bytes = 0;
    for item in items {
        bytes += item.tx.size();
    }
    bytes
}

/// The transactions from the oldest on, as long as they fit into `bytes` bytes in all. By `laws::blocks`, they are valid one after the
/// other on the adopted ledger state.
///
/// # Errors
/// `NoMemory`, but not if no transaction is taken.
pub fn forge<N: PoolName>(
    memory: Memory,
    snapshot: &Snapshot<'_, N>,
    bytes: u64,
) -> Result<Block, NoMemory>
    ensures items { IfOk result (λ block. block.items
        ≡ within bytes (state_after N.accepts snapshot.now).items) }
    ensures bytes { IfOk result (λ block. block.bytes ≡ bytes_of block.items) }
    ensures number { IfOk result (λ block. block.number ≡ length snapshot.now.entries) }
    ensures wanting { OnErr result
        (within bytes (state_after N.accepts snapshot.now).items ≢ []) }
{
    let (count, _) = snapshot.size();
    let number = snapshot.number();
    let items = share_first(memory, snapshot.take(bytes), count as u64)?;
    let bytes = sum_sizes(items.as_slice());
    Ok(Block {
        items,
        bytes,
        number,
    })
}
