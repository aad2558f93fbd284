//! Blocks: a ledger state after a block of transactions, each of which is valid after those before it.

mod applied_block;
mod applying;
mod refusal;
mod touching;

ghost use Rattle.std.specs.Prelude.{◌≡◌, IfOk, OnOk, IfErr, Ok, map, length};
ghost use Rattle.std.specs.Arc.{arc_value};
ghost use Rattle.mp_tx.specs.Ledger.{HasBlockBytes};
ghost use Rattle.mp_tx.specs.Undo.{GoesBack, IsWithin};
ghost use Rattle.mp_rules.specs.Block.{at_tick, apply_block};
ghost use Rattle.mp_rules.specs.Touched.{touched_by_all};
ghost use Rattle.mp_rules.specs.BlockRefusal.{IsBlockRefusal};
ghost use Rattle.mp_rules.specs.Inside.RefusedBlock.{HasBadBytes};

use crate::block::applying::{after_tx, follow};
use crate::block::touching::touched_by_all;
use crate::verifier::Verifier;
pub use applied_block::AppliedBlock;
use mp_memory::Memory;
use mp_tx::{Ledger, Tx, Undo};
pub use refusal::BlockRefusal;
use std::sync::Arc;

// The same outputs at the tick, with these block bytes. They are shared and not copied.
fn at_tick(
    memory: Memory,
    ledger: &Ledger,
    tick: u64,
    block_bytes: u64,
) -> Result<Ledger, BlockRefusal>
    ensures ok { IfOk result (λ l. l ≡ at_tick ledger.now tick block_bytes) }
    ensures block_bytes { OnOk result (HasBlockBytes block_bytes) }
    ensures refused { IfErr result (HasBadBytes block_bytes) }
{
    follow(memory, ledger, tick, block_bytes, &[], Vec::new(memory))
}

/// The ledger state after a block of these transactions, at the tick. All rules check each transaction on the ledger
/// state after those before it. Then what it spends is removed, and what it makes is added. `block_bytes` is the
/// greatest size of the next block, in bytes.
/// The ledger state before the block doesn't change, and shares with the new one what both have. The undo takes memory
/// in proportion to the block.
///
/// # Errors
/// `BadBlockBytes` if the block bytes are 0 or greater than 2^39. Else `Invalid` with the index of the first
/// transaction that isn't valid, and the first rule that fails. `NoMemory` may be returned instead of any answer.
pub fn apply_block<V: Verifier>(
    memory: Memory,
    ledger: &Ledger,
    tick: u64,
    block_bytes: u64,
    txs: &[Arc<Tx, Memory>],
    verifier: &V,
) -> Result<AppliedBlock, BlockRefusal>
    ensures ok { IfOk result (λ b. apply_block (V.accepts verifier.now)
        ledger.now tick block_bytes (map arc_value txs.now) ≡ Ok b.ledger) }
    ensures undo { IfOk result (λ b. GoesBack b.ledger b.undo ledger.now) }
    ensures within { IfOk result
        (λ b. IsWithin (length (touched_by_all (map arc_value txs.now))) b.undo) }
    ensures block_bytes { OnOk result (HasBlockBytes block_bytes) }
    ensures refused { IfErr result (IsBlockRefusal (V.accepts verifier.now)
        ledger.now tick block_bytes (map arc_value txs.now)) }
{
    let mut now = at_tick(memory, ledger, tick, block_bytes)?;
    for (place, tx) in txs.iter().enumerate() {
        now = after_tx(memory, &now, place, tx, verifier)?;
    }
    let touched = touched_by_all(memory, txs)?;
    let undo = Undo::between(memory, ledger, &now, &touched)?;
    Ok(AppliedBlock { ledger: now, undo })
}
