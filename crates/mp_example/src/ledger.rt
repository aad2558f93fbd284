//! Ledger states: the one that the pool opens with, and the one after a block.
use crate::block::Block;
use crate::payment::payment;
use anyhow::Result;
use mp_memory::Memory;
use mp_tx::{Ledger, OutRef, Output, Salt};

/// The block bytes: room for four transactions of 181 bytes.
pub const BLOCK_BYTES: u64 = 724;

// The number of outputs of the ledger state with which the pool opens.
const OPENINGS: u16 = 8;

// A host picks this number at random and keeps it secret, so that nobody can choose transactions that make a ledger
// state's table slow. No answer depends on it. Here it is fixed, since nobody else uses this pool.
const SALT: u64 = 7;

/// Output `index` of the ledger state that the pool opens with.
pub fn opening(index: u16) -> OutRef {
    OutRef { id: [0; 32], index }
}

// The opening outputs that the block leaves.
fn left_by(memory: Memory, block: &Block) -> Result<Vec<(OutRef, Output), Memory>> {
    let mut outputs = Vec::new(memory);
    for index in 0..OPENINGS {
        if !block.spends(&opening(index)) {
            let output = payment(memory)?;
            outputs.push((opening(index), output))?;
        }
    }
    Ok(outputs)
}

/// The ledger state that the pool opens with, at tick 0.
pub fn opening_ledger(memory: Memory) -> Result<Ledger> {
    let outputs = left_by(memory, &Block::empty(memory))?;
    Ok(Ledger::of_outputs(memory, Salt::new(SALT), 0, BLOCK_BYTES, outputs)?)
}

/// The ledger state after the block, at tick 1: the opening outputs that it leaves, and what it pays.
pub fn ledger_after(memory: Memory, block: &Block) -> Result<Ledger> {
    let mut outputs = left_by(memory, block)?;
    for tx in &block.txs {
        let paid = OutRef {
            id: *tx.id(),
            index: 0,
        };
        let output = payment(memory)?;
        outputs.push((paid, output))?;
    }
    Ok(Ledger::of_outputs(memory, Salt::new(SALT), 1, BLOCK_BYTES, outputs)?)
}
