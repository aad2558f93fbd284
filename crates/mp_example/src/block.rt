//! A block of transactions.
use mp_memory::{Memory, NoMemory};
use mp_tx::{OutRef, Tx};
use mp_versions::RunWithin;
use std::sync::Arc;

/// Transactions, and the total number of their bytes.
#[derive(Drop)]
pub struct Block {
    pub txs: Vec<Arc<Tx, Memory>, Memory>,
    pub bytes: u64,
}

impl Block {
    /// A block without transactions.
    pub fn empty(memory: Memory) -> Block {
        Block {
            txs: Vec::new(memory),
            bytes: 0,
        }
    }

    /// Whether one of the transactions spends the output.
    pub fn spends(&self, reference: &OutRef) -> bool {
        self.txs.iter().any(|tx| tx.inputs().iter().any(|input| input.from == *reference))
    }
}

/// A block of the transactions in this run.
pub fn fill(memory: Memory, run: RunWithin<'_>) -> Result<Block, NoMemory> {
    let mut block = Block::empty(memory);
    for item in run {
        let tx = Arc::try_clone(&item.tx)?;
        block.txs.push(tx)?;
        block.bytes = block.bytes.saturating_add(item.tx.size());
    }
    Ok(block)
}
