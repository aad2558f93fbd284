//! Blocks whose ledger states a pool adopts.

use crate::tx_word::TxWord;
use mp_memory::Memory;
use mp_names::BlockBytes;
use mp_session::{Settings, block_bytes_at};
use mp_tx::Tx;
use std::marker::Model;
use std::sync::Arc;

/// Transactions, in their order.
pub type Txs = Vec<Arc<Tx, Memory>, Memory>;

/// A block as a line gives it.
#[derive(Drop)]
pub struct NewBlock {
    pub tick: u64,
    /// The block bytes, if the line gives them.
    pub block_bytes: Option<BlockBytes>,
    /// Words for its transactions.
    pub txs: Vec<TxWord, Memory>,
}

/// A block's transactions, with the tick and the block bytes (1 to 2^39) of the ledger state after it.
pub struct ResolvedBlock {
    tick: u64,
    block_bytes: u64,
    txs: Txs,
}

impl Drop for ResolvedBlock {
    fn drop(self) {
        let ResolvedBlock {
            tick: _,
            block_bytes: _,
            txs: _,
        } = self;
    }
}

impl Model for ResolvedBlock {
    ghost use Rattle.mp_serve.specs.Request as told;
    ghost use Rattle.mp_serve.specs.Inside.Block.{block_of};
    ghost use Rattle.mp_tx.specs.Ledger.{HasBlockBytes};

    ghost Value = { told.ResolvedBlock };

    ghost view = { block_of };

    ghost invariant = { λ b. HasBlockBytes b.block_bytes };
}

impl ResolvedBlock {
    ghost use Rattle.std.specs.Prelude.{◌≡◌, map, unwrap_or};
    ghost use Rattle.std.specs.Arc.{arc_value};
    ghost use Rattle.mp_tx.specs.Ledger.{HasBlockBytes};
    ghost use Rattle.mp_session.specs.Settings.{block_bytes_of};

    /// A block of these transactions. Without block bytes in the line, the setting applies.
    pub fn at(
        settings: &Settings,
        tick: u64,
        block_bytes: &Option<BlockBytes>,
        txs: Txs,
    ) -> ResolvedBlock
        ensures { result ≡ record {
          tick = tick;
          block_bytes = unwrap_or block_bytes.now (block_bytes_of settings.now);
          txs = map arc_value txs.items;
        } }
    {
        ResolvedBlock {
            tick,
            block_bytes: block_bytes_at(settings, block_bytes),
            txs,
        }
    }

    /// The tick of the ledger state after it.
    pub fn tick(&self) -> u64
        ensures { result ≡ self.now.tick }
    {
        self.tick
    }

    /// The block bytes of the ledger state after it, 1 to 2^39.
    pub fn block_bytes(&self) -> u64
        ensures same { result ≡ self.now.block_bytes }
        ensures range { HasBlockBytes result }
    {
        self.block_bytes
    }

    /// Its transactions, in their order.
    pub fn txs(&self) -> &[Arc<Tx, Memory>]
        ensures { map arc_value result.now ≡ self.now.txs }
    {
        &self.txs
    }
}
