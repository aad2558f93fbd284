//! The result of a block.

use mp_tx::{Ledger, Undo};

/// The ledger state after a block, and the undo that leads back to the one before.
#[derive(Drop)]
pub struct AppliedBlock {
    pub ledger: Ledger,
    pub undo: Undo,
}
