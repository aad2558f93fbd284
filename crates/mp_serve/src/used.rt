//! What is adopted of what is staged.

use mp_tx::Ledger;

/// What of that which is staged a new ledger state uses. Once it is adopted, that isn't staged any more.
#[derive(Drop)]
pub enum Used {
    Nothing,
    /// The transactions.
    Txs,
    /// The outputs, and the ledger state without outputs that replaces them.
    Outputs(Ledger),
}
