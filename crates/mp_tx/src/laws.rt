//! Laws of transactions and of blocks. Each is the contract of a function that does nothing.

ghost use Rattle.mp_tx.specs.Laws.{TransactionIsOne, FaultlessIsTransaction, BlockChangesItsOwn};

/// Bytes spell at most one transaction, which is the one that decoding returns. A transaction has one spelling.
pub fn transaction_is_one()
    ensures { TransactionIsOne }
{}

/// Parts have no fault exactly when a transaction may have them.
pub fn faultless_is_transaction()
    ensures { FaultlessIsTransaction }
{}

/// The ledger states before and after a block differ at most where the block spends and makes. So `Undo::between` of
/// these two leads back.
pub fn block_changes_its_own()
    ensures { BlockChangesItsOwn }
{}
