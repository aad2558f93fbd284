//! Transactions and what `check` returns.

use crate::vectors::answer::check_answer;
use crate::vectors::case;
use crate::vectors::names::Names;
use crate::vectors::transaction::transaction;
use crate::vectors::verifier::KeyThenId;
use crate::vectors::wrong::Result;
use mp_rules::check;
use mp_tx::{Ledger, Tx};

/// Fails unless checking the transaction on the ledger state gives the expected result.
pub fn check_tx(names: &Names, tx: &Tx, ledger: &Ledger, wanted: &str) -> Result<()> {
    let answer = check(names.memory(), tx, ledger, ledger.tick(), &KeyThenId);
    check_answer(names, ledger, tx, &answer, wanted)
}

/// Fails unless checking the transaction gives the expected result.
pub fn check_case(names: &Names, given: &str, wanted: &str) -> Result<()> {
    let tx = transaction(names, given)?;
    let ledger = case::ledger(names, Some(*tx.id()), given)?;
    check_tx(names, &tx, &ledger, wanted)
}
