//! Transactions applied to a ledger, and what may be spent then.

use crate::vectors::names::Names;
use crate::vectors::wrong::{Result, Wrong};
use crate::vectors::{case, plain};
use mp_memory::Memory;
use mp_tx::{Ledger, Output, Tx};
use mp_utxo::{Overlay, Utxo};
use std::sync::Arc;

fn apply(overlay: &mut Overlay, tx: &Arc<Tx, Memory>) -> Result<()> {
    let shared = Arc::try_clone(tx)?;
    overlay.reserve_for(&shared)?;
    overlay.apply(1, shared);
    Ok(())
}

fn apply_all(names: &Names, overlay: &mut Overlay, words: &str) -> Result<()> {
    for word in words.split_whitespace() {
        if let Some(("apply", name)) = word.split_once('=') {
            apply(overlay, names.transaction(name)?)?;
        }
    }
    Ok(())
}

fn is_output(names: &Names, found: &Output, written: &str) -> Result<bool> {
    Ok(*found == plain::output(names, written)?)
}

// Whether the reference leads to the expected output, or to none.
fn leads(names: &Names, overlay: &Overlay, word: &str) -> Result<bool> {
    let (place, written) = word.split_once(':').ok_or(Wrong::Because("no output"))?;
    match overlay.get(&plain::reference(names, None, place)?) {
        None => Ok(written == "none"),
        Some(_) if written == "none" => Ok(false),
        Some(found) => is_output(names, found, written),
    }
}

fn check_outputs(names: &Names, overlay: &Overlay, wanted: &str) -> Result<()> {
    for word in wanted.split_whitespace() {
        if !leads(names, overlay, word)? {
            return Err(Wrong::Because("another output"));
        }
    }
    Ok(())
}

fn check_applied(names: &Names, overlay: &mut Overlay, given: &str, wanted: &str) -> Result<()> {
    apply_all(names, overlay, given)?;
    check_outputs(names, overlay, wanted)
}

fn check_over(names: &Names, ledger: &Ledger, given: &str, wanted: &str) -> Result<()> {
    let mut overlay = Overlay::over(names.memory(), ledger)?;
    check_applied(names, &mut overlay, given, wanted)
}

/// Applies each transaction like `apply=a` to the ledger's outputs, in this order. Fails unless each reference then leads to the
/// expected output.
pub fn check_case(names: &Names, given: &str, wanted: &str) -> Result<()> {
    let ledger = case::ledger(names, None, given)?;
    check_over(names, &ledger, given, wanted)
}
