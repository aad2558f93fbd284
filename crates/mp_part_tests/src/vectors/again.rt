//! Transactions whose scripts were run before, and what `check_with` returns.

use crate::vectors::answer::{check_answer, is_fault};
use crate::vectors::case;
use crate::vectors::check::check_tx;
use crate::vectors::names::Names;
use crate::vectors::transaction::transaction;
use crate::vectors::verifier::KeyThenId;
use crate::vectors::wrong::{Result, Wrong};
use mp_rules::{Invalid, check_with, precheck};
use mp_tx::{Ledger, Output, Tx};

// The first result, and the result after it.
#[derive(Clone, Copy)]
struct Wanted<'a> {
    before: &'a str,
    answer: &'a str,
}

fn is_before(names: &Names, before: &Option<Invalid>, wanted: &str) -> Result<bool> {
    match before {
        None => Ok(wanted == "none"),
        Some(_) if wanted == "none" => Ok(false),
        Some(found) => is_fault(names, found, wanted),
    }
}

fn check_before(names: &Names, before: &Option<Invalid>, wanted: &str) -> Result<()> {
    if is_before(names, before, wanted)? {
        Ok(())
    } else {
        Err(Wrong::Because("something else was found before"))
    }
}

fn check_upon(
    names: &Names,
    tx: &Tx,
    ledger: &Ledger,
    outputs: &[Output],
    wanted: Wanted<'_>,
) -> Result<()> {
    let memory = names.memory();
    if outputs.len() != tx.inputs().len() + tx.references().len() {
        return Err(Wrong::Because("another number of outputs before"));
    }
    let checked = precheck(memory, tx, outputs, &KeyThenId)?;
    check_before(names, &checked.fault(), wanted.before)?;
    let answer = check_with(memory, tx, ledger, ledger.tick(), &checked, &KeyThenId);
    check_answer(names, ledger, tx, &answer, wanted.answer)
}

fn check_again(
    names: &Names,
    tx: &Tx,
    ledger: &Ledger,
    given: &str,
    wanted: Wanted<'_>,
) -> Result<()> {
    let outputs = case::upon(names, given)?;
    check_upon(names, tx, ledger, &outputs, wanted)?;
    check_tx(names, tx, ledger, wanted.answer)
}

fn check_wanted(names: &Names, given: &str, wanted: Wanted<'_>) -> Result<()> {
    let tx = transaction(names, given)?;
    let ledger = case::ledger(names, Some(*tx.id()), given)?;
    check_again(names, &tx, &ledger, given, wanted)
}

/// Fails unless the earlier and the present result are the expected ones, and `check` returns the same.
pub fn check_case(names: &Names, given: &str, wanted: &str) -> Result<()> {
    match wanted.split_once(',') {
        Some((before, answer)) => {
            let (before, answer) = (before.trim(), answer.trim());
            check_wanted(names, given, Wanted { before, answer })
        }
        None => Err(Wrong::Because("no ','")),
    }
}
