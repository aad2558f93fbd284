//! The result of checking a transaction, and the expected one.

use crate::vectors::names::Names;
use crate::vectors::plain;
use crate::vectors::wrong::{self, Wrong};
use mp_bundle::Token;
use mp_rules::{Invalid, Resolved};
use mp_tx::{Ledger, OutRef, Output, Tx};

// Whether a fault is of this token, with these totals, as in `p.x 5 4`.
fn is_unbalanced(names: &Names, found: &Invalid, words: &str) -> wrong::Result<bool> {
    let (word, totals) = words.split_once(' ').ok_or(Wrong::Because("no totals"))?;
    let (policy, name) = plain::token(names, word)?;
    let Some(token) = Token::of(&policy, name.as_bytes()) else {
        return Err(Wrong::Because("too long a name"));
    };
    let (taken, paid) = totals
        .split_once(' ')
        .ok_or(Wrong::Because("no second total"))?;
    let wanted = Invalid::Unbalanced {
        policy: token.policy,
        name: token.name,
        taken: taken.parse::<i128>()?,
        paid: paid.parse::<i128>()?,
    };
    Ok(*found == wanted)
}

// Whether this is how a fault is printed for programmers.
fn is_printed(names: &Names, found: &Invalid, wanted: &str) -> wrong::Result<bool> {
    Ok(format!(in names.memory(); "{found:?}")?.as_str() == wanted)
}

// Whether a fault has this number and this text.
fn is_told(names: &Names, found: &Invalid, wanted: &str) -> wrong::Result<bool> {
    let number = found.number();
    Ok(format!(in names.memory(); "{number} {found}")?.as_str() == wanted)
}

// Whether a fault has this name and these values.
fn is_fault_of(names: &Names, found: &Invalid, name: &str, words: &str) -> wrong::Result<bool> {
    match name {
        "Unbalanced" => is_unbalanced(names, found, words),
        "ForgeWithoutPolicy" => {
            Ok(*found == Invalid::ForgeWithoutPolicy(plain::token(names, words)?.0))
        }
        "BadSignature" => Ok(*found == Invalid::BadSignature([words.parse::<u8>()?; 32])),
        _ => is_printed(
            names,
            found,
            format!(in names.memory(); "{name}({words})")?.as_str(),
        ),
    }
}

/// Whether a fault is the one in words like `NoInputs`, `InputMissing 1`, `ForgeWithoutPolicy p`, `Unbalanced p.x 5 4`,
/// `BadSignature 7` or `2 the transaction has no input`.
pub fn is_fault(names: &Names, found: &Invalid, wanted: &str) -> wrong::Result<bool> {
    match wanted.split_once(' ') {
        Some((digits, _)) if digits.parse::<u64>().is_ok() => is_told(names, found, wanted),
        Some((name, words)) => is_fault_of(names, found, name, words),
        None => is_printed(names, found, wanted),
    }
}

fn is_found(ledger: &Ledger, reference: &OutRef, output: &Output) -> bool {
    match ledger.get(reference) {
        Some(found) => *found == *output,
        None => false,
    }
}

// Whether what a transaction spends is what the ledger has.
fn are_spent(ledger: &Ledger, tx: &Tx, resolved: &Resolved) -> bool {
    for (input, output) in tx.inputs().iter().zip(resolved.spent()) {
        if !is_found(ledger, &input.from, output) {
            return false;
        }
    }
    true
}

// Whether what a transaction refers to is what the ledger has.
fn are_referred(ledger: &Ledger, tx: &Tx, resolved: &Resolved) -> bool {
    for (reference, output) in tx.references().iter().zip(resolved.referenced()) {
        if !is_found(ledger, reference, output) {
            return false;
        }
    }
    true
}

// Fails unless the expected number of outputs was found, each of them in the ledger.
fn check_resolved(
    ledger: &Ledger,
    tx: &Tx,
    resolved: &Resolved,
    wanted: &str,
) -> wrong::Result<()> {
    let (spent, referred) = wanted.split_once('+').unwrap_or((wanted, "0"));
    let (spent, referred) = (spent.parse::<usize>()?, referred.parse::<usize>()?);
    if resolved.spent().len() != spent || resolved.referenced().len() != referred {
        return Err(Wrong::Because("another number of outputs"));
    }
    if !are_spent(ledger, tx, resolved) || !are_referred(ledger, tx, resolved) {
        return Err(Wrong::Because("other outputs"));
    }
    Ok(())
}

fn check_fault(names: &Names, found: &Invalid, wanted: &str) -> wrong::Result<()> {
    if is_fault(names, found, wanted)? {
        Ok(())
    } else {
        Err(Wrong::Fault(found.number()))
    }
}

/// Fails unless the result is the expected one: a fault, or `ok 2+1` if two outputs are spent and one is referred to.
pub fn check_answer(
    names: &Names,
    ledger: &Ledger,
    tx: &Tx,
    answer: &Result<Resolved, Invalid>,
    wanted: &str,
) -> wrong::Result<()> {
    match (answer, wanted.strip_prefix("ok ")) {
        (Err(Invalid::NoMemory), _) => Err(Wrong::NoMemory),
        (Ok(resolved), Some(counts)) => check_resolved(ledger, tx, resolved, counts),
        (Ok(_), None) => Err(Wrong::Because("it is valid")),
        (Err(found), Some(_)) => Err(Wrong::Fault(found.number())),
        (Err(found), None) => check_fault(names, found, wanted),
    }
}
