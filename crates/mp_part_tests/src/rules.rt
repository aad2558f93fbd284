//! The rules of validity: how often they verify a signature. Failed allocations are tested by the lines of `check.txt` and
//! `again.txt`.
ghost use Rattle.std.specs.Prelude.{true};

use crate::rows::Row;
use crate::vectors::transaction::transaction;
use crate::vectors::{Names, Wrong, ledger, upon};
use mp_memory::Memory;
use mp_rules::{Invalid, Resolved, Verifier, check, check_with, precheck};
use mp_tx::{Key, Ledger, Output, Sig, Tx, TxId};
use std::sync::atomic::{AtomicU64, Ordering};

// Two outputs of 100 coin each, and a transaction that spends them.
const COINS: &str = "has=0.0:100 has=0.1:100";

const COIN: &str = "in=0.0 in=0.1 out=150 out=50";

// Three outputs. A transaction spends two and refers to the third, forges 7 of a token, carries its script, and is signed.
const OUTPUTS: &str = "has=0.0:100,5*010112.x has=0.1:100 has=0.2:100";

const ALL: &str =
    "in=0.0 in=0.1 see=0.2 out=100 out=100,12*010112.x forge=7*010112.x policy=010112 badsign=5";

// The same outputs, but the third has less.
const LESS: &str = "has=0.0:100,5*010112.x has=0.1:100 has=0.2:99";

// The three outputs, on which the transaction was checked before.
const BEFORE: &str = "upon=100,5*010112.x upon=100 upon=100";

// Accepts every signature, and counts the checks.
#[derive(Drop)]
struct Counting {
    calls: AtomicU64,
}

impl Counting {
    fn number(&self) -> u64 {
        self.calls.load(Ordering::SeqCst)
    }
}

impl Verifier for Counting {
    ghost accepts = { λ _ _ _ _. true };

    fn verify(&self, _key: &Key, _id: &TxId, _sig: &Sig) -> bool {
        self.calls.fetch_add(1, Ordering::SeqCst);
        true
    }
}

// A transaction on a ledger state.
#[derive(Drop)]
struct Checking {
    memory: Memory,
    tx: Tx,
    ledger: Ledger,
    // The outputs on which it was checked before; empty if it wasn't.
    before: Vec<Output, Memory>,
    verifier: Counting,
}

fn check_again(checking: &Checking) -> Result<Resolved, Invalid> {
    let Checking {
        memory,
        tx,
        ledger,
        before,
        verifier,
    } = checking;
    if before.len() != tx.inputs().len() + tx.references().len() {
        return Err(Invalid::InputMissing(before.len()));
    }
    let checked = precheck(*memory, tx, before, verifier)?;
    check_with(*memory, tx, ledger, 0, &checked, verifier)
}

fn answer_of(checking: &Checking) -> Result<Resolved, Invalid> {
    let Checking {
        memory,
        tx,
        ledger,
        before,
        verifier,
    } = checking;
    if before.is_empty() {
        check(*memory, tx, ledger, 0, verifier)
    } else {
        check_again(checking)
    }
}

// How many outputs are spent and referred to, and how many signatures were verified.
fn count(checking: &Checking) -> Option<[u64; 3]> {
    let Ok(resolved) = answer_of(checking) else {
        return None;
    };
    Some([
        resolved.spent().len() as u64,
        resolved.referenced().len() as u64,
        checking.verifier.number(),
    ])
}

fn make_checking(
    memory: Memory,
    outputs: &str,
    parts: &str,
    before: &str,
) -> Result<Checking, Wrong> {
    let names = Names::new(memory);
    Ok(Checking {
        memory,
        tx: transaction(&names, parts)?,
        ledger: ledger(&names, None, outputs)?,
        before: upon(&names, before)?,
        verifier: Counting {
            calls: AtomicU64::new(0),
        },
    })
}

fn counted(memory: Memory, [outputs, parts, before]: [&str; 3]) -> Option<[u64; 3]> {
    match make_checking(memory, outputs, parts, before) {
        Ok(checking) => count(&checking),
        Err(_wrong) => None,
    }
}

const CASES: [(&str, [&str; 3], [u64; 3]); 5] = [
    ("a check of coin", [COINS, COIN, ""], [2, 0, 0]),
    ("a check of all parts", [OUTPUTS, ALL, ""], [2, 1, 1]),
    ("the same upon another", [LESS, ALL, ""], [2, 1, 1]),
    ("a check after another", [OUTPUTS, ALL, BEFORE], [2, 1, 1]),
    ("upon other outputs", [LESS, ALL, BEFORE], [2, 1, 1]),
];

/// How many outputs are spent, how many are referred to, and how many signatures are verified. After another check no signature
/// is verified again.
pub fn countings(memory: Memory) -> [Row; 5] {
    CASES.map(|(name, words, wanted)| Row::seen(name, counted(memory, words), wanted))
}
