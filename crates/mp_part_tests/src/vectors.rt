//! Cases of the rules: text files with a case in each line, for everyone who writes a client.

mod again;
mod answer;
mod case;
mod check;
mod kind;
mod names;
mod overlay;
mod pieces;
mod plain;
mod refusals;
pub mod transaction;
mod verifier;
mod wrong;

use anyhow::{Context, Result};
pub use case::{ledger, upon};
pub use kind::Kind;
use mp_memory::Memory;
pub use names::Names;
use std::rt::Files;
use std::{fs, io};
pub use wrong::Wrong;

// How many cases a line has, if they hold: one, or none if it is blank, a comment or a definition of a name.
fn count_held(names: &mut Names, kind: Kind, line: &str) -> wrong::Result<u64> {
    if line.is_empty() || line.starts_with('#') {
        return Ok(0);
    }
    match line.split_once(' ') {
        Some(("word", rest)) => names.put_word(rest),
        Some(("tx", rest)) => names.put_transaction(rest),
        Some(_) => kind.check(names, line),
        None => Err(Wrong::Because("no words")),
    }
}

// Prints each line that doesn't hold, and returns how many cases held.
fn check_lines(rt: &impl Print, names: &mut Names, kind: Kind, text: &str) -> io::Result<u64> {
    let name = kind.file_name();
    let [mut held, mut number] = [0u64; 2];
    for line in text.lines() {
        number = number.wrapping_add(1);
        match count_held(names, kind, line) {
            Ok(cases) => held = held.wrapping_add(cases),
            Err(Wrong::NoMemory) => println!(rt; "{name}:{number}: no memory: {line}")?,
            Err(Wrong::Because(why)) => println!(rt; "{name}:{number}: {why}: {line}")?,
            Err(Wrong::Fault(fault)) => println!(rt; "{name}:{number}: fault {fault}: {line}")?,
        }
    }
    Ok(held)
}

/// Checks the cases of the kind's file. Prints each line that doesn't hold, then how many cases held.
pub fn check_file(
    rt: &(impl Files + Print + AllocGlobal),
    memory: Memory,
    kind: Kind,
) -> Result<()> {
    let name = kind.file_name();
    let text = fs::read_to_string(rt, name).context(format_args!("reading {name}"))?;
    let held = check_lines(rt, &mut Names::new(memory), kind, text.as_str())?;
    Ok(println!(rt; "{name} {held}")?)
}
