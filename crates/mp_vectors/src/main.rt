//! Checks the test vectors: text files with a case in each line, for everyone who writes a client. It prints each line that
//! doesn't hold, and for each file how many cases held.
#![tactic(auto)]

mod answer;
mod bundle;
mod datum;
mod datum_ref;
mod decode;
mod faults;
mod kind;
mod ledger;
mod line;
mod numbered;
mod pieces;
mod plain;
mod references;
mod refusals;
mod scene;
mod script;
mod signature;
mod spoilt;
mod sum;
mod text;
mod transaction;
mod value;
mod views;
mod wanted;
mod wrong;

use anyhow::{Context, Result};
use kind::Kind;
use mp_memory::Memory;
use std::rt::Files;
use std::{fs, io};
use wrong::Wrong;

// How many cases of a line held, if all did.
fn cases_held(memory: Memory, kind: Kind, line: &str) -> wrong::Result<u64> {
    match line::parted(line)? {
        None => Ok(0),
        Some((given, wanted)) => line::held(memory, kind, given, wanted),
    }
}

// Prints each line that doesn't hold, and returns how many cases held.
fn check_lines(rt: &impl Print, memory: Memory, kind: Kind, text: &str) -> io::Result<u64> {
    let name = kind.file_name();
    let mut held = 0u64;
    let mut number = 0u64;
    for line in text.lines() {
        number = number.wrapping_add(1);
        match cases_held(memory, kind, line) {
            Ok(cases) => held = held.wrapping_add(cases),
            Err(Wrong(why)) => println!(rt; "{name}:{number}: {why}: {line}")?,
        }
    }
    Ok(held)
}

fn check_file(rt: &(impl Files + Print + AllocGlobal), memory: Memory, kind: Kind) -> Result<()> {
    let name = kind.file_name();
    let text = fs::read_to_string(rt, name).context(format_args!("reading {name}"))?;
    let held = check_lines(rt, memory, kind, text.as_str())?;
    println!(rt; "{name} {held}")?;
    Ok(())
}

fn main(rt: HostRuntime) -> Result<()> {
    let memory = Memory::new(rt.alloc())?;
    for kind in Kind::ALL {
        check_file(&rt, memory, kind)?;
    }
    Ok(())
}
