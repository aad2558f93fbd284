//! A transaction whose validator reads the bundle of the output that it locks, and the ledger states from which it
//! spends.
use crate::commands::ledgers::push_sync;
use crate::commands::{Commands, push_remove, push_tx};
use crate::samples::{opening, output, parts};
use mp_memory::{Memory, NoMemory};
use mp_script::Script;
use mp_tx::{Ledger, LedgerFault, OutRef, Output, Salt, TxParts};

// Accepts if the output that it locks has at least 100 coin: 100, the policy and the name of coin, OwnQuantity, AtMost.
const ENOUGH: [u8; 47] = [
    2, 0, 0, 0, 0, 0, 0, 0, 100, 3, 32, 0, 0, 0, 0, 0, 0, 0, 0, 0, 0, 0, 0, 0, 0, 0, 0, 0, 0, 0, 0,
    0, 0, 0, 0, 0, 0, 0, 0, 0, 0, 0, 0, 3, 0, 0x53, 0x22,
];

fn enough(memory: Memory) -> Result<Script, NoMemory> {
    match Script::decode(memory, &ENOUGH) {
        Ok(script) => Ok(script),
        Err(_) => Err(NoMemory),
    }
}

fn guard(memory: Memory, parts: &mut TxParts) -> Option<()> {
    let input = parts.inputs.first_mut()?;
    let Ok(validator) = enough(memory) else {
        return None;
    };
    input.validator = validator;
    Some(())
}

// It spends openings 2 and 3 and pays 200 coin. Opening 2 must have at least 100. Its bytes are 274: 181, 47 for the
// second input, and 46 for the longer validator.
fn guarded_parts(memory: Memory) -> Option<TxParts> {
    let Ok(mut parts) = parts(memory, &[opening(2), opening(3)], &[200]) else {
        return None;
    };
    guard(memory, &mut parts)?;
    Some(parts)
}

fn guarded_output(memory: Memory, quantity: i64) -> Result<Output, NoMemory> {
    let address = *enough(memory)?.hash();
    let mut guarded = output(memory, quantity)?;
    guarded.address = address;
    Ok(guarded)
}

// Opening 2 is guarded and has this much coin. Openings 2 and 3 have 200 together, so all other rules hold.
fn output_at(memory: Memory, coin: u8, index: u16) -> Result<Output, NoMemory> {
    match index {
        2 => guarded_output(memory, i64::from(coin)),
        3 => output(memory, 200 - i64::from(coin)),
        _ => output(memory, 100),
    }
}

fn openings(memory: Memory, coin: u8) -> Result<Vec<(OutRef, Output), Memory>, NoMemory> {
    let mut entries = Vec::new(memory);
    for index in [0, 1, 2, 3] {
        entries.push((opening(index), output_at(memory, coin, index)?))?;
    }
    Ok(entries)
}

/// A ledger state with openings 0 to 3: two of 100 coin each, and the guarded outputs.
pub fn guarded_ledger(memory: Memory, tick: u64, coin: u8) -> Result<Ledger, LedgerFault> {
    match openings(memory, coin) {
        Ok(entries) => Ledger::of_outputs(memory, Salt::new(7), tick, 500_000, entries),
        Err(NoMemory) => Err(LedgerFault::NoMemory),
    }
}

/// Appends the six guarded commands.
pub fn push_guarded(memory: Memory, commands: &mut Commands) -> Option<()> {
    push_tx(memory, commands, guarded_parts(memory)?)?;
    push_remove(memory, commands, &[])?;
    push_sync(commands, guarded_ledger(memory, 1, 100))?;
    push_sync(commands, guarded_ledger(memory, 2, 120))?;
    push_sync(commands, guarded_ledger(memory, 3, 99))?;
    push_tx(memory, commands, guarded_parts(memory)?)
}
