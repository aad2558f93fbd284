//! Ledger states.
use crate::commands::guarded::guarded_ledger;
use crate::commands::{Commands, SPENDING, submitted};
use crate::samples::{ledger, output, output_of};
use mp_memory::{Memory, NoMemory};
use mp_seqpool::Command;
use mp_tx::{Ledger, LedgerFault, OutRef, Output, Salt};

type Entries = Vec<(OutRef, Output), Memory>;

fn entry(memory: Memory, reference: OutRef) -> Result<Entries, NoMemory> {
    let mut entries = Vec::new(memory);
    entries.push((reference, output(memory, 100)?))?;
    Ok(entries)
}

/// Appends a sync to the ledger state.
pub fn push_sync(commands: &mut Commands, ledger: Result<Ledger, LedgerFault>) -> Option<()> {
    let Ok(ledger) = ledger else {
        return None;
    };
    commands.push(Command::Sync(ledger)).ok()
}

// Appends a sync to the ledger state at tick 1 with what sample 0 pays.
fn push_after_first(memory: Memory, commands: &mut Commands) -> Option<()> {
    let paid = output_of(&submitted(commands, 0)?, 0);
    let Ok(entries) = entry(memory, paid) else {
        return None;
    };
    let ledger = Ledger::of_outputs(memory, Salt::new(7), 1, 500_000, entries);
    push_sync(commands, ledger)
}

/// Appends all ledger states except those of the six guarded commands, in the order of their numbers.
pub fn push_ledgers(memory: Memory, commands: &mut Commands) -> Option<()> {
    push_sync(commands, guarded_ledger(memory, 0, 100))?;
    push_sync(commands, guarded_ledger(memory, 0, 120))?;
    push_after_first(memory, commands)?;
    push_sync(commands, ledger(memory, SPENDING, 500_000))?;
    push_sync(commands, ledger(memory, 1, 500_000))?;
    push_sync(commands, ledger(memory, 100, 500_000))
}
