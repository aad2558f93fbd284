//! The commands of the callers.

use crate::samples::{Commands, MANY, push_remove, push_submit, push_sync, reference};
use mp_memory::Memory;
use mp_seqpool::Command;
use mp_testing::output_of;
use mp_tx::TxId;
use std::sync::Arc;

/// The greatest number of outputs of the ledger states.
pub const OUTPUTS: u64 = 128;

// Block bytes for only a few transactions.
const FEW: u64 = 2_000;

/// The commands of the callers.
pub struct Table {
    /// For each output, two submits that spend it, one that spends what the first pays, and a remove of up to three of
    /// them.
    pub changes: Commands,
    /// Syncs to ledger states with all outputs, some of them, or none.
    pub syncs: Commands,
}

impl Drop for Table {
    fn drop(self) {
        let Table {
            changes: _,
            syncs: _,
        } = self;
    }
}

// Appends the changes of one output, and returns the id of the first transaction.
fn push_family(memory: Memory, commands: &mut Commands, number: u64) -> Option<TxId> {
    let spent = reference(number);
    let id = push_submit(memory, commands, spent, &[100], false)?;
    push_submit(memory, commands, output_of(&id, 0), &[100], false)?;
    push_submit(memory, commands, spent, &[60, 40], false)?;
    Some(id)
}

fn push_changes(memory: Memory, commands: &mut Commands) -> Option<()> {
    let mut ids = [[0; 32]; 3];
    for number in 0..OUTPUTS {
        ids = [push_family(memory, commands, number)?, ids[0], ids[1]];
        push_remove(memory, commands, &ids[(number % 3) as usize..])?;
    }
    Some(())
}

fn push_syncs(memory: Memory, commands: &mut Commands) -> Option<()> {
    for (step, block_bytes) in [(1, MANY), (1, FEW), (2, MANY), (3, MANY)] {
        push_sync(memory, commands, step, block_bytes, OUTPUTS)?;
    }
    push_sync(memory, commands, 1, MANY, 0)
}

/// Fills the table with all commands.
pub fn fill(memory: Memory, table: &mut Table) -> Option<()> {
    push_changes(memory, &mut table.changes)?;
    push_syncs(memory, &mut table.syncs)
}

/// The total number of the transactions' owners.
pub fn count_owners(commands: &[Command]) -> usize {
    let mut owners: usize = 0;
    for command in commands {
        if let Command::Submit(tx) = command {
            owners = owners.saturating_add(Arc::strong_count(tx));
        }
    }
    owners
}
