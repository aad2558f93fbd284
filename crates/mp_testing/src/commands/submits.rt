//! Submits of transactions.
use crate::commands::{Commands, EVEN, RIVAL, SPENDING, THREE, push_tx, submitted};
use crate::samples::{opening, output_of, parts};
use mp_memory::{Memory, NoMemory};
use mp_tx::{OutRef, Signature, TxParts};

// Appends a submit of a transaction that spends the output and pays these quantities.
fn push(memory: Memory, commands: &mut Commands, spent: OutRef, paid: &[u32]) -> Option<()> {
    match parts(memory, &[spent], paid) {
        Ok(parts) => push_tx(memory, commands, parts),
        Err(NoMemory) => None,
    }
}

// Appends a submit that spends output 0 of the transaction submitted by the command at this index.
fn push_child(memory: Memory, commands: &mut Commands, place: usize) -> Option<()> {
    let parent = submitted(commands, place)?;
    push(memory, commands, output_of(&parent, 0), &[100])
}

fn signed(memory: Memory, spent: &[OutRef], paid: u32, by: u8) -> Result<TxParts, NoMemory> {
    let (key, sig) = ([by; 32], [6; 64]);
    let mut parts = parts(memory, spent, &[paid])?;
    parts.signatures.push(Signature { key, sig })?;
    Ok(parts)
}

// The same, signed by a key that begins with this number.
fn push_signed(
    memory: Memory,
    commands: &mut Commands,
    spent: &[OutRef],
    paid: u32,
    by: u8,
) -> Option<()> {
    match signed(memory, spent, paid, by) {
        Ok(parts) => push_tx(memory, commands, parts),
        Err(NoMemory) => None,
    }
}

fn push_spending(memory: Memory, commands: &mut Commands) -> Option<()> {
    for index in 0..SPENDING {
        push(memory, commands, opening(index), &[100])?;
    }
    Some(())
}

fn push_upon_rival(memory: Memory, commands: &mut Commands) -> Option<()> {
    let rival = submitted(commands, RIVAL)?;
    push_signed(memory, commands, &[output_of(&rival, 0)], 60, 0)?;
    push_signed(memory, commands, &[output_of(&rival, 1)], 40, 1)
}

// Appends a signed submit that spends both outputs of the transaction submitted by the command at this index.
fn push_heir(memory: Memory, commands: &mut Commands, place: usize) -> Option<()> {
    let parent = submitted(commands, place)?;
    let spent = [output_of(&parent, 0), output_of(&parent, 1)];
    push_signed(memory, commands, &spent, 100, 2)
}

/// Appends a submit that spends the two outputs of the rival, one that pays the same twice, and one that spends these.
pub fn push_merged(memory: Memory, commands: &mut Commands) -> Option<()> {
    push_heir(memory, commands, RIVAL)?;
    push(memory, commands, opening(1), &[50, 50])?;
    push_heir(memory, commands, EVEN)
}

/// Appends all submits except the guarded ones, in the order of their numbers.
pub fn push_submits(memory: Memory, commands: &mut Commands) -> Option<()> {
    push_spending(memory, commands)?;
    push(memory, commands, opening(0), &[100])?;
    push_child(memory, commands, THREE)?;
    push(memory, commands, opening(1), &[100])?;
    push_child(memory, commands, 1)?;
    push_signed(memory, commands, &[opening(0)], 100, 0)?;
    push_signed(memory, commands, &[opening(1)], 100, 1)?;
    push(memory, commands, opening(1), &[60, 40])?;
    push_upon_rival(memory, commands)
}
