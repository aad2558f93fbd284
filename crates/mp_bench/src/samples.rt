//! The samples of the measurements: ledger states, and transactions with one input and one output. The result is `None`
//! if they can't be made.

use mp_bytes::digest;
use mp_memory::Memory;
use mp_seqpool::{Command, Ids};
use mp_testing::{output, parts};
use mp_tx::{Ledger, OutRef, Output, Salt, Signature, Tx, TxId, TxParts};
use std::sync::Arc;

/// Commands in order.
pub type Commands = Vec<Command, Memory>;

/// The bytes of a transaction.
pub type Bytes = Vec<u8, Memory>;

/// Block bytes that are enough for all transactions.
pub const MANY: u64 = 1 << 39;

/// The reference to the output with this number.
pub fn reference(number: u64) -> OutRef {
    OutRef {
        id: digest(&number.to_be_bytes()),
        index: 0,
    }
}

fn outputs_by(memory: Memory, step: u64, size: u64) -> Option<Vec<(OutRef, Output), Memory>> {
    let mut outputs = Vec::new(memory);
    for place in 0..size.div_ceil(step.max(1)) {
        let number = place.saturating_mul(step);
        outputs
            .push((reference(number), output(memory, 100).ok()?))
            .ok()?;
    }
    Some(outputs)
}

/// A ledger state of `size` with every output for step 1, every second one for step 2, and so on.
pub fn ledger_by(memory: Memory, step: u64, block_bytes: u64, size: u64) -> Option<Ledger> {
    let outputs = outputs_by(memory, step, size)?;
    Ledger::of_outputs(memory, Salt::new(7), 0, block_bytes, outputs).ok()
}

fn parts_of(memory: Memory, spent: OutRef, paid: &[u32], is_signed: bool) -> Option<TxParts> {
    let mut made = parts(memory, &[spent], paid).ok()?;
    if is_signed {
        let (key, sig) = ([1; 32], [2; 64]);
        made.signatures.push(Signature { key, sig }).ok()?;
    }
    Some(made)
}

fn made(memory: Memory, parts: TxParts) -> Option<Arc<Tx, Memory>> {
    let tx = Tx::of_parts(memory, parts).ok()?;
    Arc::new(memory, tx).ok()
}

/// Appends a submit of a transaction that spends this output and pays this much, and returns its id. It has 181 bytes
/// for one output, and 277 if it is signed.
pub fn push_submit(
    memory: Memory,
    commands: &mut Commands,
    spent: OutRef,
    paid: &[u32],
    is_signed: bool,
) -> Option<TxId> {
    let parts = parts_of(memory, spent, paid, is_signed)?;
    let tx = made(memory, parts)?;
    let id = *tx.id();
    commands.push(Command::Submit(tx)).ok()?;
    Some(id)
}

/// A submit of the transaction with these bytes.
pub fn submit_of(memory: Memory, bytes: &[u8]) -> Option<Command> {
    let tx = Tx::decode(memory, bytes).ok()?;
    Some(Command::Submit(Arc::new(memory, tx).ok()?))
}

// The bytes of the transaction, or none if the command isn't a submit.
fn bytes_of(memory: Memory, command: &Command) -> Option<Bytes> {
    match command {
        Command::Submit(tx) => tx.encode(memory).ok(),
        _ => Some(Vec::new(memory)),
    }
}

fn encode_all(memory: Memory, commands: &[Command]) -> Option<Vec<Bytes, Memory>> {
    let mut all = Vec::new(memory);
    for command in commands {
        all.push(bytes_of(memory, command)?).ok()?;
    }
    Some(all)
}

/// The bytes of the submitted transactions, or none if there is no memory.
pub fn all_bytes(memory: Memory, commands: &[Command]) -> Vec<Bytes, Memory> {
    encode_all(memory, commands).unwrap_or(Vec::new(memory))
}

/// Appends submits that spend the outputs from the first number up to and without the second.
pub fn push_submits(
    memory: Memory,
    commands: &mut Commands,
    from: u64,
    to: u64,
    is_signed: bool,
) -> Option<()> {
    for number in from..to {
        push_submit(memory, commands, reference(number), &[100], is_signed)?;
    }
    Some(())
}

/// Appends a remove of these.
pub fn push_remove(memory: Memory, commands: &mut Commands, ids: &[TxId]) -> Option<()> {
    let ids = Ids::of(Vec::from_slice(memory, ids).ok()?);
    let shared = Arc::new(memory, ids).ok()?;
    commands.push(Command::Remove(shared)).ok()
}

/// Appends a sync to a ledger state of `size`.
pub fn push_sync(
    memory: Memory,
    commands: &mut Commands,
    step: u64,
    block_bytes: u64,
    size: u64,
) -> Option<()> {
    let ledger = ledger_by(memory, step, block_bytes, size)?;
    commands.push(Command::Sync(ledger)).ok()
}
