//! Sample transactions and ledger states.
ghost use Rattle.std.specs.Prelude.{◌≡◌, replicate, IfOk};

use mp_bundle::{Bundle, PolicyId};
use mp_memory::{Memory, NoMemory};
use mp_script::{Data, Hash, Script};
use mp_tx::{Input, Ledger, LedgerFault, OutRef, Output, Salt, Tx, TxFault, TxId, TxParts};
use std::sync::Arc;

/// The policy of the coin, whose name is empty.
pub const COIN: PolicyId = [0; 32];

/// The script that accepts everything.
pub fn script(memory: Memory) -> Result<Script, NoMemory> {
    Script::decode(memory, &[1]).map_err(|_| NoMemory)
}

/// The empty list.
pub fn unit(memory: Memory) -> Result<Data, NoMemory> {
    Data::decode(memory, &[3, 0, 0]).map_err(|_| NoMemory)
}

/// A reference to output `index` of a transaction.
pub fn output_of(id: &TxId, index: u16) -> OutRef
    ensures id { result.id ≡ id.now }
    ensures index { result.index ≡ index }
{
    OutRef { id: *id, index }
}

/// Output `index` of the transaction whose id is zeros. A ledger state begins with such outputs.
pub fn opening(index: u16) -> OutRef
    ensures id { result.id ≡ replicate 32 0 }
    ensures index { result.index ≡ index }
{
    output_of(&[0; 32], index)
}

/// An input that spends the reference with the plain script.
pub fn input(memory: Memory, from: OutRef) -> Result<Input, NoMemory> {
    Ok(Input {
        from,
        validator: script(memory)?,
        datum: unit(memory)?,
        redeemer: unit(memory)?,
    })
}

/// A bundle of this much coin, and of no other token. A quantity less than 1 counts as 1.
pub fn coin(memory: Memory, quantity: i64) -> Result<Bundle, NoMemory> {
    let mut entries = Vec::new(memory);
    entries.push((COIN, Vec::new(memory), quantity.max(1)))?;
    Bundle::of_entries(memory, entries).map_err(|_| NoMemory)
}

fn script_hash(memory: Memory) -> Result<Hash, NoMemory> {
    match script(memory) {
        Ok(script) => Ok(*script.hash()),
        Err(NoMemory) => Err(NoMemory),
    }
}

fn unit_hash(memory: Memory) -> Result<Hash, NoMemory> {
    match unit(memory) {
        Ok(datum) => Ok(*datum.hash()),
        Err(NoMemory) => Err(NoMemory),
    }
}

/// An output of this much coin that the plain script locks, with the unit datum.
pub fn output(memory: Memory, quantity: i64) -> Result<Output, NoMemory> {
    Ok(Output {
        address: script_hash(memory)?,
        datum_hash: unit_hash(memory)?,
        value: coin(memory, quantity)?,
    })
}

/// Parts that spend these references in order, and pay these quantities of coin. A quantity of 0 counts as 1.
pub fn parts(memory: Memory, spent: &[OutRef], paid: &[u32]) -> Result<TxParts, NoMemory> {
    let mut inputs = Vec::new(memory);
    for from in spent {
        inputs.push(input(memory, *from)?)?;
    }
    Ok(TxParts {
        inputs,
        references: Vec::new(memory),
        outputs: outputs_of(memory, paid)?,
        from: 0,
        to: u64::MAX,
        forge: Bundle::empty(),
        scripts: Vec::new(memory),
        signatures: Vec::new(memory),
    })
}

fn outputs_of(memory: Memory, paid: &[u32]) -> Result<Vec<Output, Memory>, NoMemory> {
    let mut outputs = Vec::new(memory);
    for quantity in paid {
        outputs.push(output(memory, i64::from(*quantity))?)?;
    }
    Ok(outputs)
}

/// The transaction of these parts. The references have to be strictly increasing.
pub fn transaction(
    memory: Memory,
    spent: &[OutRef],
    paid: &[u32],
) -> Result<Arc<Tx, Memory>, TxFault> {
    let tx = Tx::of_parts(memory, parts(memory, spent, paid)?)?;
    match Arc::new(memory, tx) {
        Ok(shared) => Ok(shared),
        Err(_) => Err(TxFault::NoMemory),
    }
}

fn openings_to(memory: Memory, end: u16) -> Result<Vec<(OutRef, Output), Memory>, NoMemory> {
    let mut outputs = Vec::new(memory);
    for index in 0..end {
        outputs.push((opening(index), output(memory, 100)?))?;
    }
    Ok(outputs)
}

/// A ledger state at tick 0 with openings 0, 1, .. of 100 coin each.
pub fn ledger(memory: Memory, openings: u16, block_bytes: u64) -> Result<Ledger, LedgerFault>
    ensures tick { IfOk result (λ ledger. ledger.tick ≡ 0) }
    ensures block_bytes { IfOk result (λ ledger. ledger.block_bytes ≡ block_bytes) }
{
    match openings_to(memory, openings) {
        Ok(outputs) => Ledger::of_outputs(memory, Salt::new(7), 0, block_bytes, outputs),
        Err(NoMemory) => Err(LedgerFault::NoMemory),
    }
}
