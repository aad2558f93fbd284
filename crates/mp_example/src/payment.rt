//! Plain payments: outputs of 100 coin that anyone may spend, and transactions that spend one and pay one.
use anyhow::Result;
use mp_bundle::{Bundle, COIN};
use mp_memory::{Memory, NoMemory};
use mp_tx::{Data, Input, OutRef, Output, Script, Tx, TxParts};
use std::sync::Arc;

// The script of one operator, with which everybody may spend.
fn anyone(memory: Memory) -> Result<Script> {
    Ok(Script::decode(memory, &[1])?)
}

// The empty list.
fn unit(memory: Memory) -> Result<Data> {
    Ok(Data::decode(memory, &[3, 0, 0])?)
}

// A list of one.
fn only<T: Drop>(memory: Memory, item: T) -> Result<Vec<T, Memory>, NoMemory> {
    let mut items = Vec::new(memory);
    items.push(item)?;
    Ok(items)
}

fn coin(memory: Memory) -> Result<Bundle> {
    let entries = only(memory, (COIN, Vec::new(memory), 100))?;
    Ok(Bundle::of_entries(memory, entries)?)
}

fn output_of(script: &Script, datum: &Data, value: Bundle) -> Output {
    Output {
        address: *script.hash(),
        datum_hash: *datum.hash(),
        value,
    }
}

/// An output of 100 coin that everybody may spend.
pub fn payment(memory: Memory) -> Result<Output> {
    let script = anyone(memory)?;
    let datum = unit(memory)?;
    Ok(output_of(&script, &datum, coin(memory)?))
}

// An input that spends an output like that.
fn spending(memory: Memory, from: OutRef) -> Result<Input> {
    let validator = anyone(memory)?;
    let datum = unit(memory)?;
    let redeemer = unit(memory)?;
    Ok(Input {
        from,
        validator,
        datum,
        redeemer,
    })
}

fn parts(memory: Memory, inputs: Vec<Input, Memory>, outputs: Vec<Output, Memory>) -> TxParts {
    TxParts {
        inputs,
        references: Vec::new(memory),
        outputs,
        from: 0,
        to: u64::MAX,
        forge: Bundle::empty(),
        scripts: Vec::new(memory),
        signatures: Vec::new(memory),
    }
}

/// A transaction that spends the output of the reference, and pays one like it. It is valid at every tick.
pub fn pay_on(memory: Memory, from: OutRef) -> Result<Arc<Tx, Memory>> {
    let inputs = only(memory, spending(memory, from)?)?;
    let outputs = only(memory, payment(memory)?)?;
    let tx = Tx::of_parts(memory, parts(memory, inputs, outputs))?;
    Ok(Arc::new(memory, tx)?)
}
