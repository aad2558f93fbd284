//! One transaction on a ledger state.

ghost use Rattle.std.specs.Prelude.{◌≡◌, ◌<◌, ℕ, All, None, IsSome, IfOk, IfErr, OnOk, length};
ghost use Rattle.std.specs.FinMap.{get};
ghost use Rattle.mp_tx.specs.Transaction.{spent_refs};
ghost use Rattle.mp_tx.specs.Ledger.{HasBlockBytes, ledger_after, without, AreThere, AreFree};
ghost use Rattle.mp_utxo.specs.Apply.{own_ref};
ghost use Rattle.mp_rules.specs.FirstFault.{first_fault};
ghost use Rattle.mp_rules.specs.Block.{made_by, apply_tx};
ghost use Rattle.mp_rules.specs.Inside.RefusedBlock.{HasBadBytes, IsInvalidAt};

use crate::block::refusal::BlockRefusal;
use crate::checking::check;
use crate::verifier::Verifier;
use mp_memory::{Memory, NoMemory};
use mp_tx::{BlockFault, Input, Ledger, OutRef, Output, Tx};

/// The ledger state after `spent` is removed and `made` is added. Only bad block bytes or an allocation failure refuse it.
pub fn follow(
    memory: Memory,
    ledger: &Ledger,
    tick: u64,
    block_bytes: u64,
    spent: &[OutRef],
    made: Vec<(OutRef, Output), Memory>,
) -> Result<Ledger, BlockRefusal>
    requires there { AreThere ledger.now.utxo spent.now }
    requires free { AreFree (without ledger.now.utxo spent.now) made.items }
    ensures ok { IfOk result
        (λ l. l ≡ ledger_after ledger.now tick block_bytes spent.now made.items) }
    ensures block_bytes { OnOk result (HasBlockBytes block_bytes) }
    ensures refused { IfErr result (HasBadBytes block_bytes) }
{
    match ledger.after(memory, tick, block_bytes, spent, made) {
        Ok(after) => Ok(after),
        Err(BlockFault::NoMemory) => Err(BlockRefusal::NoMemory),
        Err(BlockFault::BadBlockBytes) => Err(BlockRefusal::BadBlockBytes),
        Err(BlockFault::Missing(_)) => unreachable!(),
        Err(BlockFault::Repeated(_)) => unreachable!(),
    }
}

// The references that the inputs spend.
fn spent_refs(memory: Memory, inputs: &[Input]) -> Result<Vec<OutRef, Memory>, NoMemory>
    ensures { IfOk result (λ v. v.items ≡ spent_refs inputs.now) }
{
    let mut spent = Vec::with_capacity(memory, inputs.len())?;
    for input in inputs {
        spent.push(input.from)?;
    }
    Ok(spent)
}

// The outputs of the transaction, with their references.
fn made_by(memory: Memory, tx: &Tx) -> Result<Vec<(OutRef, Output), Memory>, NoMemory>
    ensures { IfOk result (λ v. v.items ≡ made_by tx.now) }
{
    let mut made = Vec::with_capacity(memory, tx.outputs().len())?;
    for (index, output) in tx.outputs().iter().enumerate() {
        let own = OutRef {
            id: *tx.id(),
            index: index as u16,
        };
        made.push((own, output.share()?))?;
    }
    Ok(made)
}

// The ledger state after the transaction. Everything that it spends has to be there, and nothing that it makes.
fn apply_tx(memory: Memory, ledger: &Ledger, tx: &Tx) -> Result<Ledger, NoMemory>
    requires there { All (λ i. IsSome (get ledger.now.utxo i.from)) tx.now.inputs }
    requires fresh { (k : ℕ) → k < length tx.now.outputs
        → get ledger.now.utxo (own_ref tx.now k) ≡ None }
    ensures { IfOk result (λ l. l ≡ apply_tx ledger.now tx.now) }
{
    let spent = spent_refs(memory, tx.inputs())?;
    let made = made_by(memory, tx)?;
    match follow(
        memory,
        ledger,
        ledger.tick(),
        ledger.block_bytes(),
        &spent,
        made,
    ) {
        Ok(after) => Ok(after),
        Err(BlockRefusal::NoMemory) => Err(NoMemory),
        Err(_) => unreachable!(),
    }
}

/// The ledger state after the transaction, if it is valid on this one.
pub fn after_tx<V: Verifier>(
    memory: Memory,
    ledger: &Ledger,
    place: usize,
    tx: &Tx,
    verifier: &V,
) -> Result<Ledger, BlockRefusal>
    ensures clear { OnOk result
        (first_fault (V.accepts verifier.now) (get ledger.now.utxo) ledger.now.tick tx.now ≡ None) }
    ensures applied { IfOk result (λ l. l ≡ apply_tx ledger.now tx.now) }
    ensures refused { IfErr result
        (IsInvalidAt (V.accepts verifier.now) ledger.now tx.now place) }
{
    if let Err(fault) = check(memory, tx, ledger, ledger.tick(), verifier) {
        return Err(BlockRefusal::at(place, fault));
    }
    Ok(apply_tx(memory, ledger, tx)?)
}
