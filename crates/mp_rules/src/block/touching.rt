//! The references that blocks touch.

ghost use Rattle.std.specs.Prelude.{◌≡◌, ◌++◌, map, IfOk, OnOk};
ghost use Rattle.std.specs.Arc.{arc_value};
ghost use Rattle.mp_tx.specs.Transaction.{spent_refs};
ghost use Rattle.mp_rules.specs.Touched.{own_refs, touched_by_all};

use mp_memory::{Memory, NoMemory};
use mp_tx::{Input, OutRef, Tx};
use std::sync::Arc;

// Appends the references that the inputs spend.
fn push_spent(touched: &mut Vec<OutRef, Memory>, inputs: &[Input]) -> Result<(), NoMemory>
    ensures { OnOk result (touched.new.items ≡ touched.old.items ++ spent_refs inputs.now) }
{
    for input in inputs {
        touched.push(input.from)?;
    }
    Ok(())
}

// Appends the references of the transaction's outputs.
fn push_own(touched: &mut Vec<OutRef, Memory>, tx: &Tx) -> Result<(), NoMemory>
    ensures { OnOk result (touched.new.items ≡ touched.old.items ++ own_refs tx.now) }
{
    for (index, output) in tx.outputs().iter().enumerate() {
        let _ = output;
        touched.push(OutRef {
            id: *tx.id(),
            index: index as u16,
        })?;
    }
    Ok(())
}

/// The references that the transactions spend, and those of their outputs.
pub fn touched_by_all(
    memory: Memory,
    txs: &[Arc<Tx, Memory>],
) -> Result<Vec<OutRef, Memory>, NoMemory>
    ensures { IfOk result (λ v. v.items ≡ touched_by_all (map arc_value txs.now)) }
{
    let mut touched = Vec::new(memory);
    for tx in txs {
        push_spent(&mut touched, tx.inputs())?;
        push_own(&mut touched, tx)?;
    }
    Ok(touched)
}
