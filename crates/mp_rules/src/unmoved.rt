//! Whether a transaction finds exactly the outputs that it found before.

ghost use Rattle.std.specs.Prelude.{◌≡◌, Some, IsTrue, is_none};
ghost use Rattle.mp_rules.specs.FirstFault.{outside_interval};
ghost use Rattle.mp_rules.specs.Inside.Unmoved.{LeadTo, IsUnmoved};

use crate::map::output_taken;
use crate::resolved::Resolved;
use mp_tx::{Input, OutRef, Output, Tx};
use mp_utxo::Utxo;

#[tactic(auto, unfolding(crate::specs::FirstFault::outside_interval))]
fn is_inside(tx: &Tx, tick: u64) -> bool
    ensures { result ≡ is_none (outside_interval tick tx.now) }
{
    !(tick < tx.from() || tx.to() < tick)
}

fn leads_to<U: Utxo>(utxo: &U, reference: &OutRef, output: &Output) -> bool
    ensures { IsTrue result → U.map utxo.now reference.now ≡ Some output.now }
{
    match utxo.get(reference) {
        Some(found) => *found == *output,
        None => false,
    }
}

fn spends_just<U: Utxo>(inputs: &[Input], outputs: &[Output], utxo: &U) -> bool
    ensures { IsTrue result → LeadTo (λ i. U.map utxo.now i.from) inputs.now outputs.now }
{
    if inputs.len() != outputs.len() {
        return false;
    }
    for place in 0..inputs.len() {
        if !leads_to(utxo, &inputs[place].from, &outputs[place]) {
            return false;
        }
    }
    true
}

fn refers_just<U: Utxo>(references: &[OutRef], outputs: &[Output], utxo: &U) -> bool
    ensures { IsTrue result → LeadTo (U.map utxo.now) references.now outputs.now }
{
    if references.len() != outputs.len() {
        return false;
    }
    for place in 0..references.len() {
        if !leads_to(utxo, &references[place], &outputs[place]) {
            return false;
        }
    }
    true
}

/// Whether the tick is in the transaction's interval, it names exactly these outputs, and none of its own outputs is
/// there.
pub fn is_unmoved<U: Utxo>(tx: &Tx, before: &Resolved, utxo: &U, tick: u64) -> bool
    ensures { IsTrue result → IsUnmoved (U.map utxo.now) tick tx.now before.now }
{
    is_inside(tx, tick)
        && spends_just(tx.inputs(), before.spent(), utxo)
        && refers_just(tx.references(), before.referenced(), utxo)
        && output_taken(tx, utxo).is_none()
}
