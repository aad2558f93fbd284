//! Rules on the outputs that can be spent.

ghost use Rattle.std.specs.Prelude.{◌≡◌, not, is_none, is_some, option_map, length};
ghost use Rattle.std.specs.List.{position, filter_map, range_with_len, zip};
ghost use Rattle.sha2.specs.Sha256.{sha256};
ghost use Rattle.mp_tx.specs.Transaction.{spent_refs};
ghost use Rattle.mp_utxo.specs.Apply.{own_ref};
ghost use Rattle.mp_rules.specs.declared.invalid.Invalid.TheVariants as rules;
ghost use Rattle.mp_rules.specs.FirstFault.{same_bytes, output_taken};
ghost use Rattle.mp_rules.specs.Resolved.{resolve};
ghost use Rattle.mp_rules.specs.Inside.Groups.{missing, mismatch, Passes};

use crate::invalid::Invalid;
use crate::resolved::Resolved;
use mp_memory::{Memory, NoMemory};
use mp_tx::{Input, OutRef, Output, Tx};
use mp_utxo::Utxo;

// What the inputs spend, up to the first that names no output.
fn spent_outputs<U: Utxo>(
    memory: Memory,
    inputs: &[Input],
    utxo: &U,
) -> Result<Vec<Output, Memory>, Invalid>
    ensures { Passes (λ v. v.items ≡ filter_map (U.map utxo.now) (spent_refs inputs.now))
        (option_map rules.InputMissing (position (λ i. is_none (U.map utxo.now i.from)) inputs.now))
        result }
{
    let mut outputs = Vec::with_capacity(memory, inputs.len())?;
    for (place, input) in inputs.iter().enumerate() {
        match utxo.get(&input.from) {
            Some(output) => outputs.push(output.share()?)?,
            None => return Err(Invalid::InputMissing(place)),
        }
    }
    Ok(outputs)
}

fn referenced_outputs<U: Utxo>(
    memory: Memory,
    references: &[OutRef],
    utxo: &U,
) -> Result<Vec<Output, Memory>, Invalid>
    ensures { Passes (λ v. v.items ≡ filter_map (U.map utxo.now) references.now)
        (option_map rules.ReferenceMissing (position (λ r. is_none (U.map utxo.now r)) references.now))
        result }
{
    let mut outputs = Vec::with_capacity(memory, references.len())?;
    for (place, reference) in references.iter().enumerate() {
        match utxo.get(reference) {
            Some(output) => outputs.push(output.share()?)?,
            None => return Err(Invalid::ReferenceMissing(place)),
        }
    }
    Ok(outputs)
}

/// The outputs that the transaction names, shared, or the fault of the first input or reference that names none.
#[tactic(auto, unfolding(crate::specs::Inside::Groups::missing, crate::specs::FirstFault::input_missing, crate::specs::FirstFault::reference_missing))]
pub fn resolve<U: Utxo>(memory: Memory, tx: &Tx, utxo: &U) -> Result<Resolved, Invalid>
    ensures { Passes (λ r. r ≡ resolve (U.map utxo.now) tx.now) (missing (U.map utxo.now) tx.now)
        result }
{
    let spent = spent_outputs(memory, tx.inputs(), utxo)?;
    let referenced = referenced_outputs(memory, tx.references(), utxo)?;
    Ok(Resolved::of(spent, referenced))
}

fn place_of_address(inputs: &[Input], spent: &[Output]) -> Option<usize>
    ensures { result ≡ position (λ p. not (same_bytes (sha256 p.0.validator) p.1.address))
        (zip inputs.now spent.now) }
{
    inputs.iter().zip(spent).position(|(input, output)| *input.validator.hash() != output.address)
}

fn place_of_datum(inputs: &[Input], spent: &[Output]) -> Option<usize>
    ensures { result ≡ position (λ p. not (same_bytes (sha256 p.0.datum) p.1.datum_hash))
        (zip inputs.now spent.now) }
{
    inputs
        .iter()
        .zip(spent)
        .position(|(input, output)| *input.datum.hash() != output.datum_hash)
}

/// The fault of the first input whose validator isn't its output's, else of the first whose datum isn't.
#[tactic(auto, unfolding(crate::specs::Inside::Groups::mismatch, crate::specs::FirstFault::address_mismatch, crate::specs::FirstFault::datum_mismatch))]
pub fn mismatch(tx: &Tx, resolved: &Resolved) -> Option<Invalid>
    ensures { result ≡ mismatch tx.now resolved.now }
{
    if let Some(place) = place_of_address(tx.inputs(), resolved.spent()) {
        return Some(Invalid::AddressMismatch(place));
    }
    match place_of_datum(tx.inputs(), resolved.spent()) {
        Some(place) => Some(Invalid::DatumMismatch(place)),
        None => None,
    }
}

fn is_there<U: Utxo>(utxo: &U, reference: &OutRef) -> bool
    ensures { result ≡ is_some (U.map utxo.now reference.now) }
{
    utxo.get(reference).is_some()
}

// The first output whose reference already leads to an output.
fn taken_place<U: Utxo>(tx: &Tx, utxo: &U) -> Option<usize>
    ensures { result ≡ position (λ k. is_some (U.map utxo.now (own_ref tx.now k)))
        (range_with_len 0 (length tx.now.outputs)) }
{
    let count = tx.outputs().len() as u16;
    for index in 0..count {
        let own = OutRef {
            id: *tx.id(),
            index,
        };
        if is_there(utxo, &own) {
            return Some(index as usize);
        }
    }
    None
}

/// The fault of the first output of the transaction whose reference already leads to an output.
#[tactic(auto, unfolding(crate::specs::FirstFault::output_taken))]
pub fn output_taken<U: Utxo>(tx: &Tx, utxo: &U) -> Option<Invalid>
    ensures { result ≡ output_taken (U.map utxo.now) tx.now }
{
    match taken_place(tx, utxo) {
        Some(place) => Some(Invalid::OutputTaken(place)),
        None => None,
    }
}
