//! Checking a transaction's signatures and scripts before the lock is taken.
ghost use Rattle.std.specs.Prelude.{◌≡◌, ◌+◌, length, IfSome};
ghost use Rattle.mp_rules.specs.Checked.{IsChecked};

use mp_memory::Memory;
use mp_rules::{Checked, Verifier, has_nothing_to_run, precheck};
use mp_tx::{OutRef, Output, Tx};
use mp_versions::Version;

// Outputs are searched in this many of the newest transactions: a walk over all of a large pool would cost more than the scripts.
const RECENT: usize = 128;

// The output under the reference: the ledger state's, or that of one of the newest transactions.
fn output_of<'a>(version: &'a Version, reference: &OutRef) -> Option<&'a Output> {
    if let Some(output) = version.ledger().get(reference) {
        return Some(output);
    }
    let maker = version
        .newest_first()
        .take(RECENT)
        .find(|item| *item.tx.id() == reference.id)?;
    maker.tx.outputs().get(usize::from(reference.index))
}

// The outputs that the inputs spend, then those that the transaction refers to, if all are found.
fn outputs_of(memory: Memory, version: &Version, tx: &Tx) -> Option<Vec<Output, Memory>>
    ensures { IfSome result
        (λ outputs. length outputs.items ≡ length tx.now.inputs + length tx.now.references) }
{
    let spent = tx.inputs();
    let referenced = tx.references();
    let mut outputs = Vec::with_capacity(memory, spent.len() + referenced.len()).ok()?;
    for reference in spent.iter().map(|input| &input.from).chain(referenced) {
        let output = output_of(version, reference)?.share().ok()?;
        outputs.push(output).ok()?;
    }
    Some(outputs)
}

/// Checks the transaction's signatures, and runs its scripts on the outputs that it names, as far as the version has them. It
/// takes no lock. The result can be used as long as the transaction names these outputs.
///
/// Returns `None` if there is nothing to check or to run, and if an allocation fails. Also if an output is neither in the ledger
/// state nor made by one of the newest transactions.
pub(crate) fn check_early<V: Verifier>(
    memory: Memory,
    version: &Version,
    tx: &Tx,
    verifier: &V,
) -> Option<Checked>
    ensures { IfSome result (IsChecked (V.accepts verifier.now) tx.now) }
{
    if has_nothing_to_run(tx) {
        return None;
    }
    let outputs = outputs_of(memory, version, tx)?;
    precheck(memory, tx, &outputs, verifier).ok()
}
