//! The results of checking a transaction's signatures and scripts before the other rules.

ghost use Rattle.std.specs.Prelude.{◌≡◌, ◌+◌, ◌++◌, ◌≤◌, length, IfOk};
ghost use Rattle.mp_rules.specs.Checked.{IsChecked, IsUpon};

use crate::invalid::Invalid;
use crate::resolved::Resolved;
use crate::scripts::script_refused;
use crate::signatures::bad_signature;
use crate::verifier::Verifier;
use mp_memory::{Memory, NoMemory};
use mp_tx::{Output, Tx};
use std::marker::Model;

/// The results of checking a transaction's signatures and scripts, on the outputs that it is expected to name. They
/// hold while the transaction names these outputs. If it names others, its scripts run again.
#[derive(Debug)]
pub struct Checked {
    resolved: Resolved,
    signature: Option<Invalid>,
    script: Option<Invalid>,
}

impl Drop for Checked {
    fn drop(self) {
        let Checked {
            resolved: _,
            signature: _,
            script: _,
        } = self;
    }
}

impl Model for Checked {
    ghost use Rattle.mp_rules.specs.Checked as told;

    ghost Value = { told.Checked };

    ghost use Rattle.mp_rules.specs.Inside.Checked.{checked};

    ghost view = { checked };
}

impl Checked {
    ghost use Rattle.std.specs.Prelude.{◌≡◌};
    ghost use Rattle.mp_rules.specs.Checked.{first_found};

    /// The outputs on which the scripts ran.
    pub fn resolved(&self) -> &Resolved
        ensures { result.now ≡ self.now.resolved }
    {
        &self.resolved
    }

    /// The first fault: of a signature that the verifier doesn't accept, else of a validator that refuses, else of a
    /// policy script that refuses.
    pub fn fault(&self) -> Option<Invalid>
        ensures { result ≡ first_found self.now }
    {
        match self.signature {
            Some(fault) => Some(fault),
            None => self.script,
        }
    }

    /// The fault of the first signature that the verifier doesn't accept.
    pub(crate) fn signature(&self) -> Option<Invalid>
        ensures { result ≡ self.now.signature }
    {
        self.signature
    }

    /// The fault of the first script that refuses.
    pub(crate) fn script(&self) -> Option<Invalid>
        ensures { result ≡ self.now.script }
    {
        self.script
    }
}

// Checks the signatures, and runs the scripts on these outputs.
fn look_upon<V: Verifier>(
    memory: Memory,
    tx: &Tx,
    outputs: Vec<Output, Memory>,
    verifier: &V,
) -> Result<Checked, NoMemory>
    requires { length outputs.items ≡ length tx.now.inputs + length tx.now.references }
    ensures checked { IfOk result (IsChecked (V.accepts verifier.now) tx.now) }
    ensures upon { IfOk result (IsUpon tx.now outputs.items) }
{
    let mut spent = outputs;
    let count = tx.inputs().len();
    let _ = tx.references();
    let referenced = spent.split_off(count)?;
    let resolved = Resolved::of(spent, referenced);
    let script = script_refused(memory, tx, &resolved)?;
    Ok(Checked {
        resolved,
        signature: bad_signature(tx, verifier),
        script,
    })
}

/// Checks a transaction's signatures, and runs its scripts on these outputs: one for each input, in order, then one for
/// each reference. So this can happen before anybody knows whether the outputs can be spent.
pub fn precheck<V: Verifier>(
    memory: Memory,
    tx: &Tx,
    outputs: &[Output],
    verifier: &V,
) -> Result<Checked, NoMemory>
    requires { length outputs.now ≡ length tx.now.inputs + length tx.now.references }
    ensures checked { IfOk result (IsChecked (V.accepts verifier.now) tx.now) }
    ensures upon { IfOk result (IsUpon tx.now outputs.now) }
{
    let mut shared = Vec::with_capacity(memory, outputs.len())?;
    for output in outputs {
        shared.push(output.share()?)?;
    }
    look_upon(memory, tx, shared, verifier)
}
