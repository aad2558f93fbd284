//! The ledger state that a scenario's pool adopts next.

ghost use Rattle.std.specs.Prelude.{◌≡◌, None, Some, OnOk, OnErr, option_copied};
ghost use Rattle.std.specs.List.{list_any};
ghost use Rattle.mp_tx.specs.Reference.{same_ref};
ghost use Rattle.mp_tx.specs.Ledger.{refs, AreDistinct};
ghost use Rattle.mp_names.specs.Fault.{IsBad};
ghost use Rattle.mp_names.specs.Outputs.{with_output};

use crate::fault::LineFault;
use crate::payment::Payment;
use crate::reason::Reason;
use crate::settings::BlockBytes;
use mp_memory::Memory;
use mp_tx::{OutRef, Output};
use std::marker::Model;

/// The outputs of a ledger state, in the order of the line that names them. Their references are distinct.
pub struct Outputs {
    entries: Vec<(OutRef, Output), Memory>,
}

impl Drop for Outputs {
    fn drop(self) {
        let Outputs { entries: _ } = self;
    }
}

impl Model for Outputs {
    ghost use Rattle.std.specs.Prelude.{List};
    ghost use Rattle.mp_tx.specs.declared.reference.OutRef.{OutRef};
    ghost use Rattle.mp_tx.specs.declared.output.Output as told;
    ghost use Rattle.mp_tx.specs.Ledger.{refs, AreDistinct};

    ghost Value = { List (OutRef × told.Output) };

    ghost view = { λ o. o.entries.items };

    ghost invariant = { λ o. AreDistinct (refs o.entries.items) };
}

/// A ledger state by its outputs.
#[derive(Drop)]
pub struct NewLedger {
    pub tick: u64,
    /// The block bytes, if the line gives them.
    pub block_bytes: Option<BlockBytes>,
    pub outputs: Outputs,
}

fn has_reference(entries: &[(OutRef, Output)], reference: &OutRef) -> bool
    ensures { result ≡ list_any (λ o. same_ref reference.now o.0) entries.now }
{
    entries.iter().any(|entry| *reference == entry.0)
}

// Adds the output as the last one, unless an output has the reference.
fn put_output<'a>(
    entries: &mut Vec<(OutRef, Output), Memory>,
    reference: OutRef,
    payment: &Payment,
    reason: Reason<'a>,
) -> Result<(), LineFault<'a>>
    ensures ok { OnOk result
        (with_output entries.old.items (Some reference) (Some payment.now)
        ≡ Some entries.new.items) }
    ensures bad { IsBad result
        → with_output entries.old.items (Some reference) (Some payment.now) ≡ None }
    ensures err { OnErr result (entries.new.items ≡ entries.old.items) }
    ensures distinct { AreDistinct (refs entries.old.items) → AreDistinct (refs entries.new.items) }
{
    if has_reference(entries, &reference) {
        return Err(LineFault::Bad(reason));
    }
    let output = payment.to_output()?;
    entries.push((reference, output))?;
    Ok(())
}

impl Outputs {
    ghost use Rattle.std.specs.Prelude.{◌≡◌, [], None, Some, OnOk, OnErr, option_copied};
    ghost use Rattle.mp_names.specs.Fault.{IsBad};
    ghost use Rattle.mp_tx.specs.Ledger.{refs, AreDistinct};
    ghost use Rattle.mp_names.specs.Outputs.{with_output};

    /// No outputs.
    pub fn new(memory: Memory) -> Outputs
        ensures { result ≡ [] }
    {
        Outputs {
            entries: Vec::new(memory),
        }
    }

    /// Adds an output with this reference and payment as the last one. If an output has the reference, it is `Bad` for the given
    /// reason. After an `Err` the outputs are as they were.
    pub fn push<'a>(
        &mut self,
        reference: OutRef,
        payment: &Payment,
        reason: Reason<'a>,
    ) -> Result<(), LineFault<'a>>
        ensures ok { OnOk result
            (with_output self.old (Some reference) (Some payment.now) ≡ Some self.new) }
        ensures bad { IsBad result
            → with_output self.old (Some reference) (Some payment.now) ≡ None }
        ensures err { OnErr result (self.new ≡ self.old) }
    {
        put_output(&mut self.entries, reference, payment, reason)
    }

    /// The outputs with their references.
    pub fn into_entries(self) -> Vec<(OutRef, Output), Memory>
        ensures entries { result.items ≡ self }
        ensures distinct { AreDistinct (refs result.items) }
    {
        let Outputs { entries } = self;
        entries
    }
}
