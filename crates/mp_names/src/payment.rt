//! What an output pays.

use mp_bundle::Bundle;
use mp_memory::{Memory, NoMemory};
use mp_script::{Data, Script};
use mp_tx::Output;

/// An output with what it names by hash in full: its script and its datum.
pub struct Payment {
    pub value: Bundle,
    pub script: Script,
    pub datum: Data,
}

impl Drop for Payment {
    fn drop(self) {
        let Payment {
            value: _,
            script: _,
            datum: _,
        } = self;
    }
}

impl Payment {
    ghost use Rattle.std.specs.Prelude.{◌≡◌, IfOk};
    ghost use Rattle.mp_names.specs.Payments.{output_of};

    /// The output.
    pub fn to_output(&self) -> Result<Output, NoMemory>
        ensures { IfOk result (λ o. o ≡ output_of self.now) }
    {
        Ok(Output {
            address: *self.script.hash(),
            datum_hash: *self.datum.hash(),
            value: self.value.share()?,
        })
    }
}
