//! Look-ups in the outputs that can be spent.

ghost use Rattle.std.specs.Prelude.{◌≡◌, option_copied};
ghost use Rattle.mp_utxo.specs.Apply.{Unspent};

use crate::overlay::Overlay;
use mp_tx::{Ledger, OutRef, Output};

/// A finite map from references to the outputs that can be spent.
pub trait Utxo {
    ghost map: { Self → Unspent };

    /// The output that can be spent at the reference, if there is one. It takes no memory.
    fn get(&self, reference: &OutRef) -> Option<&Output>
        ensures { option_copied result ≡ map self.now reference.now };
}

impl Utxo for Ledger {
    ghost use Rattle.std.specs.FinMap as finite;

    ghost map = { λ l. finite.get l.utxo };

    fn get(&self, reference: &OutRef) -> Option<&Output> {
        Ledger::get(self, reference)
    }
}

impl Utxo for Overlay {
    ghost use Rattle.mp_utxo.specs.Overlay.{unspent};

    ghost map = { unspent };

    fn get(&self, reference: &OutRef) -> Option<&Output> {
        self.find(reference)
    }
}
