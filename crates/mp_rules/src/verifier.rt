//! Verifiers, which decide whether a signature is good.

ghost use Rattle.std.specs.Prelude.{◌≡◌};
ghost use Rattle.mp_rules.specs.Verifier.{Accepts};

use mp_tx::{Key, Sig, TxId};

/// A signature scheme. Its decision depends only on the key, the id and the signature.
pub trait Verifier {
    ghost accepts: { Self → Accepts };

    /// Whether it accepts this signature by this key for the transaction with this id.
    fn verify(&self, key: &Key, id: &TxId, sig: &Sig) -> bool
        ensures { result ≡ accepts self.now key.now id.now sig.now };
}
