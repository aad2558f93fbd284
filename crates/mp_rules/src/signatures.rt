//! The rule of signatures.

ghost use Rattle.std.specs.Prelude.{◌≡◌, not, option_copied};
ghost use Rattle.std.specs.List.{find};
ghost use Rattle.mp_rules.specs.FirstFault.{bad_signature};

use crate::invalid::Invalid;
use crate::verifier::Verifier;
use mp_tx::{Signature, Tx, TxId};

fn unaccepted<'a, V: Verifier>(
    signatures: &'a [Signature],
    id: &TxId,
    verifier: &V,
) -> Option<&'a Signature>
    ensures { option_copied result ≡
        find (λ s. not (V.accepts verifier.now s.key id.now s.sig)) signatures.now }
{
    signatures
        .iter()
        .find(|s| !verifier.verify(&s.key, id, &s.sig))
}

/// The fault of the first signature that the verifier doesn't accept.
#[tactic(auto, unfolding(crate::specs::FirstFault::bad_signature))]
pub fn bad_signature<V: Verifier>(tx: &Tx, verifier: &V) -> Option<Invalid>
    ensures { result ≡ bad_signature (V.accepts verifier.now) tx.now }
{
    match unaccepted(tx.signatures(), tx.id(), verifier) {
        Some(signature) => Some(Invalid::BadSignature(signature.key)),
        None => None,
    }
}
