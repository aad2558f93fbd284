//! Which signatures are good.

ghost use Rattle.std.specs.Prelude.{◌≡◌, ◌&&◌, nat_eq, take, drop};
ghost use Rattle.std.specs.Cmp.Lexicographic.{pointwise};

use mp_rules::Verifier;
use mp_tx::{Key, Sig, TxId};

/// Accepts the key followed by the id, and nothing else.
#[derive(Clone, Copy)]
pub struct KeyThenId;

impl Verifier for KeyThenId {
    ghost accepts = { λ _ key id sig. pointwise nat_eq (take 32 sig) key
        && pointwise nat_eq (drop 32 sig) id };

    fn verify(&self, key: &Key, id: &TxId, sig: &Sig) -> bool {
        let (front, back) = sig.split_at(32);
        front == key.as_slice() && back == id.as_slice()
    }
}
