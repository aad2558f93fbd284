//! The verifier of the samples.
use mp_rules::Verifier;
use mp_tx::{Key, Sig, TxId};

/// Accepts each signature, and has a mark that identifies it.
#[derive(Clone, Copy)]
pub struct AcceptsAll {
    pub mark: u64,
}

/// The verifier, whose mark is 7.
pub const ACCEPTS_ALL: AcceptsAll = AcceptsAll { mark: 7 };

impl Verifier for AcceptsAll {
    ghost use Rattle.mp_testing.specs.Names.{any};

    ghost accepts = { λ _. any };

    fn verify(&self, _key: &Key, _id: &TxId, _sig: &Sig) -> bool {
        true
    }
}
