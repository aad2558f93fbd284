//! The verifier of Ed25519 signatures.

use mp_ed25519::Base;
use mp_memory::{Memory, NoMemory};
use mp_rules::Verifier;
use mp_tx::{Key, Sig, TxId};

/// Accepts a signature if and only if it is a good Ed25519 signature of the transaction's id, all 32 bytes, by the key.
#[derive(Drop)]
pub struct Ed25519Verifier {
    base: Base,
}

impl Ed25519Verifier {
    /// Finds the multiples of the base point, 40 KB. Any number of pools and threads may share them.
    pub fn new(memory: Memory) -> Result<Ed25519Verifier, NoMemory> {
        let base = Base::new(memory)?;
        Ok(Ed25519Verifier { base })
    }
}

impl Verifier for Ed25519Verifier {
    ghost use Rattle.mp_ed25519.specs.Ed25519.{accepts};

    ghost accepts = { λ _. accepts };

    fn verify(&self, key: &Key, id: &TxId, sig: &Sig) -> bool {
        self.base.verify(key, id, sig)
    }
}
