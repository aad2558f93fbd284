//! The verifier of a scheme that is chosen as the program runs.

ghost use Rattle.std.specs.Prelude.{◌≡◌};
ghost use Rattle.mp_signatures.specs.Scheme.{is_key_and_id};

use crate::ed25519_verifier::Ed25519Verifier;
use crate::scheme::Scheme;
use mp_memory::{Memory, NoMemory};
use mp_rules::Verifier;
use mp_tx::{Key, Sig, TxId};
use std::marker::Model;
use std::sync::Arc;

const KEY_BYTES: usize = 32;

// Whether the signature is the key followed by the id.
fn is_key_and_id(key: &Key, id: &TxId, sig: &Sig) -> bool
    ensures { result ≡ is_key_and_id key.now id.now sig.now }
{
    let (front, back) = sig.split_at(KEY_BYTES);
    front == key.as_slice() && back == id.as_slice()
}

/// A scheme, and what it takes to verify its signatures.
#[derive(Drop)]
pub enum Means {
    Trial,
    Checked,
    Ed25519(Arc<Ed25519Verifier, Memory>),
}

/// Accepts a signature exactly when its scheme does. Contracts see the scheme.
pub struct Signatures {
    means: Means,
}

impl Drop for Signatures {
    fn drop(self) {
        let Signatures { means: _ } = self;
    }
}

impl Model for Signatures {
    ghost use Rattle.mp_signatures.specs.declared.scheme.Scheme.{Scheme};
    ghost use Rattle.mp_signatures.specs.Inside.Means.{scheme_of};

    ghost Value = { Scheme };

    ghost view = { λ s. scheme_of s.means };
}

impl Signatures {
    ghost use Rattle.std.specs.Prelude.{◌≡◌, IfOk};

    /// The verifier of this scheme. That of Ed25519 finds the multiples of the base point, 40 KB; the others take no memory.
    pub fn new(memory: Memory, scheme: Scheme) -> Result<Signatures, NoMemory>
        ensures { IfOk result (λ s. s ≡ scheme) }
    {
        let means = match scheme {
            Scheme::Trial => Means::Trial,
            Scheme::Checked => Means::Checked,
            Scheme::Ed25519 => Means::Ed25519(Arc::new(memory, Ed25519Verifier::new(memory)?)?),
        };
        Ok(Signatures { means })
    }

    /// The same, for another owner. It takes no memory.
    pub fn share(&self) -> Result<Signatures, NoMemory>
        ensures { IfOk result (λ s. s ≡ self.now) }
    {
        let means = match &self.means {
            Means::Trial => Means::Trial,
            Means::Checked => Means::Checked,
            Means::Ed25519(verifier) => Means::Ed25519(Arc::try_clone(verifier)?),
        };
        Ok(Signatures { means })
    }
}

impl Verifier for Signatures {
    ghost use Rattle.mp_signatures.specs.Scheme.{accepted_by};

    ghost accepts = { accepted_by };

    fn verify(&self, key: &Key, id: &TxId, sig: &Sig) -> bool {
        match &self.means {
            Means::Trial => is_key_and_id(key, id, sig),
            Means::Checked => true,
            Means::Ed25519(verifier) => verifier.verify(key, id, sig),
        }
    }
}
