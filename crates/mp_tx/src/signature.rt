//! Signatures.

use mp_script::Key;

/// The signature of a transaction's id.
pub type Sig = [u8; 64];

/// A signature and its key. Signatures are ordered by key, and then by their bytes.
#[derive(Clone, Copy, Debug, PartialEq, Eq)]
pub struct Signature {
    pub key: Key,
    pub sig: Sig,
}
