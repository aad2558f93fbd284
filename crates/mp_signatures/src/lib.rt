//! The signature schemes that a pool may have.
#![tactic(auto)]

mod ed25519_verifier;
mod scheme;
mod signatures;

pub use ed25519_verifier::Ed25519Verifier;
pub use scheme::Scheme;
pub use signatures::Signatures;
