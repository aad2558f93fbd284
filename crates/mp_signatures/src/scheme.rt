//! The schemes.

/// Which signatures a pool accepts.
#[derive(Clone, Copy, Debug, PartialEq, Eq)]
pub enum Scheme {
    /// The key followed by the transaction's id. Anybody can write those, so it is for trials.
    Trial,
    /// All. The caller of a submit has verified them.
    Checked,
    /// The Ed25519 signatures of the transaction's id, all 32 bytes.
    Ed25519,
}
