//! What a script sees when it runs.

use crate::data::Data;
use mp_bundle::{Bundle, Sum};
use mp_bytes::Hash;

/// The address of an output: the digest of the script that locks it.
pub type Address = Hash;

/// The public key of a signer.
pub type Key = [u8; 32];

/// An output of the transaction: the address, and what it pays there.
#[derive(Clone, Copy)]
pub struct PaidTo<'a> {
    pub address: &'a Address,
    pub value: &'a Bundle,
}

/// An output that a reference input names (CIP-31).
#[derive(Clone, Copy)]
pub struct Referred<'a> {
    pub address: &'a Address,
    pub datum_hash: &'a Hash,
    pub value: &'a Bundle,
}

/// What a script sees: the transaction for which it runs, and its own part in it. A policy script has no datum, no
/// redeemer and no value of its own.
#[derive(Clone, Copy)]
pub struct View<'a> {
    /// The hash of the script that runs.
    pub own_hash: &'a Hash,
    pub datum: Option<&'a Data>,
    pub redeemer: Option<&'a Data>,
    /// The value of the output that is being spent.
    pub own_value: Option<&'a Bundle>,
    /// The first tick of the validity interval.
    pub from: u64,
    /// The last tick of the validity interval.
    pub to: u64,
    /// The keys that have signed.
    pub keys: &'a [Key],
    /// The total of all spent outputs.
    pub spent: &'a Sum,
    pub forge: &'a Bundle,
    /// At most 256, which evaluation requires.
    pub outputs: &'a [PaidTo<'a>],
    /// At most 256 in a transaction.
    pub references: &'a [Referred<'a>],
}
