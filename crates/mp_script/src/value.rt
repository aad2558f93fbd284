//! The value of a script, and of each part of it.

use crate::datum_ref::DatumRef;

/// The value of an expression.
#[derive(Debug, Default, Drop)]
pub enum Value<'a> {
    /// There is no value: an operand had the wrong kind, a number didn't fit 128 bits, or an index was out of range.
    #[default]
    Nothing,
    /// A truth value.
    Truth(bool),
    /// A number.
    Whole(i128),
    /// Bytes.
    Octets(&'a [u8]),
    /// A datum, or a part of one.
    Tree(DatumRef<'a>),
}
