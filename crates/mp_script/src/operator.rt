//! The operators of scripts, by the number of their operands, and their bytes.

ghost use Rattle.std.specs.Prelude.{◌≡◌};
ghost use Rattle.mp_bytes.specs.Reading.{seen};
ghost use Rattle.mp_script.specs.Operators.{leaf_of, unary_of, binary_of, ternary_of, operator_of};
ghost use Rattle.mp_script.specs.ScriptReading.{plain_of, int_read, bytes_read, operator_read};

use crate::fault::ScriptFault;
use mp_bytes::{split_number, split_run};

/// An operator without operands or further bytes.
#[derive(Clone, Copy)]
pub enum Leaf {
    False,
    True,
    Datum,
    Redeemer,
    OwnHash,
    From,
    To,
    OutputCount,
    RefCount,
}

/// An operator on one value.
#[derive(Clone, Copy)]
pub enum Unary {
    Not,
    AsInt,
    AsBytes,
    Length,
    SignedBy,
    RefAddress,
    RefDatumHash,
}

/// An operator on two values.
#[derive(Clone, Copy)]
pub enum Binary {
    And,
    Or,
    Eq,
    Less,
    AtMost,
    Add,
    Sub,
    Mul,
    Item,
    OwnQuantity,
    Spent,
    Forged,
}

/// An operator on three values.
#[derive(Clone, Copy)]
pub enum Ternary {
    If,
    Paid,
    RefQuantity,
}

/// An operator, with its further bytes.
#[derive(Clone, Copy)]
pub enum Operator<'a> {
    Int(i64),
    Bytes(&'a [u8]),
    Leaf(Leaf),
    Unary(Unary),
    Binary(Binary),
    Ternary(Ternary),
}

const INT: u8 = 0x02;

const BYTES: u8 = 0x03;

fn leaf_of(code: u8) -> Option<Leaf>
    ensures { result ≡ leaf_of code }
{
    match code {
        0x00 => Some(Leaf::False),
        0x01 => Some(Leaf::True),
        0x04 => Some(Leaf::Datum),
        0x05 => Some(Leaf::Redeemer),
        0x06 => Some(Leaf::OwnHash),
        0x50 => Some(Leaf::From),
        0x51 => Some(Leaf::To),
        0x57 => Some(Leaf::OutputCount),
        0x60 => Some(Leaf::RefCount),
        _ => None,
    }
}

fn unary_of(code: u8) -> Option<Unary>
    ensures { result ≡ unary_of code }
{
    match code {
        0x10 => Some(Unary::Not),
        0x40 => Some(Unary::AsInt),
        0x41 => Some(Unary::AsBytes),
        0x43 => Some(Unary::Length),
        0x52 => Some(Unary::SignedBy),
        0x61 => Some(Unary::RefAddress),
        0x62 => Some(Unary::RefDatumHash),
        _ => None,
    }
}

fn binary_of(code: u8) -> Option<Binary>
    ensures { result ≡ binary_of code }
{
    match code {
        0x11 => Some(Binary::And),
        0x12 => Some(Binary::Or),
        0x20 => Some(Binary::Eq),
        0x21 => Some(Binary::Less),
        0x22 => Some(Binary::AtMost),
        0x30 => Some(Binary::Add),
        0x31 => Some(Binary::Sub),
        0x32 => Some(Binary::Mul),
        0x42 => Some(Binary::Item),
        0x53 => Some(Binary::OwnQuantity),
        0x54 => Some(Binary::Spent),
        0x55 => Some(Binary::Forged),
        _ => None,
    }
}

fn ternary_of(code: u8) -> Option<Ternary>
    ensures { result ≡ ternary_of code }
{
    match code {
        0x13 => Some(Ternary::If),
        0x56 => Some(Ternary::Paid),
        0x63 => Some(Ternary::RefQuantity),
        _ => None,
    }
}

// The operator of a byte that has no further bytes.
#[tactic(auto, unfolding(crate::specs::ScriptReading::plain_of))]
fn plain_of<'a>(code: u8) -> Result<Operator<'a>, ScriptFault>
    ensures { seen operator_of result ≡ plain_of code }
{
    if let Some(leaf) = leaf_of(code) {
        return Ok(Operator::Leaf(leaf));
    }
    if let Some(unary) = unary_of(code) {
        return Ok(Operator::Unary(unary));
    }
    if let Some(binary) = binary_of(code) {
        return Ok(Operator::Binary(binary));
    }
    match ternary_of(code) {
        Some(ternary) => Ok(Operator::Ternary(ternary)),
        None => Err(ScriptFault::BadOperator),
    }
}

#[tactic(auto, unfolding(crate::specs::ScriptReading::int_read))]
fn int_at(bytes: &[u8]) -> Result<(Operator<'_>, &[u8]), ScriptFault>
    ensures { seen (λ x. (operator_of x.0, x.1.now)) result ≡ int_read bytes.now }
{
    let Some((number, rest)) = split_number(bytes) else {
        return Err(ScriptFault::Truncated);
    };
    Ok((Operator::Int(number), rest))
}

#[tactic(auto, unfolding(crate::specs::ScriptReading::bytes_read))]
fn octets_at(bytes: &[u8]) -> Result<(Operator<'_>, &[u8]), ScriptFault>
    ensures { seen (λ x. (operator_of x.0, x.1.now)) result ≡ bytes_read bytes.now }
{
    let Some((len, rest)) = bytes.split_first() else {
        return Err(ScriptFault::Truncated);
    };
    let Some((octets, rest)) = split_run(rest, *len as usize) else {
        return Err(ScriptFault::Truncated);
    };
    Ok((Operator::Bytes(octets), rest))
}

/// The operator at the front, and the bytes after it.
///
/// # Errors
/// `BadOperator` if the first byte is no operator's, and else `Truncated` if bytes are missing.
#[tactic(auto, unfolding(crate::specs::ScriptReading::operator_read))]
pub fn operator_at(bytes: &[u8]) -> Result<(Operator<'_>, &[u8]), ScriptFault>
    ensures { seen (λ x. (operator_of x.0, x.1.now)) result ≡ operator_read bytes.now }
{
    let Some((code, rest)) = bytes.split_first() else {
        return Err(ScriptFault::Truncated);
    };
    match *code {
        INT => int_at(rest),
        BYTES => octets_at(rest),
        code => Ok((plain_of(code)?, rest)),
    }
}
