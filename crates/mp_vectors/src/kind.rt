//! The kinds of vectors.

use crate::answer::{is_number, is_told};
use crate::wrong::Result;
use crate::{
    bundle, datum, datum_ref, decode, faults, ledger, script, signature, sum, text, transaction,
    value,
};
use mp_memory::Memory;
use mp_text::{is_name, number, quantity};

/// What the lines of a file are about.
#[derive(Clone, Copy)]
pub enum Kind {
    Datum,
    DatumRef,
    Script,
    Value,
    Bundle,
    Sum,
    Transaction,
    Decode,
    Ledger,
    Name,
    Number,
    Quantity,
    Text,
    Fault,
    Signature,
}

impl Kind {
    /// All kinds, in the order in which they are checked.
    pub const ALL: [Kind; 15] = [
        Kind::Datum,
        Kind::DatumRef,
        Kind::Script,
        Kind::Value,
        Kind::Bundle,
        Kind::Sum,
        Kind::Transaction,
        Kind::Decode,
        Kind::Ledger,
        Kind::Name,
        Kind::Number,
        Kind::Quantity,
        Kind::Text,
        Kind::Fault,
        Kind::Signature,
    ];

    /// The name of its file.
    pub fn file_name(self) -> &'static str {
        match self {
            Kind::Datum => "datum.txt",
            Kind::DatumRef => "datum_ref.txt",
            Kind::Script => "script.txt",
            Kind::Value => "value.txt",
            Kind::Bundle => "bundle.txt",
            Kind::Sum => "sum.txt",
            Kind::Transaction => "transaction.txt",
            Kind::Decode => "decode.txt",
            Kind::Ledger => "ledger.txt",
            Kind::Name => "name.txt",
            Kind::Number => "number.txt",
            Kind::Quantity => "quantity.txt",
            Kind::Text => "text.txt",
            Kind::Fault => "fault.txt",
            Kind::Signature => "signature.txt",
        }
    }

    /// Whether what it is about allocates.
    pub fn takes_memory(self) -> bool {
        match self {
            Kind::Datum | Kind::Script | Kind::Bundle | Kind::Sum => true,
            Kind::Transaction | Kind::Decode | Kind::Ledger | Kind::Signature => true,
            Kind::DatumRef | Kind::Value | Kind::Text | Kind::Fault => false,
            Kind::Name | Kind::Number | Kind::Quantity => false,
        }
    }

    /// Whether the given words lead to the expected result.
    pub fn holds(self, memory: Memory, given: &str, wanted: &str) -> Result<bool> {
        match self {
            Kind::Datum => datum::holds(memory, given, wanted),
            Kind::DatumRef => datum_ref::holds(memory, given, wanted),
            Kind::Script => script::holds(memory, given, wanted),
            Kind::Value => value::holds(memory, given, wanted),
            Kind::Bundle => bundle::holds(memory, given, wanted),
            Kind::Sum => sum::holds(memory, given, wanted),
            Kind::Transaction => transaction::holds(memory, given, wanted),
            Kind::Decode => decode::holds(memory, given, wanted),
            Kind::Ledger => ledger::holds(memory, given, wanted),
            Kind::Name => Ok(is_told(is_name(given.as_bytes()), wanted)),
            Kind::Number => is_number(number(given.as_bytes()), wanted),
            Kind::Quantity => is_number(quantity(given.as_bytes()), wanted),
            Kind::Text => text::holds(memory, given, wanted),
            Kind::Fault => faults::holds(memory, given, wanted),
            Kind::Signature => signature::holds(memory, given, wanted),
        }
    }
}
