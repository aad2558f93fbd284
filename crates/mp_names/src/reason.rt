//! What is wrong with a line.

use mp_script::{DataFault, ScriptFault};
use mp_tx::TxId;
use std::{fmt, str};

/// What is wrong with a line. The program prints its text after the line's number.
#[derive(Clone, Copy)]
pub enum Reason<'a> {
    LongLine,
    Byte(u8),
    FirstWord(&'a [u8]),
    FewWords(&'a [u8]),
    ManyWords(&'a [u8]),
    NoName(&'a [u8]),
    Taken(&'a [u8]),
    NoTransaction(&'a [u8]),
    /// The pool holds no transaction with this id.
    NotHeld(TxId),
    NoOutput(&'a [u8]),
    NoScript(&'a [u8]),
    NoData(&'a [u8]),
    Number {
        word: &'a [u8],
        least: u64,
        most: u64,
    },
    Quantity(&'a [u8]),
    TokenName(&'a [u8]),
    Digits(&'a [u8]),
    ScriptBytes(&'a [u8], ScriptFault),
    DataBytes(&'a [u8], DataFault),
    Item(&'a [u8]),
    /// Two words of the line denote the same, which isn't allowed there.
    Repeats {
        later: &'a [u8],
        earlier: &'a [u8],
    },
    Interval,
    LargeTransaction,
    LateSetting,
    SetBefore(&'a [u8]),
    LateOutput,
    ManyOutputs,
    EarlyReset,
    NotInRace,
    /// Only the conversation of the operator may ask this.
    NotOperator,
    /// The conversation has this many names, and may not have more.
    ManyNames(u64),
}

const NOTHING: &[u8] = b"";

// A text before and after a word.
type Told<'a> = (&'static str, &'a [u8], &'static str);

const NAME: &str =
    "' is no name: a lower-case letter, and then up to 15 lower-case letters or digits";

const QUANTITY: &str =
    "' is no quantity: 1 to 9223372036854775807, in up to 19 digits, behind '-' or not";

const TOKEN_NAME: &str = "' is no token's name: 1 to 32 lower-case letters or digits";

const ITEM: &str =
    "' is no item, expected in=, ref=, out=, from=, to=, forge=, policy=, sign= or badsign=";

const LARGE: &str =
    "a transaction has at most 256 inputs, 256 reference inputs, 256 outputs and 16384 bytes";

const RACE: &str = "a race has no commands but submit, remove, sync and snapshot";

impl<'a> Reason<'a> {
    // The text before and after one word, or without any.
    fn tell(&self) -> Told<'a> {
        match *self {
            Reason::LongLine => ("a line has at most 4096 bytes", NOTHING, ""),
            Reason::FirstWord(word) => ("no line begins with '", word, "'"),
            Reason::FewWords(form) => ("too few words, expected '", form, "'"),
            Reason::ManyWords(form) => ("too many words, expected '", form, "'"),
            Reason::NoName(word) => ("'", word, NAME),
            Reason::Taken(word) => ("the name '", word, "' is taken"),
            Reason::NoTransaction(word) => ("no transaction '", word, "'"),
            Reason::NotHeld(_) => ("no transaction #", NOTHING, ""),
            Reason::NoOutput(word) => ("no output '", word, "'"),
            Reason::NoScript(word) => ("no script '", word, "'"),
            Reason::NoData(word) => ("no data '", word, "'"),
            Reason::Number { word, .. } => ("'", word, "' is no number"),
            Reason::Quantity(word) => ("'", word, QUANTITY),
            Reason::TokenName(word) => ("'", word, TOKEN_NAME),
            Reason::Digits(word) => ("'", word, "' isn't pairs of hexadecimal digits"),
            Reason::ScriptBytes(word, _) => ("'", word, "' isn't the bytes of a script: "),
            Reason::DataBytes(word, _) => ("'", word, "' isn't the bytes of a datum: "),
            Reason::Item(word) => ("'", word, ITEM),
            Reason::Repeats { later, .. } => ("'", later, "' repeats '"),
            Reason::Interval => ("the interval ends before it begins", NOTHING, ""),
            Reason::LargeTransaction => (LARGE, NOTHING, ""),
            Reason::LateSetting => ("a setting stands above the first command", NOTHING, ""),
            Reason::SetBefore(word) => ("'", word, "' was set before"),
            Reason::LateOutput => ("an output stands above the first command", NOTHING, ""),
            Reason::ManyOutputs => ("there are at most 65536 outputs", NOTHING, ""),
            Reason::EarlyReset => ("a reset stands below the first command", NOTHING, ""),
            Reason::NotInRace => (RACE, NOTHING, ""),
            Reason::NotOperator => ("only the operator may ask this", NOTHING, ""),
            Reason::ManyNames(_) => ("there are at most ", NOTHING, ""),
            Reason::Byte(_) => ("it has the byte ", NOTHING, ""),
        }
    }

    // The text that follows.
    fn tell_more<W: fmt::Write>(&self, f: &mut fmt::Formatter<W>) -> fmt::Result {
        match *self {
            Reason::Byte(byte) => put_byte(f, byte),
            Reason::Number { least, most, .. } => put_range(f, least, most),
            Reason::ScriptBytes(_, fault) => write!(f, "{fault}"),
            Reason::DataBytes(_, fault) => write!(f, "{fault}"),
            Reason::NotHeld(id) => put_not_held(f, &id),
            Reason::ManyNames(most) => write!(f, "{most} names"),
            Reason::Repeats { earlier, .. } => put_told(f, ("", earlier, "'")),
            _ => Ok(()),
        }
    }
}

// Unless a line is bad for its bytes, they are a text.
fn text_of(word: &[u8]) -> &str {
    str::from_utf8(word).unwrap_or("")
}

fn put_told<W: fmt::Write>(f: &mut fmt::Formatter<W>, told: Told<'_>) -> fmt::Result {
    let (before, word, after) = told;
    f.write_str(before)?;
    f.write_str(text_of(word))?;
    f.write_str(after)
}

fn put_not_held<W: fmt::Write>(f: &mut fmt::Formatter<W>, id: &TxId) -> fmt::Result {
    let mut digits = [0; 64];
    let _ = hex::encode_to_slice(id.as_slice(), &mut digits);
    put_told(f, ("", &digits, " in the pool"))
}

fn put_range<W: fmt::Write>(f: &mut fmt::Formatter<W>, least: u64, most: u64) -> fmt::Result {
    write!(f, " from {least} to {most}")
}

fn put_byte<W: fmt::Write>(f: &mut fmt::Formatter<W>, byte: u8) -> fmt::Result {
    write!(f, "{byte:#04x}, and a line's bytes go from 0x20 to 0x7e")
}

impl fmt::Display for Reason<'_> {
    fn fmt<W: fmt::Write>(&self, f: &mut fmt::Formatter<W>) -> fmt::Result {
        put_told(f, self.tell())?;
        self.tell_more(f)
    }
}
