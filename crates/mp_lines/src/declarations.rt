//! Lines with declarations.

ghost use Rattle.std.specs.Prelude.{◌≡◌, Ok, None, Some, option_map, option_and_then, IfOk};
ghost use Rattle.mp_text.specs.Words.{words_of};
ghost use Rattle.mp_lines.specs.Lines.{bytes_of, if_script, if_datum, script_by, script_line, data_by, data_line, output_by, output_line, tx_line};
ghost use Rattle.mp_lines.specs.Lines as lines;
ghost use Rattle.mp_lines.specs.Draft.{empty_draft, draft_of, declared_of};
ghost use Rattle.mp_names.specs.Fault.{Reads, Gives, IsBad};
ghost use Rattle.mp_lines.specs.Inside.Line.{to_line};

use crate::draft::declared_by;
use crate::forms::{DATA, OUT, SCRIPT, TX};
use crate::line::Line;
use crate::words::two_words;
use hex::FromHexError;
use mp_memory::Memory;
use mp_names::{LineFault, Name, NamedDatum, NamedScript, Names, Reason, payment_of, refused_name};
use mp_script::{Data, DataFault, Script, ScriptFault};
use mp_text::first_word;

/// The bytes of the hexadecimal digits, of either case.
///
/// # Errors
/// `Bad` if they aren't pairs of hexadecimal digits. `NoMemory` may be returned instead of any answer.
pub fn bytes_of(memory: Memory, digits: &[u8]) -> Result<Vec<u8, Memory>, LineFault<'_>>
    ensures { Gives (λ v. v.items) (bytes_of digits.now) result }
{
    match hex::decode(memory, digits) {
        Ok(bytes) => Ok(bytes),
        Err(FromHexError::OutOfMemory) => Err(LineFault::NoMemory),
        Err(_) => Err(LineFault::Bad(Reason::Digits(digits))),
    }
}

// The script of these bytes. The digits are those of the line.
fn if_script<'a>(memory: Memory, bytes: &[u8], digits: &'a [u8]) -> Result<Script, LineFault<'a>>
    ensures { Reads (if_script bytes.now) result }
{
    match Script::decode(memory, bytes) {
        Ok(script) => Ok(script),
        Err(ScriptFault::NoMemory) => Err(LineFault::NoMemory),
        Err(fault) => Err(LineFault::Bad(Reason::ScriptBytes(digits, fault))),
    }
}

// The datum of these bytes. The digits are those of the line.
fn if_datum<'a>(memory: Memory, bytes: &[u8], digits: &'a [u8]) -> Result<Data, LineFault<'a>>
    ensures { Reads (if_datum bytes.now) result }
{
    match Data::decode(memory, bytes) {
        Ok(datum) => Ok(datum),
        Err(DataFault::NoMemory) => Err(LineFault::NoMemory),
        Err(fault) => Err(LineFault::Bad(Reason::DataBytes(digits, fault))),
    }
}

fn script_of(memory: Memory, digits: &[u8]) -> Result<Script, LineFault<'_>>
    ensures { Reads (option_and_then if_script (bytes_of digits.now)) result }
{
    let bytes = bytes_of(memory, digits)?;
    if_script(memory, &bytes, digits)
}

fn datum_of(memory: Memory, digits: &[u8]) -> Result<Data, LineFault<'_>>
    ensures { Reads (option_and_then if_datum (bytes_of digits.now)) result }
{
    let bytes = bytes_of(memory, digits)?;
    if_datum(memory, &bytes, digits)
}

// The declared value, with a copy of its name.
fn named<'a, T: Drop>(
    memory: Memory,
    name: &[u8],
    made: Result<T, LineFault<'a>>,
) -> Result<(Name, T), LineFault<'a>>
    ensures name { IfOk result (λ p. p.0 ≡ name.now) }
    ensures made { IfOk result (λ p. made.entry ≡ Ok p.1) }
    ensures bad { IsBad result → IsBad made.entry }
{
    let made = made?;
    let name = Name::of(memory, name)?;
    Ok((name, made))
}

fn script_by<'a>(
    memory: Memory,
    names: &Names,
    name: &'a [u8],
    digits: &'a [u8],
) -> Result<Line, LineFault<'a>>
    ensures { Gives to_line (script_by names.now (name.now, digits.now)) result }
{
    if !names.is_new_script(name) {
        return Err(LineFault::Bad(refused_name(name)));
    }
    match named(memory, name, script_of(memory, digits)) {
        Ok((name, script)) => Ok(Line::Script(NamedScript { name, script })),
        Err(fault) => Err(fault),
    }
}

fn data_by<'a>(
    memory: Memory,
    names: &Names,
    name: &'a [u8],
    digits: &'a [u8],
) -> Result<Line, LineFault<'a>>
    ensures { Gives to_line (data_by names.now (name.now, digits.now)) result }
{
    if !names.is_new_datum(name) {
        return Err(LineFault::Bad(refused_name(name)));
    }
    match named(memory, name, datum_of(memory, digits)) {
        Ok((name, datum)) => Ok(Line::Data(NamedDatum { name, datum })),
        Err(fault) => Err(fault),
    }
}

fn output_by<'a>(
    memory: Memory,
    names: &Names,
    name: &'a [u8],
    word: &'a [u8],
) -> Result<Line, LineFault<'a>>
    ensures { Gives to_line (output_by names.now (name.now, word.now)) result }
{
    if !names.is_new_binding(name) {
        return Err(LineFault::Bad(refused_name(name)));
    }
    match named(memory, name, payment_of(memory, names, word)) {
        Ok((name, payment)) => Ok(Line::Out(name, payment)),
        Err(fault) => Err(fault),
    }
}

/// script NAME HEX
pub fn script_line<'a>(
    memory: Memory,
    names: &Names,
    words: &'a [u8],
) -> Result<Line, LineFault<'a>>
    ensures { Gives to_line (script_line names.now (words_of words.now)) result }
{
    let (name, digits) = two_words(SCRIPT.text, words)?;
    script_by(memory, names, name, digits)
}

/// data NAME HEX
pub fn data_line<'a>(memory: Memory, names: &Names, words: &'a [u8]) -> Result<Line, LineFault<'a>>
    ensures { Gives to_line (data_line names.now (words_of words.now)) result }
{
    let (name, digits) = two_words(DATA.text, words)?;
    data_by(memory, names, name, digits)
}

/// out NAME PAY
pub fn output_line<'a>(
    memory: Memory,
    names: &Names,
    words: &'a [u8],
) -> Result<Line, LineFault<'a>>
    ensures { Gives to_line (output_line names.now (words_of words.now)) result }
{
    let (name, word) = two_words(OUT.text, words)?;
    output_by(memory, names, name, word)
}

fn tx_by<'a>(
    memory: Memory,
    names: &Names,
    name: &[u8],
    items: &'a [u8],
) -> Result<Line, LineFault<'a>>
    ensures { Gives to_line (option_map (lines.Tx name.now) (option_and_then declared_of
        (draft_of names.now empty_draft (words_of items.now)))) result }
{
    match named(memory, name, declared_by(memory, names, items)) {
        Ok((name, declared)) => Ok(Line::Tx(name, declared)),
        Err(fault) => Err(fault),
    }
}

/// tx NAME ITEM ..
pub fn tx_line<'a>(memory: Memory, names: &Names, words: &'a [u8]) -> Result<Line, LineFault<'a>>
    ensures { Gives to_line (tx_line names.now (words_of words.now)) result }
{
    let Some((name, items)) = first_word(words) else {
        return Err(LineFault::Bad(Reason::FewWords(TX.text)));
    };
    if first_word(items).is_none() {
        return Err(LineFault::Bad(Reason::FewWords(TX.text)));
    }
    if !names.is_new_binding(name) {
        return Err(LineFault::Bad(refused_name(name)));
    }
    tx_by(memory, names, name, items)
}
