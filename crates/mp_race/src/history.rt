//! Histories as texts.

ghost use Rattle.std.specs.Prelude.{◌≡◌, ◌++◌, ◌<◌, ◌≤◌, length, OnOk, IfOk, IfErr, IfSome, IfNone};
ghost use Rattle.mp_race.specs.HistoryText.{told_line, told_text, lines_text, head_line, head_text};
ghost use Rattle.mp_race.specs.HistoryText.{IsTellable, HasNoEntry, HasNoHead, IsFaultOfLines};
ghost use Rattle.mp_race.specs.Inside.HistoryReading.{IsApart};

use crate::fault::RaceFault;
use crate::input::read_history_text;
use crate::reading::{read_head, read_told};
use crate::told::Told;
use mp_answers::{put_number, put_reply, put_word};
use mp_memory::{Memory, NoMemory};
use mp_text::{InputFault, Text, first_line};
use std::io::Read;

/// A history, as its text records it.
pub struct RecordedHistory {
    /// How many workers there were.
    pub workers: u32,
    /// The entries, in order.
    pub told: Vec<Told, Memory>,
}

impl Drop for RecordedHistory {
    fn drop(self) {
        let RecordedHistory {
            workers: _,
            told: _,
        } = self;
    }
}

// The line of an entry without its end.
fn put_told_line(text: &mut Text, told: &Told) -> Result<(), NoMemory>
    ensures { OnOk result (text.new.items ≡ text.old.items ++ told_line told.now) }
{
    put_word(text, b"entry")?;
    put_number(text, told.place)?;
    put_number(text, u64::from(told.worker))?;
    put_number(text, told.task)?;
    text.push(b' ')?;
    put_reply(text, &told.reply)?;
    Ok(())
}

fn put_told(text: &mut Text, told: &Told) -> Result<(), NoMemory>
    ensures { OnOk result (text.new.items ≡ text.old.items ++ told_text told.now) }
{
    put_told_line(text, told)?;
    text.push(b'\n')?;
    Ok(())
}

// The lines of entries.
fn put_lines(text: &mut Text, told: &[Told]) -> Result<(), NoMemory>
    ensures { OnOk result (text.new.items ≡ text.old.items ++ lines_text told.now) }
{
    for entry in told {
        put_told(text, entry)?;
    }
    Ok(())
}

// The first line.
fn head_text(memory: Memory, workers: u32, entries: u64) -> Result<Text, NoMemory>
    ensures { IfOk result (λ text. text.items ≡ head_text workers entries) }
{
    let mut text = Vec::new(memory);
    put_word(&mut text, b"workers")?;
    put_number(&mut text, u64::from(workers))?;
    put_word(&mut text, b" entries")?;
    put_number(&mut text, entries)?;
    text.push(b'\n')?;
    Ok(text)
}

// What follows the prefix, if the text begins with it.
fn behind<'a>(text: &'a [u8], front: &[u8]) -> Option<&'a [u8]>
    ensures some { IfSome result (λ rest. text.now ≡ front.now ++ rest.now) }
    ensures none { IfNone result (IsApart text.now front.now) }
{
    text.strip_prefix(front)
}

// The numbers of workers and entries in the first line, and the text after that line.
fn first_head(memory: Memory, text: &[u8]) -> Result<Option<(u32, u64, &[u8])>, NoMemory>
    ensures some { IfOk result (λ found. IfSome found
        (λ f. text.now ≡ head_text f.0 f.1 ++ f.2.now)) }
    ensures least { IfOk result (λ found. IfSome found (λ f. 1 ≤ f.0)) }
    ensures most { IfOk result (λ found. IfSome found (λ f. f.0 ≤ 64)) }
    ensures none { IfOk result (λ found. IfNone found (HasNoHead text.now)) }
{
    let Some((line, _)) = first_line(text) else {
        return Ok(None);
    };
    let Some((workers, entries)) = read_head(line) else {
        return Ok(None);
    };
    let head = head_text(memory, workers, entries)?;
    match behind(text, &head) {
        Some(rest) => Ok(Some((workers, entries, rest))),
        None => Ok(None),
    }
}

// The entry whose line the text begins with, and the text after that line.
fn first_told(memory: Memory, text: &[u8]) -> Result<Option<(Told, &[u8])>, NoMemory>
    ensures some { IfOk result (λ found. IfSome found
        (λ f. text.now ≡ told_text f.0 ++ f.1.now)) }
    ensures tellable { IfOk result (λ found. IfSome found (λ f. IsTellable f.0)) }
    ensures none { IfOk result (λ found. IfNone found (HasNoEntry text.now)) }
{
    let Some((line, _)) = first_line(text) else {
        return Ok(None);
    };
    let Some(told) = read_told(memory, line)? else {
        return Ok(None);
    };
    let mut written = Vec::new(memory);
    put_told(&mut written, &told)?;
    match behind(text, &written) {
        Some(rest) => Ok(Some((told, rest))),
        None => Ok(None),
    }
}

// The next entry, after `told` of `entries` entries.
fn next_told(
    memory: Memory,
    told: u64,
    entries: u64,
    text: &[u8],
) -> Result<Option<(Told, &[u8])>, NoMemory>
    ensures some { IfOk result (λ found. IfSome found
        (λ f. text.now ≡ told_text f.0 ++ f.1.now)) }
    ensures tellable { IfOk result (λ found. IfSome found (λ f. IsTellable f.0)) }
    ensures within { IfOk result (λ found. IfSome found (λ _. told < entries)) }
    ensures none { IfOk result (λ found. IfNone found (told < entries → HasNoEntry text.now)) }
{
    if entries <= told {
        return Ok(None);
    }
    first_told(memory, text)
}

// As many entries as `entries` says, from a text with a line for each.
fn read_lines(memory: Memory, entries: u64, text: &[u8]) -> Result<Vec<Told, Memory>, RaceFault>
    ensures text { IfOk result (λ told. text.now ≡ lines_text told.items) }
    ensures number { IfOk result (λ told. length told.items ≡ entries) }
    ensures fault { IfErr result (IsFaultOfLines entries text.now) }
{
    let mut told = Vec::new(memory);
    let mut rest = text;
    while !rest.is_empty() {
        let number = told.len() as u64;
        match next_told(memory, number, entries, rest)? {
            Some((entry, after)) => {
                told.push(entry)?;
                rest = after;
            }
            None => return Err(RaceFault::BadLine(number + 2)),
        }
    }
    if (told.len() as u64) < entries {
        return Err(RaceFault::MissingEntry(told.len() as u64));
    }
    Ok(told)
}

impl RecordedHistory {
    ghost use Rattle.std.specs.Prelude.{◌≡◌, ◌≤◌, IfOk, IfErr, IfSome};
    ghost use Rattle.mp_race.specs.HistoryText.{history_text, IsFaultOfText};
    ghost use Rattle.mp_race.specs.HistoryRead.{IsRead};

    /// The text: a line with the numbers of workers and entries, then a line for each entry.
    pub fn to_text(&self, memory: Memory) -> Result<Vec<u8, Memory>, NoMemory>
        ensures { IfOk result
            (λ text. text.items ≡ history_text self.now.workers self.now.told.items) }
    {
        let mut text = head_text(memory, self.workers, self.told.len() as u64)?;
        put_lines(&mut text, &self.told)?;
        Ok(text)
    }

    /// The history with this text.
    ///
    /// # Errors
    /// `BadLine` with the number of the first line, from 1, that has another form or is one too many. `MissingEntry` with the
    /// number of lines of entries, if they are fewer than the first line says. `NoMemory`.
    pub fn parse(memory: Memory, text: &[u8]) -> Result<RecordedHistory, RaceFault>
        ensures text { IfOk result (λ h. text.now ≡ history_text h.workers h.told.items) }
        ensures least { IfOk result (λ h. 1 ≤ h.workers) }
        ensures most { IfOk result (λ h. h.workers ≤ 64) }
        ensures fault { IfErr result (IsFaultOfText text.now) }
    {
        match first_head(memory, text)? {
            Some((workers, entries, rest)) => Ok(RecordedHistory {
                workers,
                told: read_lines(memory, entries, rest)?,
            }),
            None => Err(RaceFault::BadLine(1)),
        }
    }

    /// Reads all of the input, and returns the history with this text.
    ///
    /// # Errors
    /// `ReadFault` if a read fails or there are more than `MAX_HISTORY_BYTES` bytes; otherwise those of `parse`. `NoMemory` may
    /// replace any other answer.
    pub fn read<R: Read>(memory: Memory, reader: &mut R) -> Result<RecordedHistory, RaceFault>
        ensures read { IfSome (R.remaining reader.old) (λ bytes. IsRead bytes result) }
        ensures least { IfOk result (λ h. 1 ≤ h.workers) }
        ensures most { IfOk result (λ h. h.workers ≤ 64) }
    {
        match read_history_text(memory, reader) {
            Ok(text) => RecordedHistory::parse(memory, &text),
            Err(InputFault::NoMemory) => Err(RaceFault::NoMemory),
            Err(InputFault::Read) => Err(RaceFault::ReadFault),
        }
    }
}
