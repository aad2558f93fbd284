//! The text of a report.

ghost use Rattle.std.specs.Prelude.{◌≡◌, ◌++◌, OnOk, IfOk, codes};
ghost use Rattle.mp_answers.specs.AnswerText.{number_text};
ghost use Rattle.mp_race.specs.ReportText.{and_then, report_text, changes_text, numbers_text};

use crate::report::Report;
use mp_answers::{put_number, put_word};
use mp_memory::{Memory, NoMemory};
use mp_text::Text;

// The word and the number.
fn put_counted(text: &mut Text, word: &[u8], number: u64) -> Result<(), NoMemory>
    ensures { OnOk result (text.new.items ≡ and_then text.old.items word.now number) }
{
    put_word(text, word)?;
    put_number(text, number)
}

// The numbers of changes by outcome.
fn changes_text(memory: Memory, report: &Report) -> Result<Text, NoMemory>
    ensures { IfOk result (λ text. text.items ≡ changes_text report.now) }
{
    let mut text = Vec::new(memory);
    put_counted(&mut text, b"race", u64::from(report.workers))?;
    put_counted(&mut text, b" accepted", report.accepted)?;
    put_counted(&mut text, b" refused", report.refused)?;
    Ok(text)
}

// The numbers of the commands.
fn numbers_text(memory: Memory, report: &Report) -> Result<Text, NoMemory>
    ensures { IfOk result (λ text. text.items ≡ numbers_text report.now) }
{
    let mut text = changes_text(memory, report)?;
    put_counted(&mut text, b" removes", report.removes)?;
    put_counted(&mut text, b" syncs", report.syncs)?;
    put_counted(&mut text, b" reads", report.reads)?;
    Ok(text)
}

/// A line of numbers, and the line that the audit found the history legal.
pub fn report_text(memory: Memory, report: &Report) -> Result<Text, NoMemory>
    ensures { IfOk result (λ text. text.items ≡ report_text report.now) }
{
    let mut text = numbers_text(memory, report)?;
    put_counted(&mut text, b" entries", report.entries)?;
    put_counted(&mut text, b" last", report.last)?;
    put_word(&mut text, b"\naudit legal\n")?;
    Ok(text)
}
