//! The answer to a bad line.

ghost use Rattle.std.specs.Prelude.{◌≡◌, ◌⊎◌};
ghost use Rattle.mp_serve.specs.Inside.Answer.{text_of};
ghost use Rattle.mp_serve.specs.Served.{IsBadLine};
ghost use Rattle.mp_serve.specs.Texts.{no_memory_text};

use mp_memory::Memory;
use mp_names::Reason;
use mp_serve::{Answer, bad_line};

/// The answer to the bad line with this number.
pub fn answer_bad(memory: Memory, number: u64, reason: Reason<'_>) -> Answer
    ensures { IsBadLine number (text_of result) ⊎ (text_of result ≡ no_memory_text) }
{
    match bad_line(memory, number, reason) {
        Ok(text) => Answer::Line(text),
        Err(_) => Answer::NoMemory,
    }
}
