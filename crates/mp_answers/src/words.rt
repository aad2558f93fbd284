//! Words and numbers in a line.

ghost use Rattle.std.specs.Prelude.{◌≡◌, ◌++◌, OnOk};
ghost use Rattle.mp_answers.specs.AnswerText.{number_text};

use itoa::Buffer;
use mp_memory::NoMemory;
use mp_text::Text;

/// Appends a space and the number.
pub fn put_number(text: &mut Text, number: u64) -> Result<(), NoMemory>
    ensures { OnOk result (text.new.items ≡ text.old.items ++ number_text number) }
{
    text.push(b' ')?;
    let mut digits = Buffer::new();
    text.extend_from_slice(digits.format(number).as_bytes())?;
    Ok(())
}

/// Appends the word.
pub fn put_word(text: &mut Text, word: &[u8]) -> Result<(), NoMemory>
    ensures { OnOk result (text.new.items ≡ text.old.items ++ word.now) }
{
    text.extend_from_slice(word)?;
    Ok(())
}
