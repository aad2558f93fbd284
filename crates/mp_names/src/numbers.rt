//! Numbers in their ranges.

ghost use Rattle.std.specs.Prelude.{◌≡◌, ◌≤◌, IfOk};
ghost use Rattle.std.specs.Result.{result_ok};
ghost use Rattle.mp_text.specs.Numbers.{number_of};
ghost use Rattle.mp_names.specs.Numbers.{number_in};

use crate::reason::Reason;
use mp_text::number;

/// The number that a word denotes.
pub fn any_number(word: &[u8]) -> Result<u64, Reason<'_>>
    ensures { result_ok result ≡ number_of word.now }
{
    match number(word) {
        Some(number) => Ok(number),
        None => Err(Reason::Number {
            word,
            least: 0,
            most: u64::MAX,
        }),
    }
}

/// The number that a word denotes, if it is in the range.
pub fn number_in(word: &[u8], least: u64, most: u64) -> Result<u64, Reason<'_>>
    ensures number { result_ok result ≡ number_in least most word.now }
    ensures least { IfOk result (λ n. least ≤ n) }
    ensures most { IfOk result (λ n. n ≤ most) }
{
    match number(word) {
        Some(number) if least <= number && number <= most => Ok(number),
        _ => Err(Reason::Number { word, least, most }),
    }
}
