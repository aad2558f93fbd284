//! The number of words after the first one of a line.

ghost use Rattle.std.specs.Prelude.{◌≡◌, option_copied, option_map};
ghost use Rattle.std.specs.Result.{result_ok};
ghost use Rattle.mp_text.specs.Words.{words_of};
ghost use Rattle.mp_lines.specs.Words.{no_word, one_word, two_words};

use mp_names::Reason;
use mp_text::first_word;

/// Checks that a line of this form has no word after its first.
pub fn no_word<'a>(form: &'static [u8], words: &'a [u8]) -> Result<(), Reason<'a>>
    ensures { result_ok result ≡ no_word (words_of words.now) }
{
    match first_word(words) {
        None => Ok(()),
        Some(_) => Err(Reason::ManyWords(form)),
    }
}

/// The one word of a line of this form.
pub fn one_word<'a>(form: &'static [u8], words: &'a [u8]) -> Result<&'a [u8], Reason<'a>>
    ensures { option_copied (result_ok result) ≡ one_word (words_of words.now) }
{
    let Some((first, rest)) = first_word(words) else {
        return Err(Reason::FewWords(form));
    };
    match first_word(rest) {
        None => Ok(first),
        Some(_) => Err(Reason::ManyWords(form)),
    }
}

/// The two words of a line of this form.
pub fn two_words<'a>(
    form: &'static [u8],
    words: &'a [u8],
) -> Result<(&'a [u8], &'a [u8]), Reason<'a>>
    ensures { option_map (λ p. (p.0.now, p.1.now)) (result_ok result)
        ≡ two_words (words_of words.now) }
{
    let Some((first, rest)) = first_word(words) else {
        return Err(Reason::FewWords(form));
    };
    let Some((second, rest)) = first_word(rest) else {
        return Err(Reason::FewWords(form));
    };
    match first_word(rest) {
        None => Ok((first, second)),
        Some(_) => Err(Reason::ManyWords(form)),
    }
}
