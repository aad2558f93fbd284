//! Words that are names.

ghost use Rattle.std.specs.Prelude.{◌≡◌, ◌↔◌, IsTrue};
ghost use Rattle.std.specs.List.{list_all};
ghost use Rattle.mp_text.specs.Names.{IsName, is_name, is_letter_or_digit};

const MAX_NAME_BYTES: usize = 16;

fn is_letter_or_digit(byte: u8) -> bool
    ensures { result ≡ is_letter_or_digit byte }
{
    byte.is_ascii_lowercase() || byte.is_ascii_digit()
}

/// Whether all of the bytes are lower-case letters or digits.
pub fn are_letters_or_digits(bytes: &[u8]) -> bool
    ensures { result ≡ list_all is_letter_or_digit bytes.now }
{
    bytes.iter().all(|&byte| is_letter_or_digit(byte))
}

/// Whether a word is a name: a lower-case letter, then up to 15 lower-case letters or digits.
pub fn is_name(word: &[u8]) -> bool
    ensures test { result ≡ is_name word.now }
    ensures name { IsTrue result ↔ IsName word.now }
{
    match word {
        [first, others @ ..] => {
            first.is_ascii_lowercase()
                && word.len() <= MAX_NAME_BYTES
                && are_letters_or_digits(others)
        }
        [] => false,
    }
}
