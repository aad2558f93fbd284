//! The numbers that words denote.

ghost use Rattle.std.specs.Prelude.{◌≡◌, ◌+◌, ◌-◌, ◌*◌, ◌^◌, true, All};
ghost use Rattle.std.specs.Char.{IsAsciiDigit, is_ascii_digit};
ghost use Rattle.std.specs.List.{list_all};
ghost use Rattle.mp_text.specs.Numbers.{are_digits, value_of_digits, if_below, number_of, quantity_of};

// The most digits of a number and of a quantity. Leading zeros count.
const MAX_DIGITS: usize = 20;

const MAX_QUANTITY_DIGITS: usize = 19;

const MAX_QUANTITY: u64 = (1 << 63) - 1;

fn are_all_digits(word: &[u8]) -> bool
    ensures { result ≡ list_all is_ascii_digit word.now }
{
    word.iter().all(|byte| byte.is_ascii_digit())
}

fn are_digits(word: &[u8], most: usize) -> bool
    ensures test { result ≡ are_digits most word.now }
    ensures digits { result ≡ true → All IsAsciiDigit word.now }
{
    !word.is_empty() && word.len() <= most && are_all_digits(word)
}

// The number with the digits of `number` and one more.
fn with_digit(number: u64, digit: u8) -> Option<u64>
    requires { IsAsciiDigit digit }
    ensures { result ≡ if_below (2 ^ 64) (number * 10 + (digit - 48)) }
{
    number.checked_mul(10)?.checked_add((digit - b'0') as u64)
}

fn value(digits: &[u8]) -> Option<u64>
    requires { All IsAsciiDigit digits.now }
    ensures { result ≡ if_below (2 ^ 64) (value_of_digits digits.now) }
{
    let mut number = 0;
    for &digit in digits {
        number = with_digit(number, digit)?;
    }
    Some(number)
}

/// The number that a word denotes: 1 to 20 decimal digits, at most 2^64 - 1. Leading zeros are allowed.
pub fn number(word: &[u8]) -> Option<u64>
    ensures { result ≡ number_of word.now }
{
    if !are_digits(word, MAX_DIGITS) {
        return None;
    }
    value(word)
}

/// The quantity that a word denotes: 1 to 19 decimal digits, from 1 to 2^63 - 1. Leading zeros are allowed.
pub fn quantity(word: &[u8]) -> Option<u64>
    ensures { result ≡ quantity_of word.now }
{
    if !are_digits(word, MAX_QUANTITY_DIGITS) {
        return None;
    }
    let quantity = value(word)?;
    if 0 < quantity && quantity <= MAX_QUANTITY {
        Some(quantity)
    } else {
        None
    }
}
