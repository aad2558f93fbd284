//! Ids of transactions, as words write them.

ghost use Rattle.std.specs.Prelude.{◌≡◌};
ghost use Rattle.std.specs.List.{list_all};
ghost use Rattle.std.specs.Result.{result_ok};
ghost use Rattle.mp_names.specs.Ids.{is_lower_digit, id_by, id_in, id_meant};

use crate::names::Names;
use crate::reason::Reason;
use mp_tx::TxId;

fn is_lower_digit(byte: u8) -> bool
    ensures { result ≡ is_lower_digit byte }
{
    (48 <= byte && byte <= 57) || (97 <= byte && byte <= 102)
}

fn are_lower_digits(digits: &[u8]) -> bool
    ensures { result ≡ list_all is_lower_digit digits.now }
{
    digits.iter().all(|&byte| is_lower_digit(byte))
}

fn id_by(digits: &[u8]) -> Option<TxId>
    ensures { result ≡ id_by digits.now }
{
    if !are_lower_digits(digits) {
        return None;
    }
    let mut id = [0; 32];
    match hex::decode_to_slice(digits, &mut id) {
        Ok(()) => Some(id),
        Err(_) => None,
    }
}

/// The id in a word `#ID`, which has 64 lower-case digits.
pub fn id_in(word: &[u8]) -> Option<TxId>
    ensures { result ≡ id_in word.now }
{
    match word.split_first() {
        Some((b'#', digits)) => id_by(digits),
        _ => None,
    }
}

/// The id that a word means: that in a word `#ID`, or that of the transaction that the word denotes.
pub fn id_meant<'a>(names: &Names, word: &'a [u8]) -> Result<TxId, Reason<'a>>
    ensures { result_ok result ≡ id_meant names.now word.now }
{
    if let Some(id) = id_in(word) {
        return Ok(id);
    }
    let declared = names.tx(word)?;
    Ok(*declared.tx().id())
}
