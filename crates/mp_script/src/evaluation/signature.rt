//! Signatures.

ghost use Rattle.std.specs.Prelude.{◌≡◌};
ghost use Rattle.mp_script.specs.Value.{value_of, truth};
ghost use Rattle.mp_script.specs.Meaning.{on, hash_in, has_signed};

use super::token::hash_of;
use crate::value::Value;
use crate::view::Key;

fn has_signed(keys: &[Key], wanted: &Key) -> bool
    ensures { result ≡ has_signed keys.now wanted.now }
{
    keys.iter().any(|key| key == wanted)
}

/// Whether this key has signed.
pub fn signed_by<'a>(key: &Value<'a>, keys: &[Key]) -> Value<'a>
    ensures { value_of result ≡
        on (hash_in (value_of key.now)) (λ key. truth (has_signed keys.now key)) }
{
    match hash_of(key) {
        Some(key) => Value::Truth(has_signed(keys, key)),
        None => Value::Nothing,
    }
}
