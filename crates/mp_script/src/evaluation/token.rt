//! Quantities of tokens.

ghost use Rattle.std.specs.Prelude.{◌≡◌};
ghost use Rattle.std.specs.Option.{option_map};
ghost use Rattle.mp_bundle.specs.Token.{token};
ghost use Rattle.mp_bundle.specs.Sum.{total_of};
ghost use Rattle.mp_script.specs.Value.{value_of};
ghost use Rattle.mp_script.specs.Meaning.{on, hash_in, name_in, token_in, amount, bundle_quantity};

use crate::value::Value;
use mp_bundle::{Bundle, MAX_NAME_BYTES, PolicyId, Sum};
use mp_bytes::Hash;

/// The bytes of a value, if it is 32 bytes.
pub fn hash_of<'a>(value: &Value<'a>) -> Option<&'a Hash>
    ensures { option_map (λ b. b.now) result ≡ hash_in (value_of value.now) }
{
    match *value {
        Value::Octets(octets) => octets.as_array::<32>(),
        _ => None,
    }
}

fn name_of<'a>(value: &Value<'a>) -> Option<&'a [u8]>
    ensures { option_map (λ b. b.now) result ≡ name_in (value_of value.now) }
{
    match *value {
        Value::Octets(octets) if octets.len() <= MAX_NAME_BYTES => Some(octets),
        _ => None,
    }
}

/// The policy and the name, if the values are bytes: 32 for the policy, and at most 32 for the name.
pub fn token_of<'a>(policy: &Value<'a>, name: &Value<'a>) -> Option<(&'a PolicyId, &'a [u8])>
    ensures { option_map (λ t. token t.0.now t.1.now) result ≡
        token_in (value_of policy.now) (value_of name.now) }
{
    match (hash_of(policy), name_of(name)) {
        (Some(policy), Some(name)) => Some((policy, name)),
        _ => None,
    }
}

/// The quantity of a token in a bundle.
pub fn bundle_quantity<'a>(policy: &Value<'a>, name: &Value<'a>, bundle: &Bundle) -> Value<'a>
    ensures { value_of result ≡
        bundle_quantity bundle.now (value_of policy.now) (value_of name.now) }
{
    match token_of(policy, name) {
        Some((policy, name)) => Value::Whole(bundle.quantity(policy, name) as i128),
        None => Value::Nothing,
    }
}

/// The quantity of a token in the output that is being spent.
pub fn own<'a>(policy: &Value<'a>, name: &Value<'a>, own_value: Option<&Bundle>) -> Value<'a>
    ensures { value_of result ≡
        on own_value.entry
        (λ bundle. bundle_quantity bundle.now (value_of policy.now) (value_of name.now)) }
{
    match own_value {
        Some(bundle) => bundle_quantity(policy, name, bundle),
        None => Value::Nothing,
    }
}

/// The quantity of a token in all spent outputs.
pub fn spent<'a>(policy: &Value<'a>, name: &Value<'a>, sum: &Sum) -> Value<'a>
    ensures { value_of result ≡
        amount (token_in (value_of policy.now) (value_of name.now)) (total_of sum.now) }
{
    match token_of(policy, name) {
        Some((policy, name)) => Value::Whole(sum.total(policy, name)),
        None => Value::Nothing,
    }
}
