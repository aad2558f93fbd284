//! The outputs that reference inputs name (CIP-31).

ghost use Rattle.std.specs.Prelude.{◌≡◌, map};
ghost use Rattle.std.specs.Option.{option_map};
ghost use Rattle.mp_script.specs.View.{referred_of};
ghost use Rattle.mp_script.specs.Value.{value_of, octets};
ghost use Rattle.mp_script.specs.Meaning.{on, reference_at, ref_quantity};

use super::token::bundle_quantity;
use crate::value::Value;
use crate::view::{Address, Referred};
use mp_bytes::Hash;

fn referred<'s, 'a>(at: &Value<'a>, references: &'s [Referred<'a>]) -> Option<&'s Referred<'a>>
    ensures { option_map (λ r. referred_of r.now) result ≡
        reference_at (map referred_of references.now) (value_of at.now) }
{
    match *at {
        Value::Whole(number) => references.get(usize::try_from(number).ok()?),
        _ => None,
    }
}

/// The address of the output that a reference input names.
pub fn address<'a>(at: &Value<'a>, references: &[Referred<'a>]) -> Value<'a>
    ensures { value_of result ≡
        on (reference_at (map referred_of references.now) (value_of at.now))
        (λ r. octets r.address) }
{
    match referred(at, references) {
        Some(output) => {
            let address: &'a Address = output.address;
            Value::Octets(address)
        }
        None => Value::Nothing,
    }
}

/// The datum hash of that output.
pub fn datum_hash<'a>(at: &Value<'a>, references: &[Referred<'a>]) -> Value<'a>
    ensures { value_of result ≡
        on (reference_at (map referred_of references.now) (value_of at.now))
        (λ r. octets r.datum_hash) }
{
    match referred(at, references) {
        Some(output) => {
            let datum_hash: &'a Hash = output.datum_hash;
            Value::Octets(datum_hash)
        }
        None => Value::Nothing,
    }
}

/// The quantity of a token in that output.
pub fn quantity<'a>(
    at: &Value<'a>,
    policy: &Value<'a>,
    name: &Value<'a>,
    references: &[Referred<'a>],
) -> Value<'a>
    ensures { value_of result ≡
        ref_quantity (map referred_of references.now) (value_of at.now) (value_of policy.now)
        (value_of name.now) }
{
    match referred(at, references) {
        Some(output) => bundle_quantity(policy, name, output.value),
        None => Value::Nothing,
    }
}
