//! What the transaction pays to an address.

ghost use Rattle.std.specs.Prelude.{◌≡◌, ◌≤◌, length, map};
ghost use Rattle.mp_bundle.specs.Token.{token};
ghost use Rattle.mp_script.specs.View.{paid_to_of};
ghost use Rattle.mp_script.specs.Value.{value_of};
ghost use Rattle.mp_script.specs.Meaning.{paid_by, paid_to, paid_quantity};

use super::token::{hash_of, token_of};
use crate::value::Value;
use crate::view::{Address, PaidTo};
use mp_bundle::PolicyId;

// The quantity of a token in the output, or 0 if it has another address.
fn paid_by(output: &PaidTo, address: &Address, policy: &PolicyId, name: &[u8]) -> i64
    ensures { result ≡ paid_by (paid_to_of output.now) address.now (token policy.now name.now) }
{
    if output.address == address {
        output.value.quantity(policy, name)
    } else {
        0
    }
}

fn total(outputs: &[PaidTo], address: &Address, policy: &PolicyId, name: &[u8]) -> i128
    requires { length outputs.now ≤ 256 }
    ensures { result ≡
        paid_to address.now (token policy.now name.now) (map paid_to_of outputs.now) }
{
    let mut total = 0;
    for output in outputs {
        total += paid_by(output, address, policy, name) as i128;
    }
    total
}

/// The quantity of a token in all outputs with an address.
pub fn paid<'a>(
    address: &Value<'a>,
    policy: &Value<'a>,
    name: &Value<'a>,
    outputs: &[PaidTo],
) -> Value<'a>
    requires { length outputs.now ≤ 256 }
    ensures { value_of result ≡
        paid_quantity (map paid_to_of outputs.now) (value_of address.now) (value_of policy.now)
        (value_of name.now) }
{
    match (hash_of(address), token_of(policy, name)) {
        (Some(address), Some((policy, name))) => {
            Value::Whole(total(outputs, address, policy, name))
        }
        _ => Value::Nothing,
    }
}
