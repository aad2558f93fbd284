//! Truth values, choice and equality.

ghost use Rattle.std.specs.Prelude.{◌≡◌};
ghost use Rattle.mp_script.specs.DataReading.{tree_of};
ghost use Rattle.mp_script.specs.Value.{value_of};
ghost use Rattle.mp_script.specs.Meaning.{truth_in, negation, conjunction, disjunction, choice, same_datum, equality};

use crate::datum_ref::DatumRef;
use crate::value::Value;

fn truth(value: &Value) -> Option<bool>
    ensures { result ≡ truth_in (value_of value.now) }
{
    match *value {
        Value::Truth(truth) => Some(truth),
        _ => None,
    }
}

/// The negation of a truth value.
pub fn not<'a>(a: &Value<'a>) -> Value<'a>
    ensures { value_of result ≡ negation (value_of a.now) }
{
    match *a {
        Value::Truth(truth) => Value::Truth(!truth),
        _ => Value::Nothing,
    }
}

/// Kleene's conjunction: false if either is false, true if both are true.
pub fn and<'a>(a: &Value<'a>, b: &Value<'a>) -> Value<'a>
    ensures { value_of result ≡
        conjunction (truth_in (value_of a.now)) (truth_in (value_of b.now)) }
{
    match (truth(a), truth(b)) {
        (Some(false), _) | (_, Some(false)) => Value::Truth(false),
        (Some(true), Some(true)) => Value::Truth(true),
        _ => Value::Nothing,
    }
}

/// Kleene's disjunction: true if either is true, false if both are false.
pub fn or<'a>(a: &Value<'a>, b: &Value<'a>) -> Value<'a>
    ensures { value_of result ≡
        disjunction (truth_in (value_of a.now)) (truth_in (value_of b.now)) }
{
    match (truth(a), truth(b)) {
        (Some(true), _) | (_, Some(true)) => Value::Truth(true),
        (Some(false), Some(false)) => Value::Truth(false),
        _ => Value::Nothing,
    }
}

/// The second if the first is true, the third if it is false. The one that isn't chosen may be anything.
pub fn choice<'a>(condition: Value<'a>, a: Value<'a>, b: Value<'a>) -> Value<'a>
    ensures { value_of result ≡
        choice (truth_in (value_of condition.entry)) (value_of a.entry) (value_of b.entry) }
{
    match condition {
        Value::Truth(true) => a,
        Value::Truth(false) => b,
        _ => Value::Nothing,
    }
}

fn same(a: &DatumRef, b: &DatumRef) -> bool
    ensures { result ≡ same_datum (tree_of a.now) (tree_of b.now) }
{
    a.bytes() == b.bytes()
}

/// Whether two values of the same kind are equal.
pub fn equal<'a>(a: &Value<'a>, b: &Value<'a>) -> Value<'a>
    ensures { value_of result ≡ equality (value_of a.now) (value_of b.now) }
{
    match (a, b) {
        (Value::Truth(a), Value::Truth(b)) => Value::Truth(*a == *b),
        (Value::Whole(a), Value::Whole(b)) => Value::Truth(*a == *b),
        (Value::Octets(a), Value::Octets(b)) => Value::Truth(*a == *b),
        (Value::Tree(a), Value::Tree(b)) => Value::Truth(same(a, b)),
        _ => Value::Nothing,
    }
}
