//! Whole numbers of up to 128 bits.

ghost use Rattle.std.specs.Prelude.{◌≡◌, ◌+ℤ◌, ◌-ℤ◌, ◌*ℤ◌, int_lt, int_le};
ghost use Rattle.mp_script.specs.Value.{value_of, truth, whole};
ghost use Rattle.mp_script.specs.Meaning.{on, on_wholes, number, wholes_in};

use crate::value::Value;

fn wholes(a: &Value, b: &Value) -> Option<(i128, i128)>
    ensures { result ≡ wholes_in (value_of a.now) (value_of b.now) }
{
    match (a, b) {
        (Value::Whole(a), Value::Whole(b)) => Some((*a, *b)),
        _ => None,
    }
}

fn whole<'a>(number: Option<i128>) -> Value<'a>
    ensures { value_of result ≡ on number whole }
{
    match number {
        Some(number) => Value::Whole(number),
        None => Value::Nothing,
    }
}

/// Whether a < b.
pub fn less<'a>(a: &Value<'a>, b: &Value<'a>) -> Value<'a>
    ensures { value_of result ≡
        on_wholes (λ x y. truth (int_lt x y)) (value_of a.now) (value_of b.now) }
{
    match wholes(a, b) {
        Some((a, b)) => Value::Truth(a < b),
        None => Value::Nothing,
    }
}

/// Whether a <= b.
pub fn at_most<'a>(a: &Value<'a>, b: &Value<'a>) -> Value<'a>
    ensures { value_of result ≡
        on_wholes (λ x y. truth (int_le x y)) (value_of a.now) (value_of b.now) }
{
    match wholes(a, b) {
        Some((a, b)) => Value::Truth(a <= b),
        None => Value::Nothing,
    }
}

/// a + b.
pub fn sum<'a>(a: &Value<'a>, b: &Value<'a>) -> Value<'a>
    ensures { value_of result ≡
        on_wholes (λ x y. number (x +ℤ y)) (value_of a.now) (value_of b.now) }
{
    match wholes(a, b) {
        Some((a, b)) => whole(a.checked_add(b)),
        None => Value::Nothing,
    }
}

/// a - b.
pub fn difference<'a>(a: &Value<'a>, b: &Value<'a>) -> Value<'a>
    ensures { value_of result ≡
        on_wholes (λ x y. number (x -ℤ y)) (value_of a.now) (value_of b.now) }
{
    match wholes(a, b) {
        Some((a, b)) => whole(a.checked_sub(b)),
        None => Value::Nothing,
    }
}

/// a * b.
pub fn product<'a>(a: &Value<'a>, b: &Value<'a>) -> Value<'a>
    ensures { value_of result ≡
        on_wholes (λ x y. number (x *ℤ y)) (value_of a.now) (value_of b.now) }
{
    match wholes(a, b) {
        Some((a, b)) => whole(a.checked_mul(b)),
        None => Value::Nothing,
    }
}
