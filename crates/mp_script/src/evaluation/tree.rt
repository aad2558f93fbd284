//! Access to data.

ghost use Rattle.std.specs.Prelude.{◌≡◌, pos};
ghost use Rattle.std.specs.Option.{option_map, option_and_then};
ghost use Rattle.mp_script.specs.Datum.{number_in, octets_in, length_in};
ghost use Rattle.mp_script.specs.DataReading.{tree_of};
ghost use Rattle.mp_script.specs.Value.{value_of, whole, octets, tree};
ghost use Rattle.mp_script.specs.Meaning.{on, datum_in, place_in, list_item};

use crate::datum_ref::DatumRef;
use crate::value::Value;

fn place(value: &Value) -> Option<u64>
    ensures { result ≡ place_in (value_of value.now) }
{
    match *value {
        Value::Whole(number) => u64::try_from(number).ok(),
        _ => None,
    }
}

fn number_of(value: &Value) -> Option<i64>
    ensures { result ≡ option_and_then number_in (datum_in (value_of value.now)) }
{
    match value {
        Value::Tree(part) => part.number(),
        _ => None,
    }
}

fn octets_of<'a>(value: &Value<'a>) -> Option<&'a [u8]>
    ensures { option_map (λ b. b.now) result ≡
        option_and_then octets_in (datum_in (value_of value.now)) }
{
    match value {
        Value::Tree(part) => part.octets(),
        _ => None,
    }
}

fn length_of(value: &Value) -> Option<u16>
    ensures { result ≡ option_and_then length_in (datum_in (value_of value.now)) }
{
    match value {
        Value::Tree(part) => part.length(),
        _ => None,
    }
}

fn item_of<'a>(list: &Value<'a>, at: &Value<'a>) -> Option<DatumRef<'a>>
    ensures { option_map tree_of result ≡ list_item (value_of list.now) (value_of at.now) }
{
    match (list, place(at)) {
        (Value::Tree(part), Some(place)) => part.item(place),
        _ => None,
    }
}

/// The number, if the datum is one.
pub fn as_int<'a>(datum: &Value<'a>) -> Value<'a>
    ensures { value_of result ≡
        on (option_and_then number_in (datum_in (value_of datum.now))) whole }
{
    match number_of(datum) {
        Some(number) => Value::Whole(number as i128),
        None => Value::Nothing,
    }
}

/// The bytes, if the datum is bytes.
pub fn as_bytes<'a>(datum: &Value<'a>) -> Value<'a>
    ensures { value_of result ≡
        on (option_and_then octets_in (datum_in (value_of datum.now))) octets }
{
    match octets_of(datum) {
        Some(octets) => Value::Octets(octets),
        None => Value::Nothing,
    }
}

/// The number of items, if the datum is a list.
pub fn length<'a>(datum: &Value<'a>) -> Value<'a>
    ensures { value_of result ≡
        on (option_and_then length_in (datum_in (value_of datum.now))) (λ n. whole (pos n)) }
{
    match length_of(datum) {
        Some(length) => Value::Whole(length as i128),
        None => Value::Nothing,
    }
}

/// The item of a list at an index, from 0.
pub fn item<'a>(datum: &Value<'a>, at: &Value<'a>) -> Value<'a>
    ensures { value_of result ≡ on (list_item (value_of datum.now) (value_of at.now)) tree }
{
    match item_of(datum, at) {
        Some(item) => Value::Tree(item),
        None => Value::Nothing,
    }
}
