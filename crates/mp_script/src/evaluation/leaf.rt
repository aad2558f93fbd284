//! The operators without operands.

ghost use Rattle.std.specs.Prelude.{◌≡◌};
ghost use Rattle.std.specs.Option.{option_map};
ghost use Rattle.mp_script.specs.DataReading.{tree_of};
ghost use Rattle.mp_script.specs.View.{view_of};
ghost use Rattle.mp_script.specs.Value.{value_of, tree};
ghost use Rattle.mp_script.specs.Meaning.{on, of_leaf};

use crate::data::Data;
use crate::operator::Leaf;
use crate::value::Value;
use crate::view::View;
use mp_bytes::Hash;

fn tree(datum: Option<&Data>) -> Value<'_>
    ensures { value_of result ≡ on (option_map (λ d. tree_of d.now) datum.entry) tree }
{
    match datum {
        Some(datum) => Value::Tree(datum.whole()),
        None => Value::Nothing,
    }
}

/// The value of an operator without operands.
pub fn value<'a>(leaf: Leaf, view: &View<'a>) -> Value<'a>
    ensures { value_of result ≡ of_leaf leaf (view_of view.now) }
{
    match leaf {
        Leaf::False => Value::Truth(false),
        Leaf::True => Value::Truth(true),
        Leaf::Datum => tree(view.datum),
        Leaf::Redeemer => tree(view.redeemer),
        Leaf::OwnHash => {
            let own_hash: &'a Hash = view.own_hash;
            Value::Octets(own_hash)
        }
        Leaf::From => Value::Whole(view.from as i128),
        Leaf::To => Value::Whole(view.to as i128),
        Leaf::OutputCount => Value::Whole(view.outputs.len() as i128),
        Leaf::RefCount => Value::Whole(view.references.len() as i128),
    }
}
