//! Evaluation of scripts.

mod leaf;
mod logic;
mod number;
mod paid;
mod reference;
mod signature;
mod token;
mod tree;

ghost use Rattle.std.specs.Prelude.{◌≡◌, ◌<◌, ◌≤◌, ◌∷◌, Some, length, map};
ghost use Rattle.mp_script.specs.Operators.{operator_of};
ghost use Rattle.mp_script.specs.Script.{Tree, Spells};
ghost use Rattle.mp_script.specs.View.{view_of};
ghost use Rattle.mp_script.specs.Value.{value_of};
ghost use Rattle.mp_script.specs.Meaning.{of_one, of_two, of_three, value};
ghost use Rattle.mp_script.specs.Inside.Waiting.{arity, acts};

use crate::operator::{Binary, Operator, Ternary, Unary, operator_at};
use crate::script::Script;
use crate::stack::Stack;
use crate::value::Value;
use crate::view::View;

// No script has more operands on the stack: at each of 64 depths, at most two precede a third.
const MAX_WAITING: usize = 128;

type Values<'a> = Stack<Value<'a>, MAX_WAITING>;

fn of_one<'a>(operator: Unary, a: &Value<'a>, view: &View<'a>) -> Value<'a>
    ensures { value_of result ≡ of_one operator (view_of view.now) (value_of a.now) }
{
    match operator {
        Unary::Not => logic::not(a),
        Unary::AsInt => tree::as_int(a),
        Unary::AsBytes => tree::as_bytes(a),
        Unary::Length => tree::length(a),
        Unary::SignedBy => signature::signed_by(a, view.keys),
        Unary::RefAddress => reference::address(a, view.references),
        Unary::RefDatumHash => reference::datum_hash(a, view.references),
    }
}

fn of_two<'a>(operator: Binary, a: &Value<'a>, b: &Value<'a>, view: &View<'a>) -> Value<'a>
    ensures { value_of result ≡
        of_two operator (view_of view.now) (value_of a.now) (value_of b.now) }
{
    match operator {
        Binary::And => logic::and(a, b),
        Binary::Or => logic::or(a, b),
        Binary::Eq => logic::equal(a, b),
        Binary::Less => number::less(a, b),
        Binary::AtMost => number::at_most(a, b),
        Binary::Add => number::sum(a, b),
        Binary::Sub => number::difference(a, b),
        Binary::Mul => number::product(a, b),
        Binary::Item => tree::item(a, b),
        Binary::OwnQuantity => token::own(a, b, view.own_value),
        Binary::Spent => token::spent(a, b, view.spent),
        Binary::Forged => token::bundle_quantity(a, b, view.forge),
    }
}

fn of_three<'a>(
    operator: Ternary,
    a: Value<'a>,
    b: Value<'a>,
    c: Value<'a>,
    view: &View<'a>,
) -> Value<'a>
    requires { length view.now.outputs.now ≤ 256 }
    ensures { value_of result ≡
        of_three operator (view_of view.now) (value_of a.entry) (value_of b.entry)
        (value_of c.entry) }
{
    match operator {
        Ternary::If => logic::choice(a, b, c),
        Ternary::Paid => paid::paid(&a, &b, &c, view.outputs),
        Ternary::RefQuantity => reference::quantity(&a, &b, &c, view.references),
    }
}

fn operand<'a>(stack: &mut Values<'a>) -> Value<'a>
    requires { 0 < length stack.old }
    ensures { stack.old ≡ result ∷ stack.new }
{
    let Some(value) = stack.pop() else {
        unreachable!()
    };
    value
}

// Replaces the operands by the operator's value.
fn act<'a>(stack: &mut Values<'a>, operator: Operator<'a>, view: &View<'a>)
    requires operands { arity (operator_of operator) ≤ length stack.old }
    requires room { length stack.old < 128 }
    requires outputs { length view.now.outputs.now ≤ 256 }
    ensures { acts (view_of view.now) (operator_of operator.entry) (map value_of stack.old) ≡
        Some (map value_of stack.new) }
{
    let value = match operator {
        Operator::Int(number) => Value::Whole(number as i128),
        Operator::Bytes(bytes) => Value::Octets(bytes),
        Operator::Leaf(operator) => leaf::value(operator, view),
        Operator::Unary(operator) => {
            let a = operand(stack);
            of_one(operator, &a, view)
        }
        Operator::Binary(operator) => {
            let b = operand(stack);
            let a = operand(stack);
            of_two(operator, &a, &b, view)
        }
        Operator::Ternary(operator) => {
            let c = operand(stack);
            let b = operand(stack);
            let a = operand(stack);
            of_three(operator, a, b, c, view)
        }
    };
    stack.push(value);
}

/// The value of a script in a view. It takes no memory, and passes once over the operators.
pub fn eval<'a>(script: &'a Script, view: &View<'a>) -> Value<'a>
    requires { length view.now.outputs.now ≤ 256 }
    ensures { (tree : Tree) → Spells script.now tree → value_of result ≡
        value (view_of view.now) tree }
{
    let mut stack = Stack::new();
    let mut rest = script.bytes();
    while let Ok((operator, after)) = operator_at(rest) {
        act(&mut stack, operator, view);
        rest = after;
    }
    operand(&mut stack)
}
