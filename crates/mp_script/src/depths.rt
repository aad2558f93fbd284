//! Whether bytes are one expression, by the depths of its parts alone.

ghost use Rattle.std.specs.Prelude.{◌≡◌, ℕ, ◌+◌, ◌<◌, ◌≤◌, [], ◌∷◌, Ok, Err, length, IfOk, IfErr, OnOk};
ghost use Rattle.mp_script.specs.declared.fault.ScriptFault.TheVariants.{Underflow};
ghost use Rattle.mp_script.specs.Operators.{operator_of};
ghost use Rattle.mp_script.specs.ScriptReading.{reads};
ghost use Rattle.mp_script.specs.Inside.Depths.{deepest, put_depth};

use crate::fault::ScriptFault;
use crate::operator::{Operator, operator_at};
use crate::stack::Stack;

/// The greatest number of operators in a script.
pub const MAX_OPERATORS: usize = 1024;

/// The greatest depth of a script.
pub const MAX_DEPTH: u8 = 64;

type Depths = Stack<u8, MAX_OPERATORS>;

fn operand(depths: &mut Depths) -> Result<u8, ScriptFault>
    ensures ok { IfOk result (λ d. depths.old ≡ d ∷ depths.new) }
    ensures err { IfErr result (λ e. (e ≡ Underflow) × (depths.old ≡ [])) }
{
    depths.pop().ok_or(ScriptFault::Underflow)
}

// The depth of the deepest operand, or 0 if there is none. Removes the operands.
fn deepest_operand(depths: &mut Depths, operator: &Operator) -> Result<u8, ScriptFault>
    ensures ok { IfOk result (λ d. deepest (operator_of operator.now) depths.old ≡
        Ok (d, depths.new)) }
    ensures err { IfErr result (λ e. deepest (operator_of operator.now) depths.old ≡ Err e) }
{
    match operator {
        Operator::Int(_) | Operator::Bytes(_) | Operator::Leaf(_) => Ok(0),
        Operator::Unary(_) => operand(depths),
        Operator::Binary(_) => {
            let b = operand(depths)?;
            let a = operand(depths)?;
            Ok(a.max(b))
        }
        Operator::Ternary(_) => {
            let c = operand(depths)?;
            let b = operand(depths)?;
            let a = operand(depths)?;
            Ok(a.max(b.max(c)))
        }
    }
}

// Replaces the depths of the operands by the depth of the operator's expression.
fn build(depths: &mut Depths, operator: &Operator) -> Result<(), ScriptFault>
    requires { length depths.old < 1024 }
    ensures ok { OnOk result (put_depth (operator_of operator.now) depths.old ≡ Ok depths.new) }
    ensures err { IfErr result (λ e. put_depth (operator_of operator.now) depths.old ≡ Err e) }
    ensures few { OnOk result (length depths.new ≤ length depths.old + 1) }
{
    let deepest = deepest_operand(depths, operator)?;
    if deepest >= MAX_DEPTH {
        return Err(ScriptFault::TooDeep);
    }
    depths.push(deepest + 1);
    Ok(())
}

/// Whether the bytes are one expression, or the first fault from the left.
pub fn check_depths(bytes: &[u8]) -> Result<(), ScriptFault>
    ensures ok { OnOk result ((d : ℕ) × (reads put_depth 1024 [] bytes.now ≡ Ok d)) }
    ensures err { IfErr result (λ e. reads put_depth 1024 [] bytes.now ≡ Err e) }
{
    let mut depths = Stack::new();
    let mut room = MAX_OPERATORS;
    let mut rest = bytes;
    while !rest.is_empty() {
        let (operator, after) = operator_at(rest)?;
        if room == 0 {
            return Err(ScriptFault::TooLong);
        }
        build(&mut depths, &operator)?;
        room -= 1;
        rest = after;
    }
    if depths.len() == 1 {
        Ok(())
    } else {
        Err(ScriptFault::NotOneExpression)
    }
}
