//! The rule of balance.

ghost use Rattle.std.specs.Prelude.{◌≡◌, ◌+◌, ◌≤◌, ◌^◌, ◌∷◌, length, IfOk, OnOk, IfNone, IfSome};
ghost use Rattle.mp_bundle.specs.Sum.{total_of, AddsAll, IsSumOf, AreAlike, IsFirstDifference};
ghost use Rattle.mp_rules.specs.declared.invalid.Invalid.TheVariants as rules;
ghost use Rattle.mp_rules.specs.Resolved.{values};
ghost use Rattle.mp_rules.specs.FirstFault.{unbalanced};

use crate::invalid::Invalid;
use crate::resolved::Resolved;
use mp_bundle::{Bundle, Sum, Token};
use mp_memory::{Memory, NoMemory};
use mp_tx::{Output, TokenName, Tx};

// Adds the bundles of outputs.
fn add_all(sum: &mut Sum, outputs: &[Output]) -> Result<(), NoMemory>
    requires { sum.old.added + length outputs.now ≤ 2 ^ 32 }
    ensures { OnOk result (AddsAll sum.old (values outputs.now) sum.new) }
{
    for output in outputs {
        sum.add(&output.value)?;
    }
    Ok(())
}

/// The sum of the bundles of outputs.
pub fn sum_of(memory: Memory, outputs: &[Output]) -> Result<Sum, NoMemory>
    requires { length outputs.now ≤ 256 }
    ensures { IfOk result (IsSumOf (values outputs.now)) }
{
    let mut sum = Sum::new(memory);
    add_all(&mut sum, outputs)?;
    Ok(sum)
}

// The sum of a bundle and the bundles of outputs.
fn sum_with(memory: Memory, bundle: &Bundle, outputs: &[Output]) -> Result<Sum, NoMemory>
    requires { length outputs.now ≤ 256 }
    ensures { IfOk result (IsSumOf (bundle.now ∷ values outputs.now)) }
{
    let mut sum = Sum::new(memory);
    sum.add(bundle)?;
    add_all(&mut sum, outputs)?;
    Ok(sum)
}

// The least token whose totals differ.
fn difference<'a>(taken: &'a Sum, paid: &'a Sum) -> Option<Token>
    ensures none { IfNone result (AreAlike taken.now paid.now) }
    ensures first { IfSome result (IsFirstDifference taken.now paid.now) }
{
    match taken.first_difference(paid) {
        Some(found) => {
            let policy = found.0;
            let name = TokenName::of(found.1);
            Some(Token { policy, name })
        }
        None => None,
    }
}

// The fault of the token, with its totals.
fn token_fault(taken: &Sum, paid: &Sum, token: &Token) -> Invalid
    ensures { result ≡ rules.Unbalanced token.now.policy token.now.name
        (total_of taken.now token.now) (total_of paid.now token.now) }
{
    let name = token.name;
    Invalid::Unbalanced {
        policy: token.policy,
        name,
        taken: taken.total(&token.policy, name.as_slice()),
        paid: paid.total(&token.policy, name.as_slice()),
    }
}

/// The fault of the least token for which the quantity forged and spent differs from the quantity paid.
#[tactic(auto, unfolding(crate::specs::FirstFault::unbalanced))]
pub fn unbalanced(memory: Memory, tx: &Tx, resolved: &Resolved) -> Result<Option<Invalid>, NoMemory>
    ensures { IfOk result (λ fault. fault ≡ unbalanced tx.now resolved.now) }
{
    let taken = sum_with(memory, tx.forge(), resolved.spent())?;
    let paid = sum_of(memory, tx.outputs())?;
    match difference(&taken, &paid) {
        Some(token) => Ok(Some(token_fault(&taken, &paid, &token))),
        None => Ok(None),
    }
}
