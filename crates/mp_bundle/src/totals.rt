//! Totals by token. Readers can't distinguish a total of zero from no total.

ghost use Rattle.std.specs.Prelude.{◌≡◌, ◌-◌, ◌^◌, ◌+ℤ◌, IsTrue, IsSome, OnOk, option_copied, if◌then◌else◌, pos};
ghost use Rattle.std.specs.FinMap.{is_sorted};
ghost use Rattle.std.specs.Ordering.{eq_by_cmp, is_lt};
ghost use Rattle.std.specs.BTreeMap.{ContainsKey};
ghost use Rattle.mp_bundle.specs.declared.token.Token.{Token};
ghost use Rattle.mp_bundle.specs.Token.{token_cmp};
ghost use Rattle.mp_bundle.specs.Bundle.{IsWithin, quantity_of};
ghost use Rattle.mp_bundle.specs.Inside.Totals.{HasRoom, HasSpan, KeepsRoom, KeepsTotals, RaisesAt, RaisesAll, first_unlike, lesser};

use crate::entry::TokenEntry;
use crate::token::Token;
use mp_memory::{Memory, NoMemory};
use std::collections::BTreeMap;

/// A total for each token that was added, including totals of zero.
pub type Totals = BTreeMap<Token, i128, Memory>;

/// The total of a token, or 0 if there is none.
pub fn total_at(totals: &Totals, token: &Token) -> i128
    ensures { result ≡ quantity_of totals.now.entries token.now }
{
    totals.get(token).copied().unwrap_or(0)
}

fn make_room_for(totals: &mut Totals, token: &Token) -> Result<(), NoMemory>
    ensures kept { KeepsTotals totals.old totals.new }
    ensures room { OnOk result (ContainsKey token_cmp totals.new token.now) }
{
    if !totals.contains_key(token) {
        totals.insert(*token, 0)?;
    }
    Ok(())
}

/// Makes a total of zero for each token that has none. Only this step takes memory.
pub fn make_room(totals: &mut Totals, entries: &[TokenEntry]) -> Result<(), NoMemory>
    ensures kept { KeepsTotals totals.old totals.new }
    ensures room { OnOk result (HasRoom totals.new entries.now) }
{
    for (token, _quantity) in entries {
        make_room_for(totals, token)?;
    }
    Ok(())
}

// Adds to the total of a token that has one.
fn raise(totals: &mut Totals, token: &Token, by: i64)
    requires room { ContainsKey token_cmp totals.old token.now }
    requires fits { IsWithin (2 ^ 127 - 1) (quantity_of totals.old.entries token.now +ℤ by) }
    ensures raised { RaisesAt totals.old token.now by totals.new }
    ensures room { KeepsRoom totals.old totals.new }
{
    if let Some(total) = totals.get_mut(token) {
        *total += by as i128;
    }
}

/// Adds to the totals of tokens that have one.
pub fn raise_all(totals: &mut Totals, entries: &[TokenEntry])
    requires rising { IsTrue (is_sorted token_cmp entries.now) }
    requires room { HasRoom totals.old entries.now }
    requires fits { HasSpan totals.old entries.now }
    ensures { RaisesAll totals.old entries.now totals.new }
{
    for (token, quantity) in entries {
        raise(totals, token, *quantity);
    }
}

/// The first token whose total differs in the others.
pub fn first_unlike<'a>(totals: &'a Totals, others: &Totals) -> Option<&'a Token>
    ensures found { option_copied result ≡ first_unlike totals.now.entries others.now.entries }
    ensures rising { IsTrue (is_sorted token_cmp totals.now.entries) }
{
    for (token, total) in totals {
        if total_at(others, token) != *total {
            return Some(token);
        }
    }
    None
}

fn precedes(first: &Token, second: &Token) -> bool
    ensures { result ≡ is_lt (token_cmp first.now second.now) }
{
    first.cmp(second).is_lt()
}

/// The lesser of two tokens, either of which may be missing.
pub fn lesser<'a>(first: Option<&'a Token>, second: Option<&'a Token>) -> Option<&'a Token>
    ensures { option_copied result
        ≡ lesser (option_copied first.entry) (option_copied second.entry) }
{
    match (first, second) {
        (None, second) => second,
        (first, None) => first,
        (Some(first), Some(second)) => {
            if precedes(second, first) {
                Some(second)
            } else {
                Some(first)
            }
        }
    }
}
