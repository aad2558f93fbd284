//! Rules on the transaction alone, at a tick.

ghost use Rattle.std.specs.Prelude.{◌≡◌, not, option_copied};
ghost use Rattle.std.specs.List.{position, find};
ghost use Rattle.mp_rules.specs.FirstFault.{is_negative, is_carried, forge_without_policy};
ghost use Rattle.mp_rules.specs.Inside.Groups.{own_fault};

use crate::invalid::Invalid;
use mp_bundle::{Bundle, COIN, TokenEntry};
use mp_tx::{Output, PolicyId, Script, Tx};

fn is_any_negative(entries: &[TokenEntry]) -> bool
    ensures { result ≡ is_negative entries.now }
{
    entries.iter().any(|entry| entry.1 < 0)
}

fn is_negative(bundle: &Bundle) -> bool
    ensures { result ≡ is_negative bundle.now }
{
    let others = bundle.others();
    bundle.coin() < 0 || is_any_negative(others)
}

fn place_of_debt(outputs: &[Output]) -> Option<usize>
    ensures { result ≡ position (λ o. is_negative o.value) outputs.now }
{
    outputs.iter().position(|output| is_negative(&output.value))
}

/// The first fault of the rules that need no map: no input, a tick outside of the interval, a negative quantity.
#[tactic(auto, unfolding(crate::specs::Inside::Groups::own_fault, crate::specs::FirstFault::no_inputs, crate::specs::FirstFault::outside_interval, crate::specs::FirstFault::negative_output))]
pub fn own_fault(tx: &Tx, tick: u64) -> Option<Invalid>
    ensures { result ≡ own_fault tick tx.now }
{
    if tx.inputs().is_empty() {
        return Some(Invalid::NoInputs);
    }
    if tick < tx.from() || tx.to() < tick {
        return Some(Invalid::OutsideInterval);
    }
    match place_of_debt(tx.outputs()) {
        Some(place) => Some(Invalid::NegativeOutput(place)),
        None => None,
    }
}

fn is_carried(scripts: &[Script], policy: &PolicyId) -> bool
    ensures { result ≡ is_carried scripts.now policy.now }
{
    scripts.iter().any(|script| *script.hash() == *policy)
}

fn uncarried<'a>(scripts: &[Script], forged: &'a [TokenEntry]) -> Option<&'a TokenEntry>
    ensures { option_copied result ≡
        find (λ e. not (is_carried scripts.now e.0.policy)) forged.now }
{
    forged
        .iter()
        .find(|entry| !is_carried(scripts, &entry.0.policy))
}

/// The fault of the least policy whose tokens are forged and whose script isn't carried.
#[tactic(auto, unfolding(crate::specs::FirstFault::forge_without_policy))]
pub fn forge_without_policy(tx: &Tx) -> Option<Invalid>
    ensures { result ≡ forge_without_policy tx.now }
{
    let forge = tx.forge();
    let others = forge.others();
    if forge.coin() != 0 && !is_carried(tx.scripts(), &COIN) {
        return Some(Invalid::ForgeWithoutPolicy(COIN));
    }
    match uncarried(tx.scripts(), others) {
        Some(entry) => Some(Invalid::ForgeWithoutPolicy(entry.0.policy)),
        None => None,
    }
}
