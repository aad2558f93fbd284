//! Whether a transaction is valid.

ghost use Rattle.std.specs.Prelude.{◌≡◌, None, IfSome, IfOk, OnOk, IfErr, IsTrue, is_none};
ghost use Rattle.mp_rules.specs.Resolved.{resolve};
ghost use Rattle.mp_rules.specs.Validity.{IsValid};
ghost use Rattle.mp_rules.specs.FirstFault.{first_fault, IsFaultOf};
ghost use Rattle.mp_rules.specs.Checked.{IsChecked, IsSigned, ScriptsAccept, WasValid, script_refused};
ghost use Rattle.mp_rules.specs.Inside.Groups.{payment_fault, fault_on_map, Passes};

use crate::balance::unbalanced;
use crate::checked::Checked;
use crate::invalid::Invalid;
use crate::map::{mismatch, output_taken, resolve};
use crate::own::{forge_without_policy, own_fault};
use crate::resolved::Resolved;
use crate::scripts::script_refused;
use crate::signatures::bad_signature;
use crate::unmoved::is_unmoved;
use crate::verifier::Verifier;
use mp_memory::{Memory, NoMemory};
use mp_tx::{Output, Tx};
use mp_utxo::Utxo;

// The rules on what it makes and pays.
#[tactic(auto, unfolding(crate::specs::Inside::Groups::payment_fault))]
fn payment_fault<U: Utxo>(
    memory: Memory,
    tx: &Tx,
    resolved: &Resolved,
    utxo: &U,
) -> Result<Option<Invalid>, NoMemory>
    ensures { IfOk result (λ fault. fault ≡ payment_fault (U.map utxo.now) tx.now resolved.now) }
{
    if let Some(fault) = output_taken(tx, utxo) {
        return Ok(Some(fault));
    }
    if let Some(fault) = forge_without_policy(tx) {
        return Ok(Some(fault));
    }
    unbalanced(memory, tx, resolved)
}

// All rules that need neither signatures nor scripts.
#[tactic(auto, unfolding(crate::specs::Inside::Groups::fault_on_map))]
fn check_on_map<U: Utxo>(memory: Memory, tx: &Tx, utxo: &U, tick: u64) -> Result<Resolved, Invalid>
    ensures { Passes (λ r. r ≡ resolve (U.map utxo.now) tx.now)
        (fault_on_map (U.map utxo.now) tick tx.now) result }
{
    if let Some(fault) = own_fault(tx, tick) {
        return Err(fault);
    }
    let resolved = resolve(memory, tx, utxo)?;
    if let Some(fault) = mismatch(tx, &resolved) {
        return Err(fault);
    }
    if let Some(fault) = payment_fault(memory, tx, &resolved, utxo)? {
        return Err(fault);
    }
    Ok(resolved)
}

/// Checks whether the transaction is valid on the outputs that can be spent, at a tick. If it is, returns the outputs
/// that it names.
///
/// # Errors
/// The first rule that fails, in the order of `rules` in `specs/Validity.antt`, at its least index. `NoMemory` may be
/// returned instead of any answer.
pub fn check<U: Utxo, V: Verifier>(
    memory: Memory,
    tx: &Tx,
    utxo: &U,
    tick: u64,
    verifier: &V,
) -> Result<Resolved, Invalid>
    ensures resolved { IfOk result (λ r. r ≡ resolve (U.map utxo.now) tx.now) }
    ensures valid { OnOk result (IsValid (V.accepts verifier.now) (U.map utxo.now) tick tx.now) }
    ensures clear { OnOk result
        (first_fault (V.accepts verifier.now) (U.map utxo.now) tick tx.now ≡ None) }
    ensures scripts { IfOk result (ScriptsAccept tx.now) }
    ensures was_valid { IfOk result (WasValid tx.now) }
    ensures fault { IfErr result
        (IsFaultOf (V.accepts verifier.now) (U.map utxo.now) tick tx.now) }
{
    let resolved = check_on_map(memory, tx, utxo, tick)?;
    if let Some(fault) = bad_signature(tx, verifier) {
        return Err(fault);
    }
    if let Some(fault) = script_refused(memory, tx, &resolved)? {
        return Err(fault);
    }
    Ok(resolved)
}

fn same_outputs<'a>(a: &'a [Output], b: &'a [Output]) -> bool
    ensures { IsTrue result → a.now ≡ b.now }
{
    if a.len() != b.len() {
        return false;
    }
    for place in 0..a.len() {
        if a[place] != b[place] {
            return false;
        }
    }
    true
}

fn is_same(resolved: &Resolved, before: &Resolved) -> bool
    ensures { IsTrue result → resolved.now ≡ before.now }
{
    same_outputs(resolved.spent(), before.spent())
        && same_outputs(resolved.referenced(), before.referenced())
}

// The first script that refuses, without running scripts again if the outputs are the same.
fn refused_again(
    memory: Memory,
    tx: &Tx,
    resolved: &Resolved,
    before: Option<&Resolved>,
    found: Option<Invalid>,
) -> Result<Option<Invalid>, NoMemory>
    requires { IfSome before (λ b. found ≡ script_refused tx.now b.now) }
    ensures { IfOk result (λ fault. fault ≡ script_refused tx.now resolved.now) }
{
    match before {
        Some(before) if is_same(resolved, before) => Ok(found),
        _ => script_refused(memory, tx, resolved),
    }
}

/// Whether the transaction is valid, as `check` decides, given earlier results for its signatures and scripts. All
/// other rules are checked again. Scripts run again only if the transaction names other outputs than before. The
/// verifier isn't called: the parameter names the verifier of these results.
///
/// # Errors
/// As `check`.
pub fn check_with<U: Utxo, V: Verifier>(
    memory: Memory,
    tx: &Tx,
    utxo: &U,
    tick: u64,
    checked: &Checked,
    _verifier: &V,
) -> Result<Resolved, Invalid>
    requires { IsChecked (V.accepts _verifier.now) tx.now checked.now }
    ensures resolved { IfOk result (λ r. r ≡ resolve (U.map utxo.now) tx.now) }
    ensures valid { OnOk result (IsValid (V.accepts _verifier.now) (U.map utxo.now) tick tx.now) }
    ensures clear { OnOk result
        (first_fault (V.accepts _verifier.now) (U.map utxo.now) tick tx.now ≡ None) }
    ensures scripts { IfOk result (ScriptsAccept tx.now) }
    ensures was_valid { IfOk result (WasValid tx.now) }
    ensures fault { IfErr result
        (IsFaultOf (V.accepts _verifier.now) (U.map utxo.now) tick tx.now) }
{
    let resolved = check_on_map(memory, tx, utxo, tick)?;
    if let Some(fault) = checked.signature() {
        return Err(fault);
    }
    if let Some(fault) = refused_again(
        memory,
        tx,
        &resolved,
        Some(checked.resolved()),
        checked.script(),
    )? {
        return Err(fault);
    }
    Ok(resolved)
}

// Whether a transaction with good signatures is valid, as `check` decides. Scripts run again only if it names other
// outputs than `before`, on which they accepted.
fn recheck<U: Utxo, V: Verifier>(
    memory: Memory,
    tx: &Tx,
    utxo: &U,
    tick: u64,
    before: Option<&Resolved>,
    _verifier: &V,
) -> Result<(), Invalid>
    requires signed { IsSigned (V.accepts _verifier.now) tx.now }
    requires accepted { IfSome before (λ b. ScriptsAccept tx.now b.now) }
    ensures clear { OnOk result
        (first_fault (V.accepts _verifier.now) (U.map utxo.now) tick tx.now ≡ None) }
    ensures fault { IfErr result
        (IsFaultOf (V.accepts _verifier.now) (U.map utxo.now) tick tx.now) }
{
    let resolved = check_on_map(memory, tx, utxo, tick)?;
    if let Some(fault) = refused_again(memory, tx, &resolved, before, None)? {
        return Err(fault);
    }
    Ok(())
}

/// Whether a transaction with good signatures is valid, as `check` decides. If it was valid when it named the outputs
/// `before`, and still names them, only the tick and its own outputs are checked. No other rule can fail then. Else all
/// rules except that of signatures are checked again, and scripts run again only if it names other outputs. The
/// verifier isn't called: the parameter names the verifier of these signatures.
///
/// # Errors
/// `NoMemory`.
pub fn stays_valid<U: Utxo, V: Verifier>(
    memory: Memory,
    tx: &Tx,
    utxo: &U,
    tick: u64,
    before: Option<&Resolved>,
    verifier: &V,
) -> Result<bool, NoMemory>
    requires signed { IsSigned (V.accepts verifier.now) tx.now }
    requires valid { IfSome before (λ b. WasValid tx.now b.now) }
    ensures { IfOk result (λ stays. stays ≡ is_none
        (first_fault (V.accepts verifier.now) (U.map utxo.now) tick tx.now)) }
{
    if let Some(before) = before {
        if is_unmoved(tx, before, utxo, tick) {
            return Ok(true);
        }
    }
    match recheck(memory, tx, utxo, tick, before, verifier) {
        Ok(()) => Ok(true),
        Err(Invalid::NoMemory) => Err(NoMemory),
        Err(_) => Ok(false),
    }
}
