//! The rules of scripts.

ghost use Rattle.std.specs.Prelude.{◌≡◌, ◌↔◌, ◌≤◌, [], ◌∷◌, not, length, map, All, IfOk, IsTrue};
ghost use Rattle.std.specs.List.{position, zip};
ghost use Rattle.mp_script.specs.View.{view_of, paid_to_of, referred_of};
ghost use Rattle.mp_script.specs.Value.{value_of};
ghost use Rattle.mp_rules.specs.Scripts.{paid_to, referred, is_true, script_accepts, HasNothingToRun};
ghost use Rattle.mp_rules.specs.Checked.{script_refused};
ghost use Rattle.mp_rules.specs.Inside.ScriptContext.{IsContextOf, policy_context, validator_context};

use crate::balance::sum_of;
use crate::invalid::Invalid;
use crate::resolved::Resolved;
use crate::script_context::ScriptContext;
use mp_memory::{Memory, NoMemory};
use mp_script::{PaidTo, Referred, Value, View, eval};
use mp_tx::{Input, Key, Output, Script, Signature, Tx};

// The script of one operator, which always gives true.
const TRUE: [u8; 1] = [0x01];

fn keys_of(memory: Memory, signatures: &[Signature]) -> Result<Vec<Key, Memory>, NoMemory>
    ensures { IfOk result (λ keys. keys.items ≡ map (λ s. s.key) signatures.now) }
{
    let mut keys = Vec::with_capacity(memory, signatures.len())?;
    for signature in signatures {
        keys.push(signature.key)?;
    }
    Ok(keys)
}

fn paid_to<'a>(memory: Memory, outputs: &'a [Output]) -> Result<Vec<PaidTo<'a>, Memory>, NoMemory>
    ensures { IfOk result (λ seen. map paid_to_of seen.items ≡ map paid_to outputs.now) }
{
    let mut seen = Vec::with_capacity(memory, outputs.len())?;
    for output in outputs {
        seen.push(PaidTo {
            address: &output.address,
            value: &output.value,
        })?;
    }
    Ok(seen)
}

fn referred<'a>(
    memory: Memory,
    outputs: &'a [Output],
) -> Result<Vec<Referred<'a>, Memory>, NoMemory>
    ensures { IfOk result (λ seen. map referred_of seen.items ≡ map referred outputs.now) }
{
    let mut seen = Vec::with_capacity(memory, outputs.len())?;
    for output in outputs {
        seen.push(Referred {
            address: &output.address,
            datum_hash: &output.datum_hash,
            value: &output.value,
        })?;
    }
    Ok(seen)
}

fn context_of<'a>(
    memory: Memory,
    tx: &'a Tx,
    resolved: &'a Resolved,
) -> Result<ScriptContext<'a>, NoMemory>
    ensures { IfOk result (λ context. IsContextOf context tx.now resolved.now) }
{
    Ok(ScriptContext {
        from: tx.from(),
        to: tx.to(),
        keys: keys_of(memory, tx.signatures())?,
        spent: sum_of(memory, resolved.spent())?,
        forge: tx.forge(),
        outputs: paid_to(memory, tx.outputs())?,
        references: referred(memory, resolved.referenced())?,
    })
}

fn is_true(value: Value<'_>) -> bool
    ensures { result ≡ is_true (value_of value.entry) }
{
    match value {
        Value::Truth(truth) => truth,
        _ => false,
    }
}

// Whether a script's value is true.
fn accepts<'a>(script: &'a Script, view: &View<'a>) -> bool
    requires { length view.now.outputs.now ≤ 256 }
    ensures { result ≡ script_accepts (view_of view.now) script.now }
{
    let _ = script.bytes();
    let value = eval(script, view);
    is_true(value)
}

fn validator_accepts<'a>(
    context: &'a ScriptContext<'a>,
    input: &'a Input,
    output: &'a Output,
) -> bool
    ensures { result ≡
        script_accepts (validator_context context.now input.now output.now) input.now.validator }
{
    let view = View {
        own_hash: input.validator.hash(),
        datum: Some(&input.datum),
        redeemer: Some(&input.redeemer),
        own_value: Some(&output.value),
        from: context.from,
        to: context.to,
        keys: &context.keys,
        spent: &context.spent,
        forge: context.forge,
        outputs: &context.outputs,
        references: &context.references,
    };
    accepts(&input.validator, &view)
}

fn policy_accepts<'a>(context: &'a ScriptContext<'a>, script: &'a Script) -> bool
    ensures { result ≡ script_accepts (policy_context context.now script.now) script.now }
{
    let view = View {
        own_hash: script.hash(),
        datum: None,
        redeemer: None,
        own_value: None,
        from: context.from,
        to: context.to,
        keys: &context.keys,
        spent: &context.spent,
        forge: context.forge,
        outputs: &context.outputs,
        references: &context.references,
    };
    accepts(script, &view)
}

// The first input whose validator refuses.
fn refusing_input<'a>(
    context: &'a ScriptContext<'a>,
    inputs: &'a [Input],
    spent: &'a [Output],
) -> Option<usize>
    ensures { result ≡ position (λ p. not (script_accepts (validator_context context.now p.0 p.1)
        p.0.validator)) (zip inputs.now spent.now) }
{
    inputs.iter().zip(spent).position(|(input, output)| !validator_accepts(context, input, output))
}

// The first policy script that refuses.
fn refusing_policy<'a>(context: &'a ScriptContext<'a>, scripts: &'a [Script]) -> Option<usize>
    ensures { result ≡
        position (λ s. not (script_accepts (policy_context context.now s) s)) scripts.now }
{
    scripts
        .iter()
        .position(|script| !policy_accepts(context, script))
}

fn gives_true(script: &Script) -> bool
    ensures { IsTrue result ↔ (script.now ≡ 1 ∷ []) }
{
    script.bytes() == TRUE.as_slice()
}

fn validators_give_true(inputs: &[Input]) -> bool
    ensures { IsTrue result ↔ All (λ i. i.validator ≡ 1 ∷ []) inputs.now }
{
    inputs.iter().all(|input| gives_true(&input.validator))
}

fn policies_give_true(scripts: &[Script]) -> bool
    ensures { IsTrue result ↔ All (λ s. s ≡ 1 ∷ []) scripts.now }
{
    scripts.iter().all(|script| gives_true(script))
}

/// Whether the transaction has no signature to check and no script to run: each of its scripts is `01`, which always
/// gives true.
pub fn has_nothing_to_run(tx: &Tx) -> bool
    ensures { IsTrue result ↔ HasNothingToRun tx.now }
{
    tx.signatures().is_empty()
        && validators_give_true(tx.inputs())
        && policies_give_true(tx.scripts())
}

// The first script that refuses, after running each.
#[tactic(auto, unfolding(crate::specs::Checked::script_refused, crate::specs::FirstFault::validator_refused, crate::specs::FirstFault::policy_refused))]
fn refused_in_view(
    memory: Memory,
    tx: &Tx,
    resolved: &Resolved,
) -> Result<Option<Invalid>, NoMemory>
    ensures { IfOk result (λ fault. fault ≡ script_refused tx.now resolved.now) }
{
    let context = context_of(memory, tx, resolved)?;
    if let Some(place) = refusing_input(&context, tx.inputs(), resolved.spent()) {
        return Ok(Some(Invalid::ValidatorRefused(place)));
    }
    match refusing_policy(&context, tx.scripts()) {
        Some(place) => Ok(Some(Invalid::PolicyRefused(place))),
        None => Ok(None),
    }
}

/// The fault of the first validator that refuses, else of the first policy script that does.
pub fn script_refused(
    memory: Memory,
    tx: &Tx,
    resolved: &Resolved,
) -> Result<Option<Invalid>, NoMemory>
    ensures { IfOk result (λ fault. fault ≡ script_refused tx.now resolved.now) }
{
    if validators_give_true(tx.inputs()) && policies_give_true(tx.scripts()) {
        return Ok(None);
    }
    refused_in_view(memory, tx, resolved)
}
