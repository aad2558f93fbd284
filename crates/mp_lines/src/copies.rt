//! Copies of parts of transactions.

ghost use Rattle.std.specs.Prelude.{◌≡◌, [], ◌∷◌, ◌++◌, map, IfOk, OnOk};
ghost use Rattle.mp_names.specs.Payments.{output_of};

use mp_memory::{Memory, NoMemory};
use mp_names::Payment;
use mp_script::{Data, Script};
use mp_tx::{Input, OutRef, Output};

/// The input that spends the reference with this validator, datum and redeemer, which are shared.
pub fn make_input(
    from: OutRef,
    validator: &Script,
    datum: &Data,
    redeemer: &Data,
) -> Result<Input, NoMemory>
    ensures { IfOk result (λ i. i ≡ record {
      from = from;
      validator = validator.now;
      datum = datum.now;
      redeemer = redeemer.now;
    }) }
{
    Ok(Input {
        from,
        validator: validator.share()?,
        datum: datum.share()?,
        redeemer: redeemer.share()?,
    })
}

fn put_input(inputs: &mut Vec<Input, Memory>, input: &Input) -> Result<(), NoMemory>
    ensures { OnOk result (inputs.new.items ≡ inputs.old.items ++ input.now ∷ []) }
{
    let copy = make_input(input.from, &input.validator, &input.datum, &input.redeemer)?;
    inputs.push(copy)?;
    Ok(())
}

fn put_script(scripts: &mut Vec<Script, Memory>, script: &Script) -> Result<(), NoMemory>
    ensures { OnOk result (scripts.new.items ≡ scripts.old.items ++ script.now ∷ []) }
{
    scripts.push(script.share()?)?;
    Ok(())
}

fn put_output(outputs: &mut Vec<Output, Memory>, payment: &Payment) -> Result<(), NoMemory>
    ensures { OnOk result (outputs.new.items ≡ outputs.old.items ++ output_of payment.now ∷ []) }
{
    outputs.push(payment.to_output()?)?;
    Ok(())
}

/// Appends shares of the inputs.
pub fn copy_inputs(copies: &mut Vec<Input, Memory>, inputs: &[Input]) -> Result<(), NoMemory>
    ensures { OnOk result (copies.new.items ≡ copies.old.items ++ inputs.now) }
{
    copies.reserve_exact(inputs.len())?;
    for input in inputs {
        put_input(copies, input)?;
    }
    Ok(())
}

/// Appends shares of the scripts.
pub fn copy_scripts(copies: &mut Vec<Script, Memory>, scripts: &[Script]) -> Result<(), NoMemory>
    ensures { OnOk result (copies.new.items ≡ copies.old.items ++ scripts.now) }
{
    copies.reserve_exact(scripts.len())?;
    for script in scripts {
        put_script(copies, script)?;
    }
    Ok(())
}

/// Appends the outputs of the payments.
pub fn put_outputs(outputs: &mut Vec<Output, Memory>, payments: &[Payment]) -> Result<(), NoMemory>
    ensures { OnOk result (outputs.new.items ≡ outputs.old.items ++ map output_of payments.now) }
{
    outputs.reserve_exact(payments.len())?;
    for payment in payments {
        put_output(outputs, payment)?;
    }
    Ok(())
}
