//! Inputs and outputs of the script 01, whose data are the empty list.

use crate::bundle::bundle;
use crate::pieces;
use crate::wrong::Result;
use mp_bundle::Bundle;
use mp_memory::Memory;
use mp_tx::{Input, OutRef, Output};

const SCRIPT: &str = "01";

/// The empty list.
pub const UNIT: &str = "030000";

/// The input that spends the reference, with a datum.
pub fn input(memory: Memory, from: OutRef, datum: &str) -> Result<Input> {
    Ok(Input {
        from,
        validator: pieces::script(memory, SCRIPT)?,
        datum: pieces::datum(memory, datum)?,
        redeemer: pieces::datum(memory, UNIT)?,
    })
}

// This much coin: the token without a name under the policy of zeros. Nothing for 0.
fn coin(memory: Memory, quantity: &str) -> Result<Bundle> {
    if quantity == "0" {
        return Ok(Bundle::empty());
    }
    let entry = format!(in memory; "32*00/-/{quantity}")?;
    bundle(memory, entry.as_str())
}

/// The output of this much coin.
pub fn output(memory: Memory, quantity: &str) -> Result<Output> {
    Ok(Output {
        address: pieces::script_hash(memory, SCRIPT)?,
        datum_hash: pieces::datum_hash(memory, UNIT)?,
        value: coin(memory, quantity)?,
    })
}
