//! References, bundles, outputs and inputs as the lines write them.

use crate::vectors::names::Names;
use crate::vectors::pieces;
use crate::vectors::wrong::{Result, Wrong};
use mp_bundle::{Bundle, Given, PolicyId};
use mp_memory::Memory;
use mp_tx::{Input, OutRef, Output, TxId};

// The script that is always true, and the empty list.
const YES: &str = "01";

const UNIT: &str = "030000";

/// The reference of a word like `3.0` or `a.0`: a name, then the index. The name `own` is the given id.
pub fn reference(names: &Names, own: Option<TxId>, word: &str) -> Result<OutRef> {
    let (name, digits) = word.split_once('.').ok_or(Wrong::Because("no reference"))?;
    let index = digits.parse::<u16>()?;
    let id = match own {
        Some(id) if name == "own" => id,
        _ => names.id(name)?,
    };
    Ok(OutRef { id, index })
}

/// The token of a word like `coin`, `p` or `p.x`: the policy's script, then the name.
pub fn token<'a>(names: &Names, word: &'a str) -> Result<(PolicyId, &'a str)> {
    if word == "coin" {
        return Ok(([0; 32], ""));
    }
    let (script, name) = word.split_once('.').unwrap_or((word, ""));
    Ok((pieces::script_hash(names, script)?, name))
}

// The entry of a word like `5` or `5*p.x`.
fn entry(names: &Names, word: &str) -> Result<Given> {
    let (quantity, named) = word.split_once('*').unwrap_or((word, "coin"));
    let quantity = quantity.parse::<i64>()?;
    let (policy, name) = token(names, named)?;
    let name = name.as_bytes().to_vec(names.memory())?;
    Ok((policy, name, quantity))
}

fn add_entries(names: &Names, entries: &mut Vec<Given, Memory>, words: &str) -> Result<()> {
    for written in words.split(',') {
        let entry = entry(names, written)?;
        entries.push(entry)?;
    }
    Ok(())
}

fn filled_bundle(names: &Names, words: &str) -> Result<Bundle> {
    let mut entries = Vec::new(names.memory());
    add_entries(names, &mut entries, words)?;
    Ok(Bundle::of_entries(names.memory(), entries)?)
}

/// The bundle of a word like `100,5*p.x`, whose entries are strictly increasing, or `-` for none.
pub fn bundle(names: &Names, word: &str) -> Result<Bundle> {
    if word == "-" {
        Ok(Bundle::empty())
    } else {
        filled_bundle(names, word)
    }
}

/// The output of a word like `100`, `100@s` or `100@s/d`: the bundle, the script and the datum.
pub fn output(names: &Names, word: &str) -> Result<Output> {
    let (value, lock) = word.split_once('@').unwrap_or((word, YES));
    let (script, datum) = lock.split_once('/').unwrap_or((lock, UNIT));
    Ok(Output {
        address: pieces::script_hash(names, script)?,
        datum_hash: pieces::datum_hash(names, datum)?,
        value: bundle(names, value)?,
    })
}

/// The input of a word like `3.0`, `3.0:s`, `3.0:s/d` or `3.0:s/d/r`: what it spends, the validator, the datum and the redeemer.
pub fn input(names: &Names, word: &str) -> Result<Input> {
    let (spent, rest) = word.split_once(':').unwrap_or((word, YES));
    let (script, data) = rest.split_once('/').unwrap_or((rest, UNIT));
    let (datum, redeemer) = data.split_once('/').unwrap_or((data, UNIT));
    Ok(Input {
        from: reference(names, None, spent)?,
        validator: pieces::script(names, script)?,
        datum: pieces::datum(names, datum)?,
        redeemer: pieces::datum(names, redeemer)?,
    })
}
