//! The views in which scripts run.

ghost use Rattle.std.specs.Prelude.{◌≤◌, length};

use crate::bundle::bundle;
use crate::pieces;
use crate::scene::{
    AWAY, DATUM, FIRST_DATUM_HASH, FORGE, HOME, KEYS, LITTLE, MUCH, OWN_HASH, REDEEMER,
    SECOND_DATUM_HASH, SPENT,
};
use crate::sum::sum;
use crate::wanted::is_wanted;
use crate::wrong::Result;
use mp_bundle::{Bundle, Sum};
use mp_memory::Memory;
use mp_script::{Data, Hash, PaidTo, Referred, Script, View, eval};

const ZEROS: Hash = [0; 32];

/// What runs: the script of a spent output, or a policy script.
#[derive(Clone, Copy)]
pub enum Role {
    Guard,
    Policy,
}

fn of_guard<T>(role: Role, part: &T) -> Option<&T> {
    match role {
        Role::Guard => Some(part),
        Role::Policy => None,
    }
}

// Whether a script has the expected result and doesn't allocate.
fn comes_to<'a>(memory: Memory, script: &'a Script, view: &View<'a>, wanted: &str) -> Result<bool>
    requires { length view.now.outputs.now ≤ 256 }
{
    memory.refuse(1);
    let value = eval(script, view);
    let takes_none = memory.waits();
    memory.refuse(0);
    Ok(is_wanted(memory, &value, wanted)? && takes_none)
}

// Two outputs with one address, and another one between them.
fn outputs_of<'a>(much: &'a Bundle, little: &'a Bundle) -> [PaidTo<'a>; 3] {
    [
        PaidTo {
            address: &HOME,
            value: much,
        },
        PaidTo {
            address: &AWAY,
            value: little,
        },
        PaidTo {
            address: &HOME,
            value: little,
        },
    ]
}

fn references_of<'a>(much: &'a Bundle, little: &'a Bundle) -> [Referred<'a>; 2] {
    [
        Referred {
            address: &AWAY,
            datum_hash: &FIRST_DATUM_HASH,
            value: much,
        },
        Referred {
            address: &HOME,
            datum_hash: &SECOND_DATUM_HASH,
            value: little,
        },
    ]
}

// The datum and the redeemer of the spent output.
fn data(memory: Memory) -> Result<(Data, Data)> {
    let datum = pieces::datum(memory, DATUM)?;
    Ok((datum, pieces::datum(memory, REDEEMER)?))
}

// The bundles `much`, `little` and the forged one.
fn bundles(memory: Memory) -> Result<(Bundle, Bundle, Bundle)> {
    let much = bundle(memory, MUCH)?;
    let little = bundle(memory, LITTLE)?;
    Ok((much, little, bundle(memory, FORGE)?))
}

/// Whether a script in a role has the expected result in the transaction of the scene.
pub fn holds_in_scene(memory: Memory, role: Role, bytes: &[u8], wanted: &str) -> Result<bool> {
    let script = Script::decode(memory, bytes)?;
    let (datum, redeemer) = data(memory)?;
    let (much, little, forge) = bundles(memory)?;
    let spent = sum(memory, SPENT)?;
    let outputs = outputs_of(&much, &little);
    let references = references_of(&much, &little);
    let view = View {
        own_hash: &OWN_HASH,
        datum: of_guard(role, &datum),
        redeemer: of_guard(role, &redeemer),
        own_value: of_guard(role, &little),
        from: 4,
        to: u64::MAX,
        keys: &KEYS,
        spent: &spent,
        forge: &forge,
        outputs: &outputs,
        references: &references,
    };
    comes_to(memory, &script, &view, wanted)
}

// The datum that is given, if there is one.
fn datum_of(memory: Memory, words: &str) -> Result<Option<Data>> {
    if words.is_empty() {
        return Ok(None);
    }
    Ok(Some(pieces::datum(memory, words)?))
}

// A script, its datum if it has one, and an empty transaction.
#[derive(Drop)]
struct Alone {
    script: Script,
    datum: Option<Data>,
    spent: Sum,
    forge: Bundle,
}

fn comes_alone_to(memory: Memory, alone: &Alone, wanted: &str) -> Result<bool> {
    let view = View {
        own_hash: alone.script.hash(),
        datum: alone.datum.as_ref(),
        redeemer: None,
        own_value: None,
        from: 0,
        to: 0,
        keys: &[],
        spent: &alone.spent,
        forge: &alone.forge,
        outputs: &[],
        references: &[],
    };
    comes_to(memory, &alone.script, &view, wanted)
}

/// Whether a script has the expected result with the given datum, or none, in an empty transaction.
pub fn holds_in_nothing(memory: Memory, datum: &str, bytes: &[u8], wanted: &str) -> Result<bool> {
    let alone = Alone {
        script: Script::decode(memory, bytes)?,
        datum: datum_of(memory, datum)?,
        spent: Sum::new(memory),
        forge: Bundle::empty(),
    };
    comes_alone_to(memory, &alone, wanted)
}

// The most outputs that are allowed.
fn most_outputs(value: &Bundle) -> [PaidTo<'_>; 256] {
    [PaidTo {
        address: &HOME,
        value,
    }; 256]
}

// The most references that are allowed. The last one has another address.
fn most_references(value: &Bundle) -> [Referred<'_>; 256] {
    let mut references = [Referred {
        address: &HOME,
        datum_hash: &ZEROS,
        value,
    }; 256];
    references[255].address = &AWAY;
    references
}

/// Whether a script has the expected result with the most outputs and references, each of which holds much.
pub fn holds_in_most(memory: Memory, bytes: &[u8], wanted: &str) -> Result<bool> {
    let script = Script::decode(memory, bytes)?;
    let much = bundle(memory, MUCH)?;
    let spent = Sum::new(memory);
    let outputs = most_outputs(&much);
    let references = most_references(&much);
    let view = View {
        own_hash: &ZEROS,
        datum: None,
        redeemer: None,
        own_value: None,
        from: 0,
        to: 0,
        keys: &[],
        spent: &spent,
        forge: &much,
        outputs: &outputs,
        references: &references,
    };
    comes_to(memory, &script, &view, wanted)
}
