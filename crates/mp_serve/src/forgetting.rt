//! Which names may be forgotten.

ghost use Rattle.std.specs.Prelude.{◌≡◌, ◌++◌, [], ◌∷◌, if◌then◌else◌, IfOk, OnOk};
ghost use Rattle.mp_names.specs.Names.{binding_named};
ghost use Rattle.mp_serve.specs.Talk.{is_held, is_reported, may_go, names_to_go};

use crate::pool::ServedPool;
use mp_memory::{Memory, NoMemory};
use mp_names::{Binding, Name, Names};
use mp_session::Stage;
use mp_tx::TxId;

fn is_held(stage: &Stage<ServedPool>, id: &TxId) -> bool
    ensures { result ≡ is_held stage.now id.now }
{
    match stage {
        Stage::Before(_) => false,
        Stage::Open(pool) => pool.holds(id),
    }
}

// Whether the pool holds the transaction with this id, which is reported under this name.
fn is_reported(names: &Names, stage: &Stage<ServedPool>, name: &[u8], id: &TxId) -> bool
    ensures { result ≡ is_reported names.now stage.now name.now id.now }
{
    is_held(stage, id) && name == names.name_of(id)
}

fn may_go(names: &Names, stage: &Stage<ServedPool>, name: &Name) -> bool
    ensures { result
        ≡ may_go names.now stage.now name.now (binding_named name.now names.now) }
{
    match names.binding(name.as_bytes()) {
        None => false,
        Some(Binding::Opening(_, _)) => true,
        Some(Binding::Made(declared)) => {
            !is_reported(names, stage, name.as_bytes(), declared.tx().id())
        }
    }
}

fn put_if_it_goes(
    goes: &mut Vec<Name, Memory>,
    names: &Names,
    stage: &Stage<ServedPool>,
    name: Name,
) -> Result<(), NoMemory>
    ensures { OnOk result (goes.new.items ≡ goes.old.items
        ++ (if may_go names.now stage.now name (binding_named name names.now)
        then name ∷ [] else [])) }
{
    if may_go(names, stage, &name) {
        goes.push(name)?;
    }
    Ok(())
}

/// Those of the names that may be forgotten.
pub fn names_to_go(
    memory: Memory,
    names: &Names,
    stage: &Stage<ServedPool>,
    listed: Vec<Name, Memory>,
) -> Result<Vec<Name, Memory>, NoMemory>
    ensures { IfOk result
        (λ goes. goes.items ≡ names_to_go names.now stage.now listed.items) }
{
    let mut goes = Vec::new(memory);
    for name in listed {
        put_if_it_goes(&mut goes, names, stage, name)?;
    }
    Ok(goes)
}
