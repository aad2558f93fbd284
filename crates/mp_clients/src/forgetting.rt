//! Which names may be forgotten.

ghost use Rattle.std.specs.Prelude.{◌≡◌, ◌++◌, [], ◌∷◌, if◌then◌else◌, IfOk, OnOk};
ghost use Rattle.mp_names.specs.Names.{binding_named};
ghost use Rattle.mp_session.specs.declared.session.Stage.TheVariants.{Open};
ghost use Rattle.mp_serve.specs.Talk.{is_held, is_reported, may_go, names_to_go};
ghost use Rattle.mp_clients.specs.Client.{served_at};

use crate::client::Client;
use mp_history::PoolName;
use mp_memory::{Memory, NoMemory};
use mp_names::{Binding, Name, Names};
use mp_tx::TxId;

// Whether the pool holds the transaction with this id, which is reported under this name.
fn is_reported<N: PoolName>(names: &Names, client: &Client<N>, name: &[u8], id: &TxId) -> bool
    ensures { result ≡ is_reported names.now
        (Open (served_at N.accepts client.now client.now.pass.front)) name.now id.now }
{
    client.holds(id) && name == names.name_of(id)
}

fn may_go<N: PoolName>(names: &Names, client: &Client<N>, name: &Name) -> bool
    ensures { result ≡ may_go names.now
        (Open (served_at N.accepts client.now client.now.pass.front))
        name.now (binding_named name.now names.now) }
{
    match names.binding(name.as_bytes()) {
        None => false,
        Some(Binding::Opening(_, _)) => true,
        Some(Binding::Made(declared)) => {
            !is_reported(names, client, name.as_bytes(), declared.tx().id())
        }
    }
}

fn put_if_it_goes<N: PoolName>(
    goes: &mut Vec<Name, Memory>,
    names: &Names,
    client: &Client<N>,
    name: Name,
) -> Result<(), NoMemory>
    ensures { OnOk result (goes.new.items ≡ goes.old.items
        ++ (if may_go names.now (Open (served_at N.accepts client.now client.now.pass.front))
        name (binding_named name names.now) then name ∷ [] else [])) }
{
    if may_go(names, client, &name) {
        goes.push(name)?;
    }
    Ok(())
}

/// Those of the names that may be forgotten.
pub fn names_to_go<N: PoolName>(
    memory: Memory,
    names: &Names,
    client: &Client<N>,
    listed: Vec<Name, Memory>,
) -> Result<Vec<Name, Memory>, NoMemory>
    ensures { IfOk result (λ goes. goes.items ≡ names_to_go names.now
        (Open (served_at N.accepts client.now client.now.pass.front)) listed.items) }
{
    let mut goes = Vec::new(memory);
    for name in listed {
        put_if_it_goes(&mut goes, names, client, name)?;
    }
    Ok(goes)
}
