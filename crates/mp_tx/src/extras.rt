//! What only few transactions have.

ghost use Rattle.std.specs.Prelude.{◌≡◌, IfOk};
ghost use Rattle.mp_tx.specs.Inside.Extras.{references_in, scripts_in};

use crate::reference::OutRef;
use mp_memory::{Memory, NoMemory};
use mp_script::Script;

/// What only few transactions have: references and policy scripts.
#[derive(Debug)]
pub struct Extras {
    pub references: Vec<OutRef, Memory>,
    pub scripts: Vec<Script, Memory>,
}

impl Drop for Extras {
    fn drop(self) {
        let Extras {
            references: _,
            scripts: _,
        } = self;
    }
}

/// References and policy scripts, stored apart in one allocation, or in none if there are neither.
pub fn keep_apart(
    memory: Memory,
    references: Vec<OutRef, Memory>,
    scripts: Vec<Script, Memory>,
) -> Result<Option<Box<Extras, Memory>>, NoMemory>
    ensures references { IfOk result (λ extras. references_in extras ≡ references.items) }
    ensures scripts { IfOk result (λ extras. scripts_in extras ≡ scripts.items) }
{
    if references.is_empty() && scripts.is_empty() {
        return Ok(None);
    }
    let extras = Extras {
        references,
        scripts,
    };
    Ok(Some(Box::new(memory, extras)?))
}
