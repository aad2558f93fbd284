//! What all scripts of a transaction see.

ghost use Rattle.std.specs.Prelude.{◌≤◌, length};

use mp_bundle::{Bundle, Sum};
use mp_memory::Memory;
use mp_script::{PaidTo, Referred};
use mp_tx::Key;

/// What all scripts of a transaction see, computed once.
#[derive(Drop)]
pub struct ScriptContext<'a> {
    pub from: u64,
    pub to: u64,
    pub keys: Vec<Key, Memory>,
    pub spent: Sum,
    pub forge: &'a Bundle,
    pub outputs: Vec<PaidTo<'a>, Memory>,
    pub references: Vec<Referred<'a>, Memory>,
    ghost few: { length outputs.items ≤ 256 },
}
