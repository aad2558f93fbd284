//! Scripts in the order of their declaration, found by name or hash without a walk.

ghost use Rattle.std.specs.Prelude.{◌≡◌, slice_get, option_and_then, option_copied};

use crate::names::NamedScript;
use crate::place_table::{PlaceTable, no_places, note, place_under};
use mp_bytes::Hash;
use mp_memory::{Memory, NoMemory};
use mp_tx::Salt;
use std::marker::Model;

/// Scripts with their names. Contracts see them as a list, in the order of their declaration.
pub struct ScriptTable {
    scripts: Vec<NamedScript, Memory>,
    names: PlaceTable,
    hashes: PlaceTable,
}

impl Drop for ScriptTable {
    fn drop(self) {
        let ScriptTable {
            scripts: _,
            names: _,
            hashes: _,
        } = self;
    }
}

impl Model for ScriptTable {
    ghost use Rattle.std.specs.Prelude.{List};
    ghost use Rattle.mp_names.specs.declared.names.NamedScript as told;
    ghost use Rattle.mp_names.specs.Inside.PlaceTable.{ArePlaced};
    ghost use Rattle.mp_names.specs.Inside.ScriptTable.{names_script, hashes_script};

    ghost Value = { List told.NamedScript };

    ghost view = { λ t. t.scripts.items };

    ghost invariant = { λ t. ArePlaced names_script t.names.entries t.scripts.items
        × ArePlaced hashes_script t.hashes.entries t.scripts.items };
}

fn script_at(scripts: &[NamedScript], place: Option<usize>) -> Option<&NamedScript>
    ensures { option_copied result ≡ option_and_then (slice_get scripts.now) place }
{
    scripts.get(place?)
}

impl ScriptTable {
    ghost use Rattle.std.specs.Prelude.{◌≡◌, [], ◌∷◌, ◌++◌, length, find, nat_eq, option_copied, OnOk, OnErr};
    ghost use Rattle.std.specs.Cmp.Lexicographic.{pointwise};
    ghost use Rattle.mp_names.specs.Names.{has_hash};

    /// A table without scripts.
    pub fn new(memory: Memory, salt: Salt) -> ScriptTable
        ensures { result ≡ [] }
    {
        ScriptTable {
            scripts: Vec::new(memory),
            names: no_places(memory, salt),
            hashes: no_places(memory, salt),
        }
    }

    /// How many scripts there are.
    pub fn len(&self) -> usize
        ensures { result ≡ length self.now }
    {
        self.scripts.len()
    }

    /// The first script with this name.
    pub fn get(&self, word: &[u8]) -> Option<&NamedScript>
        ensures { option_copied result ≡ find (λ n. pointwise nat_eq word.now n.name) self.now }
    {
        script_at(&self.scripts, place_under(&self.names, word))
    }

    /// The first script with this hash.
    pub fn get_by_hash(&self, hash: &Hash) -> Option<&NamedScript>
        ensures { option_copied result ≡ find (λ n. has_hash hash.now n.script) self.now }
    {
        script_at(&self.scripts, place_under(&self.hashes, hash))
    }

    /// Adds the script as the last one. After an `Err` the table is as it was.
    pub fn push(&mut self, named: NamedScript) -> Result<(), NoMemory>
        ensures ok { OnOk result (self.new ≡ self.old ++ named ∷ []) }
        ensures err { OnErr result (self.new ≡ self.old) }
    {
        self.scripts.reserve(1)?;
        self.names.reserve(1)?;
        self.hashes.reserve(1)?;
        let place = self.scripts.len();
        let word = named.name.to_bytes()?;
        let hash = Vec::from_slice(*self.scripts.allocator(), named.script.hash())?;
        note(&mut self.names, word, place);
        note(&mut self.hashes, hash, place);
        self.scripts.push_reserved(named);
        Ok(())
    }
}
