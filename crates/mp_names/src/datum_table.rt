//! Data in the order of their declaration, found by name without a walk.

ghost use Rattle.std.specs.Prelude.{◌≡◌, slice_get, option_and_then, option_copied};

use crate::names::NamedDatum;
use crate::place_table::{PlaceTable, no_places, note, place_under};
use mp_memory::{Memory, NoMemory};
use mp_tx::Salt;
use std::marker::Model;

/// Data with their names. Contracts see them as a list, in the order of their declaration.
pub struct DatumTable {
    datums: Vec<NamedDatum, Memory>,
    names: PlaceTable,
}

impl Drop for DatumTable {
    fn drop(self) {
        let DatumTable {
            datums: _,
            names: _,
        } = self;
    }
}

impl Model for DatumTable {
    ghost use Rattle.std.specs.Prelude.{List};
    ghost use Rattle.mp_names.specs.declared.names.NamedDatum as told;
    ghost use Rattle.mp_names.specs.Inside.PlaceTable.{ArePlaced};
    ghost use Rattle.mp_names.specs.Inside.DatumTable.{names_datum};

    ghost Value = { List told.NamedDatum };

    ghost view = { λ t. t.datums.items };

    ghost invariant = { λ t. ArePlaced names_datum t.names.entries t.datums.items };
}

fn datum_at(datums: &[NamedDatum], place: Option<usize>) -> Option<&NamedDatum>
    ensures { option_copied result ≡ option_and_then (slice_get datums.now) place }
{
    datums.get(place?)
}

impl DatumTable {
    ghost use Rattle.std.specs.Prelude.{◌≡◌, [], ◌∷◌, ◌++◌, length, find, nat_eq, option_copied, OnOk, OnErr};
    ghost use Rattle.std.specs.Cmp.Lexicographic.{pointwise};

    /// A table without data.
    pub fn new(memory: Memory, salt: Salt) -> DatumTable
        ensures { result ≡ [] }
    {
        DatumTable {
            datums: Vec::new(memory),
            names: no_places(memory, salt),
        }
    }

    /// How many data there are.
    pub fn len(&self) -> usize
        ensures { result ≡ length self.now }
    {
        self.datums.len()
    }

    /// The first datum with this name.
    pub fn get(&self, word: &[u8]) -> Option<&NamedDatum>
        ensures { option_copied result ≡ find (λ n. pointwise nat_eq word.now n.name) self.now }
    {
        datum_at(&self.datums, place_under(&self.names, word))
    }

    /// Adds the datum as the last one. After an `Err` the table is as it was.
    pub fn push(&mut self, named: NamedDatum) -> Result<(), NoMemory>
        ensures ok { OnOk result (self.new ≡ self.old ++ named ∷ []) }
        ensures err { OnErr result (self.new ≡ self.old) }
    {
        self.datums.reserve(1)?;
        self.names.reserve(1)?;
        let place = self.datums.len();
        let word = named.name.to_bytes()?;
        note(&mut self.names, word, place);
        self.datums.push_reserved(named);
        Ok(())
    }
}
