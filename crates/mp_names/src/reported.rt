//! The names under which transactions are reported.

ghost use Rattle.std.specs.Prelude.{◌≡◌};
ghost use Rattle.mp_names.specs.Inside.Reported.{Removes};

use crate::names::Name;
use indexmap::IndexMap;
use mp_memory::{Memory, NoMemory};
use mp_tx::{Salt, TxId};
use std::marker::Model;

/// The names under which transactions are reported. Contracts see them as a finite map from ids.
pub struct ReportedNames {
    names: IndexMap<TxId, Name, Salt, Memory>,
}

impl Drop for ReportedNames {
    fn drop(self) {
        let ReportedNames { names: _ } = self;
    }
}

impl Model for ReportedNames {
    ghost use Rattle.std.specs.Coded.{codes};
    ghost use Rattle.std.specs.FinMap as finite;
    ghost use Rattle.mp_names.specs.Reported.{Reported};

    ghost Value = { Reported };

    ghost coded = { Prim.hlevel (codes, finite.code) };

    ghost view = { λ r. finite.from_entries r.names.entries };
}

fn remove_name(names: &mut IndexMap<TxId, Name, Salt, Memory>, id: &TxId)
    ensures { Removes names.old.entries id.now names.new.entries }
{
    let _ = names.swap_remove(id);
}

impl ReportedNames {
    ghost use Rattle.std.specs.Prelude.{◌≡◌, false, nat_eq, option_copied, OnOk, OnErr};
    ghost use Rattle.std.specs.Option.{option_map_or};
    ghost use Rattle.std.specs.Cmp.Lexicographic.{pointwise};
    ghost use Rattle.std.specs.FinMap.{empty, get, insert};
    ghost use Rattle.mp_names.specs.Inside.Reported.{unreported};

    /// No transaction has a name.
    pub fn new(memory: Memory, salt: Salt) -> ReportedNames
        ensures { result ≡ empty }
    {
        ReportedNames {
            names: IndexMap::with_hasher(memory, salt),
        }
    }

    /// The name under which the transaction with this id is reported, if it has one.
    pub fn get(&self, id: &TxId) -> Option<&Name>
        ensures { option_copied result ≡ get self.now id.now }
    {
        self.names.get(id)
    }

    /// From now on the transaction with this id is reported under the name. After an `Err` nothing has changed.
    pub fn set(&mut self, id: TxId, name: Name) -> Result<(), NoMemory>
        ensures ok { OnOk result (self.new ≡ insert self.old id name) }
        ensures err { OnErr result (self.new ≡ self.old) }
    {
        self.names.insert(id, name)?;
        Ok(())
    }

    // Whether the transaction with this id is reported under the word.
    fn is_under(&self, id: &TxId, word: &[u8]) -> bool
        ensures { result ≡ option_map_or (pointwise nat_eq word.now) (get self.now id.now) false }
    {
        match self.get(id) {
            Some(name) => word == name.as_bytes(),
            None => false,
        }
    }

    /// The transaction with this id is no longer reported under the word, if it was.
    pub fn forget(&mut self, id: &TxId, word: &[u8])
        ensures { self.new ≡ unreported self.old id.now word.now }
    {
        if self.is_under(id, word) {
            remove_name(&mut self.names, id);
        }
    }
}
