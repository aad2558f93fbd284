//! The outputs of a ledger state: a table, and layers of changes above it.

ghost use Rattle.std.specs.Prelude.{◌≡◌, ◌++◌, IfOk};
ghost use Rattle.std.specs.Arc.{arc_value};
ghost use Rattle.std.specs.FinMap.{from_entries};
ghost use Rattle.indexmap.specs.IndexMap.{hasher_of};
ghost use Rattle.mp_tx.specs.Inside.Changes.{changed};
ghost use Rattle.mp_tx.specs.Inside.Tables.{all_of, HaveSalt};

use crate::block_fault::BlockFault;
use crate::ledger::base::{Base, settled};
use crate::ledger::change::{Change, Changes, note};
use crate::ledger::layers::{Layer, Layers, RATIO, count_short, join_all, last_change};
use crate::output::Output;
use crate::reference::OutRef;
use crate::salt::Salt;
use indexmap::IndexMap;
use mp_memory::{Memory, NoMemory};
use std::marker::Model;
use std::sync::Arc;

/// A finite map from references to outputs: a table, and layers of changes on top, which several maps may share.
/// The table and each layer is at least `RATIO` times as long as the layers above it. So there are few layers, and over
/// many blocks the cost of a block is in proportion to the block.
pub struct Outputs {
    base: Arc<Base, Memory>,
    layers: Layers,
}

impl Drop for Outputs {
    fn drop(self) {
        let Outputs { base: _, layers: _ } = self;
    }
}

impl Model for Outputs {
    ghost use Rattle.std.specs.Coded.{codes};
    ghost use Rattle.std.specs.FinMap as finite;
    ghost use Rattle.mp_tx.specs.Inside.Tables as told;

    ghost Value = { told.Outputs };

    ghost coded = { Prim.hlevel (codes, finite.code) };

    ghost use Rattle.mp_tx.specs.Inside.Outputs.{outputs, HasOneSalt};

    ghost view = { outputs };

    ghost invariant = { HasOneSalt };
}

// The outputs of the table after the changes, in a table of their own.
fn make_table(memory: Memory, base: &Base, changes: Changes) -> Result<Outputs, NoMemory>
    ensures utxo { IfOk result
        (λ o. o.utxo ≡ changed (from_entries base.now.entries) changes.entries) }
    ensures salt { IfOk result (λ o. o.salt ≡ hasher_of base.now) }
{
    Outputs::of(memory, settled(memory, base, changes)?)
}

// The outputs of the table after the older changes and after these, which become a layer on top.
fn make_layers(
    memory: Memory,
    base: &Arc<Base, Memory>,
    changes: Changes,
    older: &[Layer],
) -> Result<Outputs, NoMemory>
    requires changes { hasher_of changes ≡ hasher_of (arc_value base.now) }
    requires older { HaveSalt (hasher_of (arc_value base.now)) older.now }
    ensures utxo { IfOk result (λ o. o.utxo ≡ changed (from_entries (arc_value base.now).entries)
        (changes.entries ++ all_of older.now)) }
    ensures salt { IfOk result (λ o. o.salt ≡ hasher_of (arc_value base.now)) }
{
    let layers = Layers::over(memory, changes, older)?;
    Ok(Outputs {
        base: Arc::try_clone(base)?,
        layers,
    })
}

impl Outputs {
    ghost use Rattle.std.specs.Prelude.{◌≡◌, IfOk, IfErr, OnOk, Bool, None, is_some, option_copied, []};
    ghost use Rattle.std.specs.FinMap.{get, from_entries};
    ghost use Rattle.indexmap.specs.IndexMap.{hasher_of};
    ghost use Rattle.mp_tx.specs.Ledger.{without, with_outputs, AreThere, AreFree};
    ghost use Rattle.mp_tx.specs.Inside.Changes.{changed};
    ghost use Rattle.mp_tx.specs.Inside.BlockFault.{IsOfSpent, IsOfMade, IsOfBoth};

    /// The outputs of the table.
    pub fn of(memory: Memory, base: Base) -> Result<Outputs, NoMemory>
        ensures utxo { IfOk result (λ o. o.utxo ≡ from_entries base.entries) }
        ensures salt { IfOk result (λ o. o.salt ≡ hasher_of base) }
    {
        Ok(Outputs {
            base: Arc::new(memory, base)?,
            layers: Layers::none(),
        })
    }

    /// The salt of its tables.
    pub fn salt(&self) -> Salt
        ensures { result ≡ self.now.salt }
    {
        *self.base.hasher()
    }

    /// The output of the reference, if there is one.
    pub fn get(&self, reference: &OutRef) -> Option<&Output>
        ensures { option_copied result ≡ get self.now.utxo reference.now }
    {
        match last_change(self.layers.as_slice(), reference) {
            Some(change) => change.output(),
            None => self.base.get(reference),
        }
    }

    /// The same outputs, shared.
    pub fn share(&self) -> Result<Outputs, NoMemory>
        ensures { IfOk result (λ o. o ≡ self.now) }
    {
        Ok(Outputs {
            base: Arc::try_clone(&self.base)?,
            layers: self.layers.share()?,
        })
    }

    /// A table of the same outputs, without layers.
    pub fn settled(&self, memory: Memory) -> Result<Base, NoMemory>
        ensures { IfOk result (λ b. from_entries b.entries ≡ self.now.utxo) }
    {
        let mut changes = IndexMap::with_capacity_and_hasher(memory, 0, self.salt())?;
        join_all(&mut changes, self.layers.as_slice())?;
        settled(memory, &self.base, changes)
    }

    // Whether the reference leads to an output after the changes.
    fn is_there(&self, changes: &Changes, reference: &OutRef) -> bool
        ensures { result
            ≡ is_some (get (changed self.now.utxo changes.now.entries) reference.now) }
    {
        match changes.get(reference) {
            Some(change) => change.output().is_some(),
            None => self.get(reference).is_some(),
        }
    }

    // Records the references as spent, up to the first that leads to no output.
    fn spend(&self, changes: &mut Changes, spent: &[OutRef]) -> Result<(), BlockFault>
        requires { changes.old.entries ≡ [] }
        ensures ok { OnOk result
            (changed self.now.utxo changes.new.entries ≡ without self.now.utxo spent.now) }
        ensures salt { OnOk result (hasher_of changes.new ≡ hasher_of changes.old) }
        ensures there { OnOk result (AreThere self.now.utxo spent.now) }
        ensures fault { IfErr result (IsOfSpent self.now.utxo spent.now) }
    {
        for (place, reference) in spent.iter().enumerate() {
            if !self.is_there(changes, reference) {
                return Err(BlockFault::Missing(place));
            }
            note(changes, *reference, Change::Spent)?;
        }
        Ok(())
    }

    // Records the outputs as made, up to the first whose reference leads to one.
    fn make(
        &self,
        changes: &mut Changes,
        made: Vec<(OutRef, Output), Memory>,
    ) -> Result<(), BlockFault>
        ensures ok { OnOk result (changed self.now.utxo changes.new.entries
            ≡ with_outputs (changed self.now.utxo changes.old.entries) made.items) }
        ensures salt { OnOk result (hasher_of changes.new ≡ hasher_of changes.old) }
        ensures free { OnOk result
            (AreFree (changed self.now.utxo changes.old.entries) made.items) }
        ensures fault { IfErr result
            (IsOfMade (changed self.now.utxo changes.old.entries) made.items) }
    {
        let mut place = 0;
        for (reference, output) in made {
            if self.is_there(changes, &reference) {
                return Err(BlockFault::Repeated(place));
            }
            note(changes, reference, Change::Made(output))?;
            place += 1;
        }
        Ok(())
    }

    // Records the references as spent and then the outputs as made, up to the first fault.
    fn note_block(
        &self,
        changes: &mut Changes,
        spent: &[OutRef],
        made: Vec<(OutRef, Output), Memory>,
    ) -> Result<(), BlockFault>
        requires { changes.old.entries ≡ [] }
        ensures ok { OnOk result (changed self.now.utxo changes.new.entries
            ≡ with_outputs (without self.now.utxo spent.now) made.items) }
        ensures salt { OnOk result (hasher_of changes.new ≡ hasher_of changes.old) }
        ensures there { OnOk result (AreThere self.now.utxo spent.now) }
        ensures free { OnOk result (AreFree (without self.now.utxo spent.now) made.items) }
        ensures fault { IfErr result (IsOfBoth self.now.utxo spent.now made.items) }
    {
        self.spend(changes, spent)?;
        self.make(changes, made)
    }

    // The outputs after the changes. Layers that aren't long enough to be under these are joined with them, and so is
    // the table.
    fn changed(&self, memory: Memory, changes: Changes) -> Result<Outputs, NoMemory>
        requires { hasher_of changes ≡ self.now.salt }
        ensures utxo { IfOk result (λ o. o.utxo ≡ changed self.now.utxo changes.entries) }
        ensures salt { IfOk result (λ o. o.salt ≡ self.now.salt) }
    {
        let mut changes = changes;
        let layers = self.layers.as_slice();
        let (short, long) = layers.split_at(count_short(layers, changes.len()));
        join_all(&mut changes, short)?;
        if long.is_empty() && self.base.len() / RATIO < changes.len() {
            make_table(memory, &self.base, changes)
        } else {
            make_layers(memory, &self.base, changes, long)
        }
    }

    /// The outputs without what is spent, and with what is made.
    pub fn after(
        &self,
        memory: Memory,
        spent: &[OutRef],
        made: Vec<(OutRef, Output), Memory>,
    ) -> Result<Outputs, BlockFault>
        ensures ok { IfOk result
            (λ o. o.utxo ≡ with_outputs (without self.now.utxo spent.now) made.items) }
        ensures salt { IfOk result (λ o. o.salt ≡ self.now.salt) }
        ensures there { OnOk result (AreThere self.now.utxo spent.now) }
        ensures free { OnOk result (AreFree (without self.now.utxo spent.now) made.items) }
        ensures fault { IfErr result (IsOfBoth self.now.utxo spent.now made.items) }
    {
        let room = spent.len().saturating_add(made.len());
        let mut changes = IndexMap::with_capacity_and_hasher(memory, room, self.salt())?;
        self.note_block(&mut changes, spent, made)?;
        if changes.is_empty() {
            return Ok(self.share()?);
        }
        Ok(self.changed(memory, changes)?)
    }
}
