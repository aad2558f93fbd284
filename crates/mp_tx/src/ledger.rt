//! Ledger states.

ghost use Rattle.std.specs.Prelude.{◌≡◌, ◌↔◌, [], IsTrue, IfOk, OnOk, IfErr};
ghost use Rattle.mp_tx.specs.Ledger.{refs, AreDistinct, HasBlockBytes};
ghost use Rattle.mp_tx.specs.Inside.LedgerFault.{HasRepeat};
ghost use Rattle.indexmap.specs.IndexMap.{hasher_of};

mod base;
mod change;
mod layers;
mod outputs;

use crate::block_fault::BlockFault;
use crate::ledger::base::Base;
use crate::ledger::outputs::Outputs;
use crate::ledger_fault::LedgerFault;
use crate::output::Output;
use crate::reference::OutRef;
use crate::salt::Salt;
use indexmap::IndexMap;
use mp_memory::{Memory, NoMemory};
use std::marker::Model;

/// The greatest block bytes: 2^39.
pub const MAX_BLOCK_BYTES: u64 = 1 << 39;

/// An output with its reference.
type Unspent = (OutRef, Output);

/// A ledger state: a tick, the block bytes, and a finite map from references to outputs. Several owners may share the
/// map. A look-up doesn't iterate over the outputs. The map is a hash table that depends on a salt. A state that blocks
/// have changed has a few smaller tables on top.
pub struct Ledger {
    tick: u64,
    block_bytes: u64,
    outputs: Outputs,
}

impl Drop for Ledger {
    fn drop(self) {
        let Ledger {
            tick: _,
            block_bytes: _,
            outputs: _,
        } = self;
    }
}

impl Model for Ledger {
    ghost use Rattle.std.specs.Coded.{codes};
    ghost use Rattle.std.specs.FinMap as finite;
    ghost use Rattle.mp_tx.specs.Ledger.{LedgerState};

    ghost Value = { LedgerState };

    ghost coded = { Prim.hlevel (codes, finite.code) };

    ghost use Rattle.mp_tx.specs.Ledger.{HasBlockBytes};
    ghost use Rattle.mp_tx.specs.Inside.Ledger.{state};

    ghost view = { state };

    ghost invariant = { λ l. HasBlockBytes l.block_bytes };
}

// Whether the block bytes are from 1 to 2^39.
fn is_in_range(block_bytes: u64) -> bool
    ensures { IsTrue result ↔ HasBlockBytes block_bytes }
{
    1 <= block_bytes && block_bytes <= MAX_BLOCK_BYTES
}

// Puts outputs into an empty map, up to the first whose reference occurs before. Its index is then the length of the
// map.
fn put_outputs(map: &mut Base, outputs: Vec<Unspent, Memory>) -> Result<(), LedgerFault>
    requires { map.old.entries ≡ [] }
    ensures all { OnOk result (map.new.entries ≡ outputs.items) }
    ensures salt { OnOk result (hasher_of map.new ≡ hasher_of map.old) }
    ensures distinct { OnOk result (AreDistinct (refs outputs.items)) }
    ensures fault { IfErr result (HasRepeat (refs outputs.items)) }
{
    for (reference, output) in outputs {
        if map.insert(reference, output)?.is_some() {
            return Err(LedgerFault::Repeated(map.len()));
        }
    }
    Ok(())
}

// The entries of a table.
fn entries_of(memory: Memory, table: Base) -> Result<Vec<Unspent, Memory>, NoMemory>
    ensures { IfOk result (λ o. o.items ≡ table.entries) }
{
    let mut outputs = Vec::with_capacity(memory, table.len())?;
    for (reference, output) in table {
        outputs.push((reference, output))?;
    }
    Ok(outputs)
}

impl Ledger {
    ghost use Rattle.std.specs.Prelude.{◌≡◌, IfOk, IfErr, OnOk, option_copied};
    ghost use Rattle.std.specs.FinMap.{get, from_entries};
    ghost use Rattle.mp_tx.specs.Ledger.{HasBlockBytes, ledger_of, refs, AreDistinct};
    ghost use Rattle.mp_tx.specs.LedgerFault.{HasFault};
    ghost use Rattle.mp_tx.specs.Ledger.{ledger_after, without, AreThere, AreFree};
    ghost use Rattle.mp_tx.specs.BlockFault.{HasBlockFault};

    /// The ledger state of these outputs, in one pass and five allocations, or in one allocation if there are no
    /// outputs. The host picks the salt at random and keeps it secret.
    ///
    /// # Errors
    /// `BadBlockBytes` if the block bytes are 0 or greater than 2^39. Else `Repeated` with the first index whose
    /// reference occurs before. `NoMemory` may be returned instead of any answer.
    pub fn of_outputs(
        memory: Memory,
        salt: Salt,
        tick: u64,
        block_bytes: u64,
        outputs: Vec<Unspent, Memory>,
    ) -> Result<Ledger, LedgerFault>
        ensures ok { IfOk result (λ l. l ≡ ledger_of salt tick block_bytes outputs.items) }
        ensures block_bytes { OnOk result (HasBlockBytes block_bytes) }
        ensures distinct { OnOk result (AreDistinct (refs outputs.items)) }
        ensures fault { IfErr result (λ e. HasFault e block_bytes (refs outputs.items)) }
    {
        if !is_in_range(block_bytes) {
            return Err(LedgerFault::BadBlockBytes);
        }
        let mut map = IndexMap::with_capacity_and_hasher(memory, outputs.len(), salt)?;
        put_outputs(&mut map, outputs)?;
        Ok(Ledger {
            tick,
            block_bytes,
            outputs: Outputs::of(memory, map)?,
        })
    }

    /// The ledger state after a block: without what was spent, and with what was made. This state doesn't change, and
    /// shares with the new one what both have. Over many blocks, the cost is in proportion to the block and not to the
    /// ledger.
    ///
    /// # Errors
    /// `BadBlockBytes` as for `of_outputs`. Else `Missing` with the first index in `spent` whose reference leads to no
    /// output or occurs before. Else `Repeated` with the first index in `made` whose reference leads to an output that
    /// isn't spent, or occurs before. `NoMemory` may be returned instead of any answer.
    pub fn after(
        &self,
        memory: Memory,
        tick: u64,
        block_bytes: u64,
        spent: &[OutRef],
        made: Vec<Unspent, Memory>,
    ) -> Result<Ledger, BlockFault>
        ensures ok { IfOk result
            (λ l. l ≡ ledger_after self.now tick block_bytes spent.now made.items) }
        ensures block_bytes { OnOk result (HasBlockBytes block_bytes) }
        ensures there { OnOk result (AreThere self.now.utxo spent.now) }
        ensures free { OnOk result (AreFree (without self.now.utxo spent.now) made.items) }
        ensures fault { IfErr result
            (λ e. HasBlockFault e self.now block_bytes spent.now made.items) }
    {
        if !is_in_range(block_bytes) {
            return Err(BlockFault::BadBlockBytes);
        }
        Ok(Ledger {
            tick,
            block_bytes,
            outputs: self.outputs.after(memory, spent, made)?,
        })
    }

    /// The tick of the state.
    pub fn tick(&self) -> u64
        ensures { result ≡ self.now.tick }
    {
        self.tick
    }

    /// The greatest size of a block, in bytes: 1 to 2^39.
    pub fn block_bytes(&self) -> u64
        ensures same { result ≡ self.now.block_bytes }
        ensures range { HasBlockBytes result }
    {
        self.block_bytes
    }

    /// The salt that it was created with.
    pub fn salt(&self) -> Salt
        ensures { result ≡ self.now.salt }
    {
        self.outputs.salt()
    }

    /// The output that the reference leads to, if there is one.
    pub fn get(&self, reference: &OutRef) -> Option<&Output>
        ensures { option_copied result ≡ get self.now.utxo reference.now }
    {
        self.outputs.get(reference)
    }

    /// All outputs with their references, in an order that isn't said. It takes time and memory in proportion to them.
    pub fn outputs(&self, memory: Memory) -> Result<Vec<Unspent, Memory>, NoMemory>
        ensures { IfOk result (λ o. from_entries o.items ≡ self.now.utxo) }
    {
        entries_of(memory, self.outputs.settled(memory)?)
    }

    /// The same ledger state. The outputs are shared and not copied. Returns `NoMemory` if there are too many owners.
    pub fn share(&self) -> Result<Ledger, NoMemory>
        ensures { IfOk result (λ l. l ≡ self.now) }
    {
        Ok(Ledger {
            tick: self.tick,
            block_bytes: self.block_bytes,
            outputs: self.outputs.share()?,
        })
    }
}
