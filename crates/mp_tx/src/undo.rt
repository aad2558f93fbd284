//! Going back from the ledger state after a block to the one before it.

ghost use Rattle.std.specs.Prelude.{◌≡◌, ◌++◌, OnOk, IfOk, if◌then◌else◌, is_some, ◌∷◌, [], Bool};
ghost use Rattle.std.specs.FinMap.{get};
ghost use Rattle.indexmap.specs.IndexSet.{insert_key};
ghost use Rattle.mp_tx.specs.Reference.{same_ref};
ghost use Rattle.mp_tx.specs.Ledger.{HasBlockBytes, ledger_after, without, AreThere, AreFree};
ghost use Rattle.mp_tx.specs.Inside.Undo.{entry_of, AreOf};

use crate::block_fault::BlockFault;
use crate::ledger::Ledger;
use crate::output::Output;
use crate::reference::OutRef;
use crate::salt::Salt;
use indexmap::IndexSet;
use mp_memory::{Memory, NoMemory};
use std::marker::Model;

/// What a block changed: it leads from the ledger state after the block to the one before. Its memory is in proportion
/// to what the block spent and made, and not to the ledger.
pub struct Undo {
    tick: u64,
    block_bytes: u64,
    spent: Vec<(OutRef, Output), Memory>,
    made: Vec<OutRef, Memory>,
}

impl Drop for Undo {
    fn drop(self) {
        let Undo {
            tick: _,
            block_bytes: _,
            spent: _,
            made: _,
        } = self;
    }
}

impl Model for Undo {
    ghost use Rattle.mp_tx.specs.Undo as told;

    ghost Value = { told.Undo };

    ghost use Rattle.mp_tx.specs.Inside.UndoView.{undo};

    ghost view = { undo };
}

// References, each with what it led to before a block and leads to after it.
#[derive(Drop)]
struct Notes {
    seen: IndexSet<OutRef, Salt, Memory>,
    spent: Vec<(OutRef, Output), Memory>,
    made: Vec<OutRef, Memory>,
}

// Appends a share of the output of the reference, if there is one.
fn push_output(
    spent: &mut Vec<(OutRef, Output), Memory>,
    ledger: &Ledger,
    reference: &OutRef,
) -> Result<(), NoMemory>
    ensures { OnOk result (spent.new.items
        ≡ spent.old.items ++ entry_of reference.now (get ledger.now.utxo reference.now)) }
{
    let Some(output) = ledger.get(reference) else {
        return Ok(());
    };
    spent.push((*reference, output.share()?))?;
    Ok(())
}

// Appends the reference, if it leads to an output.
fn push_leading(
    made: &mut Vec<OutRef, Memory>,
    ledger: &Ledger,
    reference: &OutRef,
) -> Result<(), NoMemory>
    ensures { OnOk result (made.new.items ≡ made.old.items
        ++ (if is_some (get ledger.now.utxo reference.now) then reference.now ∷ [] else [])) }
{
    if ledger.get(reference).is_none() {
        return Ok(());
    }
    made.push(*reference)?;
    Ok(())
}

// The same outputs, shared.
fn shares(
    memory: Memory,
    outputs: &[(OutRef, Output)],
) -> Result<Vec<(OutRef, Output), Memory>, NoMemory>
    ensures { IfOk result (λ v. v.items ≡ outputs.now) }
{
    let mut shares = Vec::with_capacity(memory, outputs.len())?;
    for (reference, output) in outputs {
        shares.push((*reference, output.share()?))?;
    }
    Ok(shares)
}

// The ledger state without what was made and with what was spent, if there is one.
fn put_back(
    memory: Memory,
    after: &Ledger,
    tick: u64,
    block_bytes: u64,
    made: &[OutRef],
    spent: Vec<(OutRef, Output), Memory>,
) -> Result<Ledger, NoMemory>
    requires block_bytes { HasBlockBytes block_bytes }
    requires there { AreThere after.now.utxo made.now }
    requires free { AreFree (without after.now.utxo made.now) spent.items }
    ensures { IfOk result (λ l. l ≡ ledger_after after.now tick block_bytes made.now spent.items) }
{
    match after.after(memory, tick, block_bytes, made, spent) {
        Ok(before) => Ok(before),
        Err(BlockFault::NoMemory) => Err(NoMemory),
        Err(BlockFault::Missing(_)) => unreachable!(),
        Err(BlockFault::Repeated(_)) => unreachable!(),
        Err(BlockFault::BadBlockBytes) => unreachable!(),
    }
}

impl Notes {
    ghost use Rattle.std.specs.Prelude.{◌≡◌, ◌≤◌, OnOk, IfOk, [], Bool, length};
    ghost use Rattle.std.specs.List.{list_any};
    ghost use Rattle.indexmap.specs.IndexSet.{insert_key};
    ghost use Rattle.mp_tx.specs.declared.reference.OutRef.{OutRef};
    ghost use Rattle.mp_tx.specs.Reference.{same_ref};
    ghost use Rattle.mp_tx.specs.Ledger.{Utxo};
    ghost use Rattle.mp_tx.specs.Inside.Undo.{AreOf};

    // Notes without references.
    fn none(memory: Memory, salt: Salt, room: usize) -> Result<Notes, NoMemory>
        ensures of { (before after : Utxo) → IfOk result (AreOf before after) }
        ensures none { IfOk result (λ n. n.seen.keys ≡ []) }
    {
        Ok(Notes {
            seen: IndexSet::with_capacity_and_hasher(memory, room, salt)?,
            spent: Vec::new(memory),
            made: Vec::new(memory),
        })
    }

    // Notes the reference, unless it was noted before.
    fn note(&mut self, before: &Ledger, after: &Ledger, reference: &OutRef) -> Result<(), NoMemory>
        requires { AreOf before.now.utxo after.now.utxo self.old }
        ensures of { OnOk result (AreOf before.now.utxo after.now.utxo self.new) }
        ensures seen { OnOk result
            (self.new.seen.keys ≡ insert_key same_ref self.old.seen.keys reference.now) }
    {
        if !self.seen.insert(*reference)? {
            return Ok(());
        }
        push_output(&mut self.spent, before, reference)?;
        push_leading(&mut self.made, after, reference)
    }

    // Notes all of these.
    fn note_all(
        &mut self,
        before: &Ledger,
        after: &Ledger,
        references: &[OutRef],
    ) -> Result<(), NoMemory>
        requires of { AreOf before.now.utxo after.now.utxo self.old }
        requires none { self.old.seen.keys ≡ [] }
        ensures of { OnOk result (AreOf before.now.utxo after.now.utxo self.new) }
        ensures seen { OnOk result ((r : OutRef)
            → list_any (same_ref r) self.new.seen.keys ≡ list_any (same_ref r) references.now) }
        ensures count { OnOk result (length self.new.seen.keys ≤ length references.now) }
    {
        for reference in references {
            self.note(before, after, reference)?;
        }
        Ok(())
    }
}

impl Undo {
    ghost use Rattle.std.specs.Prelude.{◌≡◌, IfOk, length};
    ghost use Rattle.mp_tx.specs.Undo.{CanUndo, GoesBack, IsWithin, DifferAt, undone};

    /// The undo of a block, from the ledger states before and after it. They may differ only at these references.
    ///
    /// # Errors
    /// `NoMemory`.
    pub fn between(
        memory: Memory,
        before: &Ledger,
        after: &Ledger,
        touched: &[OutRef],
    ) -> Result<Undo, NoMemory>
        requires { DifferAt touched.now before.now after.now }
        ensures back { IfOk result (λ u. GoesBack after.now u before.now) }
        ensures within { IfOk result (IsWithin (length touched.now)) }
    {
        let mut notes = Notes::none(memory, before.salt(), touched.len())?;
        notes.note_all(before, after, touched)?;
        let Notes {
            seen: _,
            spent,
            made,
        } = notes;
        Ok(Undo {
            tick: before.tick(),
            block_bytes: before.block_bytes(),
            spent,
            made,
        })
    }

    /// The ledger state before the block, given the one after it. That one doesn't change, and shares with the new one
    /// what both have.
    ///
    /// # Errors
    /// `NoMemory`.
    pub fn apply(&self, memory: Memory, after: &Ledger) -> Result<Ledger, NoMemory>
        requires { CanUndo after.now self.now }
        ensures { IfOk result (λ l. l ≡ undone after.now self.now) }
    {
        let spent = shares(memory, &self.spent)?;
        put_back(
            memory,
            after,
            self.tick,
            self.block_bytes,
            &self.made,
            spent,
        )
    }
}
