//! Layers of changes, the newest first.

ghost use Rattle.std.specs.Prelude.{◌≡◌, ◌≤◌, ◌++◌, fold, length, IfOk, OnOk, [], option_copied};
ghost use Rattle.std.specs.Map.{lookup};
ghost use Rattle.mp_tx.specs.Reference.{same_ref};
ghost use Rattle.indexmap.specs.IndexMap.{hasher_of};
ghost use Rattle.mp_tx.specs.Inside.Changes.{with_earlier};
ghost use Rattle.mp_tx.specs.Inside.Tables.{all_of};

use crate::ledger::change::{Change, Changes, join};
use crate::reference::OutRef;
use mp_memory::{Memory, NoMemory};
use std::marker::Model;
use std::sync::Arc;

/// A layer has at least this many times as many changes as all layers above it.
pub const RATIO: usize = 8;

/// Changes that several owners may share.
pub struct Layer {
    changes: Arc<Changes, Memory>,
}

impl Drop for Layer {
    fn drop(self) {
        let Layer { changes: _ } = self;
    }
}

impl Model for Layer {
    ghost use Rattle.std.specs.Arc.{arc_value};
    ghost use Rattle.mp_tx.specs.Inside.Tables as told;
    ghost use Rattle.mp_tx.specs.Inside.Tables.{layer_of};

    ghost Value = { told.Layer };

    ghost view = { λ l. layer_of (arc_value l.changes) };
}

impl Layer {
    ghost use Rattle.std.specs.Prelude.{◌≡◌, IfOk};
    ghost use Rattle.mp_tx.specs.Inside.Tables.{layer_of};

    fn of(memory: Memory, changes: Changes) -> Result<Layer, NoMemory>
        ensures { IfOk result (λ l. l ≡ layer_of changes) }
    {
        Ok(Layer {
            changes: Arc::new(memory, changes)?,
        })
    }

    fn share(&self) -> Result<Layer, NoMemory>
        ensures { IfOk result (λ l. l ≡ self.now) }
    {
        Ok(Layer {
            changes: Arc::try_clone(&self.changes)?,
        })
    }

    fn changes(&self) -> &Changes
        ensures { result.now.entries ≡ self.now.noted }
    {
        &self.changes
    }
}

/// Layers of changes, the newest first. Several owners may share them.
pub struct Layers {
    layers: Option<Arc<Vec<Layer, Memory>, Memory>>,
}

impl Drop for Layers {
    fn drop(self) {
        let Layers { layers: _ } = self;
    }
}

impl Model for Layers {
    ghost use Rattle.std.specs.Prelude.{List};
    ghost use Rattle.mp_tx.specs.Inside.Tables as told;

    ghost Value = { List told.Layer };

    ghost use Rattle.mp_tx.specs.Inside.Layers.{layers_of};

    ghost view = { layers_of };
}

impl Layers {
    ghost use Rattle.std.specs.Prelude.{◌≡◌, ◌∷◌, [], IfOk};
    ghost use Rattle.mp_tx.specs.Inside.Tables.{layer_of};

    /// No layers.
    pub fn none() -> Layers
        ensures { result ≡ [] }
    {
        Layers { layers: None }
    }

    /// The changes as a layer on top of the older ones.
    pub fn over(memory: Memory, changes: Changes, older: &[Layer]) -> Result<Layers, NoMemory>
        ensures { IfOk result (λ l. l ≡ layer_of changes ∷ older.now) }
    {
        let mut layers = Vec::new(memory);
        layers.push(Layer::of(memory, changes)?)?;
        push_shares(&mut layers, older)?;
        Ok(Layers {
            layers: Some(Arc::new(memory, layers)?),
        })
    }

    /// The same layers, shared.
    pub fn share(&self) -> Result<Layers, NoMemory>
        ensures { IfOk result (λ l. l ≡ self.now) }
    {
        let layers = match &self.layers {
            Some(layers) => Some(Arc::try_clone(layers)?),
            None => None,
        };
        Ok(Layers { layers })
    }

    /// The layers in their order.
    pub fn as_slice(&self) -> &[Layer]
        ensures { result.now ≡ self.now }
    {
        match &self.layers {
            Some(layers) => layers,
            None => &[],
        }
    }
}

// Appends shares of the layers.
fn push_shares(layers: &mut Vec<Layer, Memory>, older: &[Layer]) -> Result<(), NoMemory>
    ensures { OnOk result (layers.new.items ≡ layers.old.items ++ older.now) }
{
    for layer in older {
        layers.push(layer.share()?)?;
    }
    Ok(())
}

/// The last change of the reference, if there is one.
pub fn last_change<'a>(layers: &'a [Layer], reference: &OutRef) -> Option<&'a Change>
    ensures { option_copied result ≡ lookup (same_ref reference.now) (all_of layers.now) }
{
    for layer in layers {
        if let Some(change) = layer.changes().get(reference) {
            return Some(change);
        }
    }
    None
}

/// How many of the newest layers have to be joined with changes of this length, so that the other layers are long
/// enough.
pub fn count_short(layers: &[Layer], above: usize) -> usize
    ensures { result ≤ length layers.now }
{
    let mut above = above;
    for (count, layer) in layers.iter().enumerate() {
        let length = layer.changes().len();
        if length / RATIO >= above {
            return count;
        }
        above = above.saturating_add(length);
    }
    layers.len()
}

/// Records the changes of these layers, which are older, unless a newer change of the reference exists.
pub fn join_all(changes: &mut Changes, layers: &[Layer]) -> Result<(), NoMemory>
    ensures noted { OnOk result (changes.new.entries
        ≡ fold with_earlier changes.old.entries (all_of layers.now)) }
    ensures salt { OnOk result (hasher_of changes.new ≡ hasher_of changes.old) }
{
    for layer in layers {
        join(changes, layer.changes())?;
    }
    Ok(())
}
