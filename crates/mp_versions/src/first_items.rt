//! The first items of a run, as items of their own.
ghost use Rattle.std.specs.Prelude.{◌≡◌, ◌≢◌, [], take, IfOk, OnOk, OnErr};
ghost use Rattle.mp_seqpool.specs.Item.{items_of};

use crate::items::Items;
use crate::run::RunWithin;
use mp_memory::{Memory, NoMemory};
use mp_seqpool::Item;

// Adds the run's first items, at most `count`, to an empty vector.
fn push_first(
    items: &mut Vec<Item, Memory>,
    mut run: RunWithin<'_>,
    count: u64,
) -> Result<(), NoMemory>
    requires { items.old.items ≡ [] }
    ensures items { OnOk result (items_of items.new.items ≡ take count run.entry) }
    ensures wanting { OnErr result (take count run.entry ≢ []) }
{
    for _ in 0..count {
        let Some(item) = run.next() else {
            return Ok(());
        };
        items.push(item.share()?)?;
    }
    Ok(())
}

/// The run's first items, at most `count`. They share their transactions. If there are none, nothing is allocated.
pub(crate) fn share_first(memory: Memory, run: RunWithin<'_>, count: u64) -> Result<Items, NoMemory>
    ensures items { IfOk result (λ items. items ≡ take count run.entry) }
    ensures wanting { OnErr result (take count run.entry ≢ []) }
{
    let mut items = Vec::new(memory);
    push_first(&mut items, run, count)?;
    Ok(Items::of(items))
}
