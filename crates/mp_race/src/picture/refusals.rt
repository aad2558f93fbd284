//! The refusals of each worker, in piles.

use crate::picture::mark::{Kind, Mark};
use mp_memory::{Memory, NoMemory};

/// A refusal, and the number of refusals of the same worker at the same place below it in the pile.
#[derive(Clone, Copy)]
pub struct Piled {
    pub worker: u32,
    pub place: u64,
    pub rank: u64,
}

// The refusals of these workers at no more than this many entries, each as the first of its pile.
fn refusals(
    memory: Memory,
    workers: u32,
    entries: u64,
    marks: &[Mark],
) -> Result<Vec<Piled, Memory>, NoMemory> {
    let mut refusals = Vec::new(memory);
    for mark in marks {
        if mark.kind == Kind::Refused && mark.worker < workers && mark.place <= entries {
            let refusal = Piled {
                worker: mark.worker,
                place: mark.place,
                rank: 0,
            };
            refusals.push(refusal)?;
        }
    }
    Ok(refusals)
}

// The rank of the next refusal in its pile.
fn next_rank(before: Piled, refusal: &Piled) -> u64 {
    if before.worker == refusal.worker && before.place == refusal.place {
        before.rank.saturating_add(1)
    } else {
        0
    }
}

// Numbers the refusals of each pile, which are adjacent.
fn rank(refusals: &mut [Piled]) {
    let mut before: Option<Piled> = None;
    for refusal in refusals.iter_mut() {
        if let Some(before) = before {
            refusal.rank = next_rank(before, refusal);
        }
        before = Some(*refusal);
    }
}

/// The refusals of these workers at no more than this many entries, in piles.
pub fn pile(
    memory: Memory,
    workers: u32,
    entries: u64,
    marks: &[Mark],
) -> Result<Vec<Piled, Memory>, NoMemory> {
    let mut refusals = refusals(memory, workers, entries, marks)?;
    refusals.sort_by_key(|refusal| (refusal.worker, refusal.place))?;
    rank(&mut refusals);
    Ok(refusals)
}
