//! Ledger states that follow blocks.

use crate::measurement::STEPS;
use crate::samples::{MANY, reference};
use mp_memory::Memory;
use mp_testing::output;
use mp_tx::{Ledger, OutRef, Output};
use std::rt::Clock;
use std::time::{Duration, Instant};

/// The number of outputs that a block spends, and of those that it makes.
const OUTPUTS: usize = 100;

// The references of the outputs, oldest first: those of a ledger state of this size, and those that the blocks make.
fn references_upon(memory: Memory, size: u64) -> Option<Vec<OutRef, Memory>> {
    let last = size.saturating_add(STEPS.saturating_mul(OUTPUTS as u64));
    let mut references = Vec::new(memory);
    for number in 0..last {
        references.push(reference(number)).ok()?;
    }
    Some(references)
}

fn made_by(
    memory: Memory,
    references: &[OutRef],
    sample: &Output,
) -> Option<Vec<(OutRef, Output), Memory>> {
    let mut made = Vec::with_capacity(memory, references.len()).ok()?;
    for reference in references {
        made.push((*reference, sample.share().ok()?)).ok()?;
    }
    Some(made)
}

// The ledger state after a block that spends the first of the references, and makes those from the index `size` on.
fn follow(
    memory: Memory,
    ledger: &Ledger,
    references: &[OutRef],
    size: usize,
    sample: &Output,
) -> Option<Ledger> {
    let spent = references.get(..OUTPUTS)?;
    let made = references.get(size..)?.get(..OUTPUTS)?;
    let made = made_by(memory, made, sample)?;
    ledger.after(memory, 0, MANY, spent, made).ok()
}

fn follow_all(
    memory: Memory,
    ledger: &Ledger,
    references: &[OutRef],
    size: usize,
    sample: &Output,
) -> Option<Ledger> {
    let mut state = ledger.share().ok()?;
    let mut rest = references;
    for _ in 0..STEPS {
        state = follow(memory, &state, rest, size, sample)?;
        rest = rest.get(OUTPUTS..)?;
    }
    Some(state)
}

// Whether the state has the last of the outputs, and no longer the first.
fn has_followed(state: &Ledger, references: &[OutRef]) -> bool {
    match (references.first(), references.last()) {
        (Some(first), Some(last)) => state.get(first).is_none() && state.get(last).is_some(),
        _ => false,
    }
}

/// The time for the ledger states after 1,000 blocks, one after the other, each of which spends the 100 oldest outputs
/// and makes 100. Returns `None` if the last state isn't as expected.
pub fn time_blocks(
    clock: &impl Clock,
    memory: Memory,
    ledger: &Ledger,
    size: u64,
) -> Option<Duration> {
    let references = references_upon(memory, size)?;
    let sample = output(memory, 100).ok()?;
    let start = Instant::now(clock).ok()?;
    let state = follow_all(memory, ledger, &references, size as usize, &sample)?;
    let time = start.elapsed(clock).ok()?;
    if has_followed(&state, &references) {
        return Some(time);
    }
    None
}
