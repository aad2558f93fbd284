//! Which pools open.
use crate::mempool::calls::Call;
use crate::mempool::heard::Heard;
use crate::mempool::pools::{Line, Played, play};
use crate::trials::{Trial, count_trial};
use mp_mempool::OpenRefusal;
use mp_testing::commands::Samples;
use mp_testing::{Seen, count, under_each_refusal};
use std::io;
use std::sync::Wait;

const BAD_CALLERS: Played = Played::NotOpened(OpenRefusal::BadCallers);

const BAD_LIMIT: Played = Played::NotOpened(OpenRefusal::BadLimit);

// The callers and the limit, and the result.
static ROWS: [(&str, u32, u64, Played); 9] = [
    ("a pool of 1", 1, 1, Played::AsTold),
    ("a pool of 1,024", 1_024, 1 << 32, Played::AsTold),
    ("a pool of nobody", 0, 1, BAD_CALLERS),
    ("a pool of 1,025", 1_025, 1, BAD_CALLERS),
    ("a pool of the last number", u32::MAX, 1, BAD_CALLERS),
    ("no change", 1, 0, BAD_LIMIT),
    ("2^32 and 1 changes", 1_024, (1 << 32) + 1, BAD_LIMIT),
    ("nobody and no change", 0, 0, BAD_CALLERS),
    ("1,025 and too many changes", 1_025, u64::MAX, BAD_CALLERS),
];

// The result of the opening: each caller has its pass.
fn open(rt: &impl Wait, samples: &Samples, callers: u32, limit: u64) -> Played {
    let fresh: [Line; 1] = [(0, Call::Passes, Heard::Fresh(callers as usize))];
    play(rt, samples, callers, limit, &fresh)
}

// The opening of a pool with three callers.
#[derive(Drop)]
struct Opening<'a, R: Wait> {
    rt: &'a R,
    samples: &'a Samples,
}

impl<R: Wait> mp_testing::Call for Opening<'_, R> {
    type Value = ();

    fn make(&self) -> Option<()> {
        Some(())
    }

    fn call(&self, _value: &mut ()) -> Option<Seen> {
        match open(self.rt, self.samples, 3, 1) {
            Played::NotOpened(OpenRefusal::NoMemory) => None,
            played => Some(played.seen()),
        }
    }

    fn look(&self, _value: &()) -> Seen {
        [0; 6]
    }
}

fn try_opening<R: Wait>(rt: &R, samples: &Samples) -> Trial {
    under_each_refusal(&samples.memory, &Opening { rt, samples })
}

/// The number of cases that hold.
pub fn held_openings<R: Print + Wait>(rt: &R, samples: &Samples) -> io::Result<u64> {
    let trial = try_opening(rt, samples);
    let mut held = count_trial(rt, "an opening at refused growths", trial, [0; 6], 6)?;
    for (name, callers, limit, wanted) in &ROWS {
        let seen = open(rt, samples, *callers, *limit).seen();
        held = held.wrapping_add(count(rt, name, Some(seen), wanted.seen())?);
    }
    Ok(held)
}
