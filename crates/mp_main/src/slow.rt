//! Slow checks of signatures, for measurements.

use mp_race::Gate;
use mp_tx::TxId;
use std::hint::spin_loop;
use std::rt::Clock;
use std::time::Instant;

/// Makes each check of a signature take this long, by spinning. It is for measurements.
#[derive(Clone, Copy)]
pub struct Slow<'a, C: Clock + Sync> {
    pub clock: &'a C,
    pub micros: u32,
}

fn is_over(clock: &impl Clock, start: &Instant, micros: u32) -> bool {
    match start.elapsed(clock) {
        Ok(passed) => passed.as_micros() >= u128::from(micros),
        Err(_) => true,
    }
}

// Waits this long. Without a clock it doesn't wait.
fn wait(clock: &impl Clock, micros: u32) {
    let Ok(start) = Instant::now(clock) else {
        return;
    };
    for _ in 0..u64::MAX {
        if is_over(clock, &start, micros) {
            return;
        }
        spin_loop();
    }
}

impl<C: Clock + Sync> Gate for Slow<'_, C> {
    fn start(&self, _worker: u32, _task: u64) {}

    fn check(&self, _id: &TxId) {
        if self.micros > 0 {
            wait(self.clock, self.micros);
        }
    }
}
