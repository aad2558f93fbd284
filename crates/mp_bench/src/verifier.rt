//! A verifier that takes a fixed time.

use mp_rules::Verifier;
use mp_tx::{Key, Sig, TxId};
use std::sync::atomic::{AtomicU64, Ordering};

// This many turns took about 50 microseconds on the machine of the published figures.
const TURNS: u32 = 31_250;

/// A verifier that accepts each signature after a fixed number of turns of arithmetic.
#[derive(Drop)]
pub struct Spinning {
    // The result of the last turns, so that no turn can be optimized away.
    last: AtomicU64,
}

fn turn_often(first: u64) -> u64 {
    let mut number = first;
    for _ in 0..TURNS {
        // Shift and multiply alternate, so that several turns can't be merged into one.
        number = (number ^ (number >> 29)).wrapping_mul(6_364_136_223_846_793_005);
    }
    number
}

impl Spinning {
    /// A verifier that hasn't accepted anything yet.
    pub fn new() -> Spinning {
        Spinning {
            last: AtomicU64::new(0),
        }
    }
}

impl Verifier for Spinning {
    ghost use Rattle.mp_bench.specs.Signatures.{any};

    ghost accepts = { λ _. any };

    fn verify(&self, _key: &Key, id: &TxId, _sig: &Sig) -> bool {
        self.last
            .store(turn_often(u64::from(id[0])), Ordering::SeqCst);
        true
    }
}
