//! Checks of signatures that wait for each other. They are made before the lock is taken, so both finish.
use mp_memory::{Memory, NoMemory};
use mp_rules::Verifier;
use mp_tx::{Key, Sig, TxId};
use std::sync::Arc;
use std::sync::atomic::{AtomicU64, Ordering};

// The greatest number of times that a check looks for the other one.
const MOST_LOOKS: u64 = 1_000_000_000;

/// Whether each of two checks has begun, and how many have seen the other.
#[derive(Drop)]
pub struct Flags {
    first: AtomicU64,
    second: AtomicU64,
    met: AtomicU64,
}

fn is_seen(flag: &AtomicU64) -> bool {
    for _ in 0..MOST_LOOKS {
        if flag.load(Ordering::SeqCst) == 1 {
            return true;
        }
    }
    false
}

impl Flags {
    /// Before any check.
    pub fn new() -> Flags {
        Flags {
            first: AtomicU64::new(0),
            second: AtomicU64::new(0),
            met: AtomicU64::new(0),
        }
    }

    /// How many have seen the other.
    pub fn met(&self) -> u64 {
        self.met.load(Ordering::SeqCst)
    }

    fn meet(&self, own: &AtomicU64, other: &AtomicU64) {
        own.store(1, Ordering::SeqCst);
        if is_seen(other) {
            self.met.fetch_add(1, Ordering::SeqCst);
        }
    }
}

/// Accepts each signature, after it has waited for the check of the other of two keys.
#[derive(Drop)]
pub struct Meeting {
    flags: Arc<Flags, Memory>,
}

impl Meeting {
    /// The verifier with these flags.
    pub fn of(flags: &Arc<Flags, Memory>) -> Result<Meeting, NoMemory> {
        Ok(Meeting {
            flags: Arc::try_clone(flags)?,
        })
    }
}

impl Verifier for Meeting {
    ghost use Rattle.mp_testing.specs.Names.{any};

    ghost accepts = { λ _. any };

    fn verify(&self, key: &Key, _id: &TxId, _sig: &Sig) -> bool {
        if key[0] == 0 {
            self.flags.meet(&self.flags.first, &self.flags.second);
        } else {
            self.flags.meet(&self.flags.second, &self.flags.first);
        }
        true
    }
}
