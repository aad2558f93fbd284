//! Two threads of a race that wait for each other. If one thread did the work of both, they wouldn't meet.
use crate::cases::race_text;
use mp_memory::Memory;
use mp_race::Gate;
use mp_tx::TxId;
use std::io;
use std::sync::Wait;
use std::sync::atomic::{AtomicU64, Ordering};
use std::thread::Threads;

// How often a waiting thread looks for the other at most.
const MOST_LOOKS: u64 = 1_000_000_000;

// Which calls wait.
#[derive(Clone, Copy, PartialEq, Eq)]
enum Waits {
    // Those before the tasks 0 and 1.
    Starts,
    // Those before a signature is checked.
    Checks,
}

// Delays each of two calls until the other has begun.
#[derive(Drop)]
struct MeetGate {
    waits: Waits,
    begun: AtomicU64,
    met: AtomicU64,
}

impl MeetGate {
    fn of(waits: Waits) -> MeetGate {
        MeetGate {
            waits,
            begun: AtomicU64::new(0),
            met: AtomicU64::new(0),
        }
    }

    fn has_both(&self) -> bool {
        for _ in 0..MOST_LOOKS {
            if self.begun.load(Ordering::SeqCst) >= 2 {
                return true;
            }
        }
        false
    }

    // How many have met, if this many transactions were accepted.
    fn met_of(&self, accepted: u64) -> u64 {
        if accepted == 2 {
            self.met.load(Ordering::SeqCst)
        } else {
            0
        }
    }

    fn meet(&self) {
        self.begun.fetch_add(1, Ordering::SeqCst);
        if self.has_both() {
            self.met.fetch_add(1, Ordering::SeqCst);
        }
    }
}

impl Gate for MeetGate {
    fn start(&self, _worker: u32, task: u64) {
        if self.waits == Waits::Starts && task < 2 {
            self.meet();
        }
    }

    fn check(&self, _id: &TxId) {
        if self.waits == Waits::Checks {
            self.meet();
        }
    }
}

const SIGNED: &[u8] = b"out g0 100\nout g1 100\ntx a in=g0 out=100 sign=1\n\
    tx b in=g1 out=100 sign=2\nsubmit a\nsubmit b\n";

// How many calls have met, if both transactions are accepted.
fn met<R: Threads + Wait + Sync>(rt: &R, memory: Memory, waits: Waits) -> u64 {
    let gate = MeetGate::of(waits);
    match race_text(rt, memory, SIGNED, 2, &gate) {
        Ok(numbers) => gate.met_of(numbers[0]),
        Err(_) => 0,
    }
}

/// How many cases hold.
pub fn held<R: Print + Threads + Wait + Sync>(rt: &R, memory: Memory) -> io::Result<u64> {
    let mut held: u64 = 0;
    for waits in [Waits::Starts, Waits::Checks] {
        let met = met(rt, memory, waits);
        if met == 2 {
            held = held.saturating_add(1);
        } else {
            println!(rt; "two calls of two workers: {met} met")?;
        }
    }
    Ok(held)
}
