//! Tests the pool that callers share, and reading it for peers, for properties that no contract states. These are
//! failing allocations, threads, what is dropped, and answers that were computed by hand. It prints each case that
//! fails, and the number of cases that hold in each part.
#![tactic(auto)]

mod mempool;
mod peers;
mod seqpool;
mod trials;

use mp_memory::Memory;
use mp_testing::commands::{Samples, all_samples};
use peers::costs::alike_offers;
use std::io;
use std::rt::Clock;
use std::sync::Wait;
use std::thread::Threads;

fn check_all<R: Print + Clock + Threads + Wait + Sync>(
    rt: &R,
    samples: &Samples,
) -> io::Result<()> {
    println!(rt; "mempool {}", mempool::held(rt, samples)?)?;
    println!(rt; "peers {}", peers::held(rt, samples)?)?;
    println!(rt; "seqpool {}", seqpool::held(rt, samples)?)?;
    match alike_offers(rt, samples.memory) {
        Some(count) => println!(rt; "costs of offers {count}"),
        None => println!(rt; "no offers"),
    }
}

fn samples_of(memory: Option<Memory>) -> Option<Samples> {
    all_samples(memory?)
}

fn main(rt: HostRuntime) -> io::Result<()> {
    match samples_of(Memory::new(rt.alloc()).ok()) {
        Some(samples) => check_all(&rt, &samples),
        None => println!(rt; "no samples"),
    }
}
