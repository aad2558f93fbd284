//! Tests the sequential pool, histories and versions for properties that no contract states: threads, sharing, and
//! answers that were computed by hand. It prints each case that fails, and the number of cases that hold in each part.
#![tactic(auto)]

mod dependents;
mod history;
mod rounds;
mod seqpool;
mod versions;

use mp_memory::Memory;
use mp_testing::commands::{Samples, all_samples};
use std::io;
use std::sync::Wait;
use std::thread::Threads;

fn check_all<R: Print + Threads + Wait + Sync>(rt: &R, samples: &Samples) -> io::Result<()> {
    println!(rt; "seqpool {}", seqpool::held(rt, samples)?)?;
    println!(rt; "rounds {}", rounds::held(rt, samples)?)?;
    println!(rt; "dependents {}", dependents::held(rt, samples.memory)?)?;
    println!(rt; "history {}", history::held(rt, samples)?)?;
    println!(rt; "versions {}", versions::held(rt, samples)?)?;
    Ok(())
}

fn samples_of(memory: Option<Memory>) -> Option<Samples> {
    all_samples(memory?)
}

fn main(rt: HostRuntime) -> io::Result<()> {
    match samples_of(Memory::new(rt.alloc()).ok()) {
        Some(samples) => check_all(&rt, &samples),
        None => println!(rt; "no samples"),
    }
}
