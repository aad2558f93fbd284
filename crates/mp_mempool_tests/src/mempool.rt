//! The pool that many callers share: what they hear and see, threads that share a pool, and each call with failing
//! allocations. Tables have the calls and the expected results, and one function plays a table on a new pool. Pools
//! hand over to successors.
mod calls;
mod freed;
mod growths;
mod heard;
mod meeting;
mod opening;
mod pools;
mod successors;
mod tables;
mod threads;
mod unshown;

use crate::mempool::freed::held_freed;
use crate::mempool::growths::held_growths;
use crate::mempool::opening::held_openings;
use crate::mempool::successors::held_successors;
use crate::mempool::tables::held_tables;
use crate::mempool::threads::held_threads;
use crate::mempool::unshown::held_unshown;
pub use calls::ask;
use mp_testing::commands::Samples;
use std::io;
use std::sync::Wait;
use std::thread::Threads;
pub use tables::count_owners;

fn held_alone(rt: &(impl Print + Wait), samples: &Samples) -> io::Result<u64> {
    let tables = held_tables(rt, samples)?;
    let openings = held_openings(rt, samples)?;
    let growths = held_growths(rt, samples)?;
    let unshown = held_unshown(rt, samples)?;
    let successors = held_successors(rt, samples)?;
    let freed = held_freed(rt, samples)?;
    Ok(
        tables
            .wrapping_add(openings)
            .wrapping_add(growths)
            .wrapping_add(unshown)
            .wrapping_add(successors)
            .wrapping_add(freed),
    )
}

/// The number of cases that hold.
pub fn held<R: Print + Threads + Wait + Sync>(rt: &R, samples: &Samples) -> io::Result<u64> {
    let held = held_alone(rt, samples)?;
    Ok(held.wrapping_add(held_threads(rt, samples)?))
}
