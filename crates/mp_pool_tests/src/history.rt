//! Histories: audits that were computed by hand, and the history word.
mod audits;
mod committing;
mod entries;
mod handovers;

use crate::history::audits::held_audits;
use crate::history::committing::held_commits;
use crate::history::handovers::held_handovers;
use mp_testing::commands::Samples;
use std::io;
use std::sync::Wait;
use std::thread::Threads;

/// The number of cases that hold.
pub fn held<R: Print + Threads + Wait + Sync>(rt: &R, samples: &Samples) -> io::Result<u64> {
    let audits = held_audits(rt, samples)?;
    let commits = held_commits(rt, samples)?;
    let handovers = held_handovers(rt, samples)?;
    Ok(audits.wrapping_add(commits).wrapping_add(handovers))
}
