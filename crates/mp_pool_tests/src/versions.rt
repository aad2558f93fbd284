//! Versions: what is read of them, where chunks and pages end, what is shared, and the boards.
mod board;
mod both;
mod freed;
mod pages;
mod reading;
mod sharing;

use crate::versions::board::held_boards;
use crate::versions::pages::held_pages;
use crate::versions::reading::held_readings;
use crate::versions::sharing::held_shares;
use mp_testing::commands::Samples;
use std::io;
use std::sync::Wait;
use std::thread::Threads;

fn held_alone(rt: &impl Print, samples: &Samples) -> io::Result<u64> {
    let readings = held_readings(rt, samples)?;
    let pages = held_pages(rt, samples)?;
    let shares = held_shares(rt, samples)?;
    Ok(readings.wrapping_add(pages).wrapping_add(shares))
}

/// The number of cases that hold.
pub fn held<R: Print + Threads + Wait + Sync>(rt: &R, samples: &Samples) -> io::Result<u64> {
    let held = held_alone(rt, samples)?;
    Ok(held.wrapping_add(held_boards(rt, samples)?))
}
