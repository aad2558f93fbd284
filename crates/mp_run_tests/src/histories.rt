//! The file of a pool's history: one that keeps nothing, one that can't be written, and allocations that fail.

use crate::clients::{CHANGES, FEWEST, NONE_FAILED, Told, count_in, hold_patiently};
use crate::holding::LOST;
use mp_memory::Memory;
use mp_testing::{Seen, count, fail_each};
use std::alloc::Global;
use std::fs::{File, OpenOptions};
use std::io;
use std::sync::Wait;
use std::thread::Threads;

// What is written to it is kept nowhere.
const NOWHERE: &str = "/dev/null";

// Nothing can be written to it.
const FULL: &str = "/dev/full";

fn open(host: &HostRuntime, path: &str) -> Option<File> {
    OpenOptions::new().write(true).open(host, path).ok()
}

// How the conversation with changes ends.
fn hold<R: Threads + Wait + Sync>(
    host: &HostRuntime,
    rt: &R,
    memory: Memory,
    alloc: Global,
    path: &str,
    nth: u64,
) -> Told {
    let history = open(host, path)?;
    hold_patiently(rt, memory, alloc, Some(history), CHANGES.lines, nth)
}

// Nothing of the history can be written, so the answer to the first change is lost.
const BEFORE_CHANGES: &[u8] = b"ok\nok\nok\nok\nok\nok\nok\naccepted 1\n";

// Whether the conversation ended with this fault after these answers.
fn see_end(told: &Told, fault: u64, answers: &[u8]) -> Option<Seen> {
    let (found, text) = told.as_ref()?;
    let is_same = u64::from(text.as_slice() == answers);
    Some([u64::from(*found == fault), is_same, 0, 0, 0, 0])
}

// Each allocation fails once: whether there are many, and at how many lines the answer is lost. None if an answer isn't right.
fn see_growths<R: Threads + Wait + Sync>(
    host: &HostRuntime,
    rt: &R,
    memory: Memory,
    alloc: Global,
) -> Option<Seen> {
    let mut failed = NONE_FAILED;
    let failures = fail_each(&memory, |nth| {
        let told = hold(host, rt, memory, alloc, NOWHERE, nth);
        count_in(&mut failed, CHANGES.answers, &told)
    })?;
    let are_many = u64::from(FEWEST <= failures.all);
    let are_outside = u64::from(failed.outside > 0);
    Some([are_many, failed.lost, are_outside, 0, 0, 0])
}

/// How many cases hold. It prints the others.
pub fn held<R: Print + Threads + Wait + Sync>(
    host: &HostRuntime,
    rt: &R,
    memory: Memory,
    alloc: Global,
) -> io::Result<u64> {
    let told = hold(host, rt, memory, alloc, NOWHERE, 0);
    let seen = see_end(&told, 0, CHANGES.answers);
    let kept = count(
        rt,
        "a history that is kept nowhere",
        seen,
        [1, 1, 0, 0, 0, 0],
    )?;
    let told = hold(host, rt, memory, alloc, FULL, 0);
    let seen = see_end(&told, LOST, BEFORE_CHANGES);
    let lost = count(
        rt,
        "a history that can't be written",
        seen,
        [1, 1, 0, 0, 0, 0],
    )?;
    let seen = see_growths(host, rt, memory, alloc);
    let name = "changes with a history at refused growths";
    let grown = count(rt, name, seen, [1, 0, 1, 0, 0, 0])?;
    Ok(kept.saturating_add(lost).saturating_add(grown))
}
