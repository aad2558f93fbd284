//! Allocations of several threads, and values that cross threads.
use crate::rows::Row;
use crate::tickets::{one_bucket, pair};
use mp_memory::Memory;
use mp_tickets::TicketList;
use std::sync::Arc;
use std::thread;
use std::thread::Threads;

const GROWTHS: u64 = 50;

fn refusals(memory: Memory) -> u64 {
    let mut refusals = 0u64;
    for growth in 0..GROWTHS {
        if Box::new(memory, growth).is_err() {
            refusals = refusals.wrapping_add(1);
        }
    }
    refusals
}

// How many allocations of two threads fail, and whether a failure is armed afterwards.
fn grow_in_two(rt: &impl Threads, memory: Memory, nth: u64) -> [u64; 2] {
    memory.refuse(nth);
    let (first, second) = thread::join(rt, || refusals(memory), || refusals(memory));
    [first.wrapping_add(second), u64::from(memory.waits())]
}

// For how many allocations of two threads the failure occurs once, and isn't armed afterwards.
fn refused_once(rt: &impl Threads, memory: Memory) -> Option<[u64; 1]> {
    let mut growths = 0u64;
    for nth in 1..=2 * GROWTHS {
        if grow_in_two(rt, memory, nth) == [1, 0] {
            growths = growths.wrapping_add(1);
        }
    }
    Some([growths])
}

// How many fail if the allocation after theirs is to fail, whether that failure is armed, and whether it then occurs.
fn refused_after(rt: &impl Threads, memory: Memory) -> Option<[u64; 3]> {
    let [refusals, waits] = grow_in_two(rt, memory, 2 * GROWTHS + 1);
    let is_refused = u64::from(Box::new(memory, 0u8).is_err());
    Some([refusals, waits, is_refused])
}

// Pushes 4 in another thread, and returns whether that succeeded.
fn push_there(rt: &impl Threads, mut bytes: Vec<u8, Memory>) -> Option<(Vec<u8, Memory>, bool)> {
    let sent = thread::spawn(rt, move || {
        let pushed = bytes.push(4).is_ok();
        (bytes, pushed)
    });
    match sent {
        Ok(sent) => Some(sent.join(rt)),
        Err(_) => None,
    }
}

fn vector_there(rt: &impl Threads, memory: Memory) -> Option<[u64; 2]> {
    let Ok(bytes) = Vec::from_slice(memory, &[3]) else {
        return None;
    };
    let (bytes, pushed) = push_there(rt, bytes)?;
    let is_right = bytes.as_slice() == [3, 4].as_slice();
    Some([u64::from(pushed), u64::from(is_right)])
}

// What two threads read from one value.
fn shared_there(rt: &impl Threads, memory: Memory) -> Option<[u64; 2]> {
    let Ok(shared) = Arc::new(memory, 9u64) else {
        return None;
    };
    let Ok(theirs) = Arc::try_clone(&shared) else {
        return None;
    };
    let (here, there) = thread::join(rt, || *shared, move || *theirs);
    Some([here, there])
}

// Removes an item in another thread.
fn unlink_there(
    rt: &impl Threads,
    mut list: TicketList<u64>,
) -> Option<(TicketList<u64>, Option<u64>)> {
    let sent = thread::spawn(rt, move || {
        let taken = list.unlink(1025);
        (list, taken)
    });
    match sent {
        Ok(sent) => Some(sent.join(rt)),
        Err(_) => None,
    }
}

// The item removed there, the one removed here, then the first and how many are left.
fn list_there(rt: &impl Threads, memory: Memory) -> Option<[u64; 5]> {
    let (mut list, taken) = unlink_there(rt, one_bucket(memory)?)?;
    let then = list.unlink(1).unwrap_or(0);
    let [front, first] = pair(list.front());
    Some([taken.unwrap_or(0), then, front, first, list.len() as u64])
}

/// Handles that threads share, and values that cross threads.
pub fn handles(rt: &impl Threads, memory: Memory) -> [Row; 4] {
    [
        Row::seen(
            "each growth of two threads",
            refused_once(rt, memory),
            [100],
        ),
        Row::seen(
            "the growth after theirs",
            refused_after(rt, memory),
            [0, 1, 1],
        ),
        Row::seen("a vector in a thread", vector_there(rt, memory), [1, 1]),
        Row::seen("a value of two threads", shared_there(rt, memory), [9, 9]),
    ]
}

/// A ticket list that goes to a thread and comes back.
pub fn lists(rt: &impl Threads, memory: Memory) -> [Row; 1] {
    let wanted = [102_500, 100, 2049, 204_900, 1];
    [Row::seen("a list in a thread", list_there(rt, memory), wanted)]
}
