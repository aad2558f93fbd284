//! Ways to hold a conversation.

use crate::streams::Fails;
use crate::{clients, serving};
use mp_memory::Memory;
use mp_testing::FailingReader;
use std::alloc::Global;
use std::sync::Wait;
use std::thread::Threads;

/// A way to hold a conversation.
#[derive(Clone, Copy)]
pub enum Way {
    /// With a pool of one thread.
    Alone,
    /// As an operator without clients.
    Operator,
}

/// What holds conversations.
#[derive(Clone, Copy)]
pub struct Holder {
    pub memory: Memory,
    pub alloc: Global,
    pub way: Way,
}

/// The number of the fault with which the conversation of these lines ends, or 0, and what is written. The device reads and writes
/// a given number of bytes at once.
pub fn converse<R: Threads + Wait + Sync>(
    rt: &R,
    holder: Holder,
    lines: FailingReader,
    at_once: usize,
    fails: Fails,
) -> (u64, Vec<u8, Global>) {
    let Holder { memory, alloc, way } = holder;
    match way {
        Way::Alone => serving::hold(memory, alloc, lines, at_once, fails, 0),
        Way::Operator => clients::hold_operator(rt, memory, alloc, lines, at_once, fails),
    }
}
