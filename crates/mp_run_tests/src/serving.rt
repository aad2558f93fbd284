//! Conversations over devices that fail, and with allocations that fail, also while a line is read.
use crate::streams::{Fails, NEVER, held_failures, streams, written};
use crate::talks::MOST_NAMES;
use crate::ways::{Holder, Way};
use mp_memory::Memory;
use mp_serve::{ConversationFault, serve};
use mp_signatures::{Scheme, Signatures};
use mp_testing::{Ending, FailingReader, Failures, Seen, count, fail_each};
use mp_tx::Salt;
use std::alloc::Global;
use std::io;
use std::sync::Wait;
use std::thread::Threads;

fn number_of(ended: Result<(), ConversationFault>) -> u64 {
    match ended {
        Ok(()) => 0,
        Err(ConversationFault::NoMemory) => 1,
        Err(ConversationFault::ReadFault) => 3,
        Err(ConversationFault::WriteFault) => 4,
        Err(ConversationFault::ManyLines) => 5,
    }
}

/// How a conversation of these lines ends, and what is written. The device reads and writes a given number of bytes at once.
pub fn hold(
    memory: Memory,
    alloc: Global,
    lines: FailingReader,
    at_once: usize,
    fails: Fails,
    refused: u64,
) -> (u64, Vec<u8, Global>) {
    let Some(streams) = streams(alloc, lines, at_once, fails) else {
        return (1, Vec::new(alloc));
    };
    let Ok(signatures) = Signatures::new(memory, Scheme::Trial) else {
        return (1, Vec::new(alloc));
    };
    let mut device = streams;
    memory.refuse(refused);
    let ended = serve(memory, signatures, Salt::new(7), MOST_NAMES, &mut device);
    (number_of(ended), written(device))
}

// Lines of which none changes another's answer, one of them with some 300 bytes.
const APART: &[u8] =
    b"# xxxxxxxxxxxxxxxxxxxxxxxxxxxxxxxxxxxxxxxxxxxxxxxxxxxxxxxxxxxxxxxxxxxxxxxxxxxxxxxxxxxxxxxxxxxxxxxxxx\
    xxxxxxxxxxxxxxxxxxxxxxxxxxxxxxxxxxxxxxxxxxxxxxxxxxxxxxxxxxxxxxxxxxxxxxxxxxxxxxxxxxxxxxxxxxxxxxxxxxxx\
    xxxxxxxxxxxxxxxxxxxxxxxxxxxxxxxxxxxxxxxxxxxxxxxxxxxxxxxxxxxxxxxxxxxxxxxxxxxxxxxxxxxxxxxxxxxxxxxxxxxx\n\
    stats\nbytes b 03\nscript s 01\nshow nobody\ndata d 010000000000000005\nsnapshot\nback 0\nforget nobody\n";

// The answer to each line, and nothing after the last line feed.
const APART_ANSWERS: [&[u8]; 10] = [
    b"ok",
    b"stats 0 0 1000000 0 0",
    b"undecodable version",
    b"ok",
    b"bad 5: no transaction 'nobody'",
    b"ok",
    b"snapshot 0 0 0",
    b"kept dropped",
    b"forgotten 0",
    b"",
];

const NO_MEMORY: &[u8] = b"fault: no memory";

// How many answers report an allocation failure instead of the expected one; none if another answer is wrong.
fn lost(told: &[u8], wanted: &[&[u8]]) -> Option<u64> {
    let mut lost: u64 = 0;
    let mut places: usize = 0;
    for line in told.split(|byte| *byte == b'\n') {
        let answer = wanted.get(places)?;
        if line == NO_MEMORY {
            lost = lost.saturating_add(1);
        } else if line != *answer {
            return None;
        }
        places = places.saturating_add(1);
    }
    (places == wanted.len()).then_some(lost)
}

// A failed allocation is reported: at the beginning by a fault, with nothing written, and later by the answer to one line.
fn hold_apart(memory: Memory, alloc: Global, nth: u64) -> Ending {
    let (fault, written) = hold(memory, alloc, FailingReader::of(APART), 11, NEVER, nth);
    match (fault, lost(&written, &APART_ANSWERS)) {
        (0, Some(0)) => Ending::Usual,
        (0, Some(1)) => Ending::NoMemory,
        (1, _) if written.is_empty() => Ending::NoMemory,
        _ => Ending::Wrong,
    }
}

// The least number of allocations of the conversation.
const FEWEST: u64 = 20;

fn held_growths(rt: &impl Print, memory: Memory, alloc: Global) -> io::Result<u64> {
    let are_told = match fail_each(&memory, |nth| hold_apart(memory, alloc, nth)) {
        Some(Failures { all, unnoticed: 0 }) => FEWEST <= all,
        _ => false,
    };
    let seen = [u64::from(are_told), 0, 0, 0, 0, 0];
    count(
        rt,
        "a conversation at refused growths",
        Some(seen),
        [1, 0, 0, 0, 0, 0],
    )
}

// A line that goes on for `filler` bytes: the fault, how much is written, and whether the report of the line ends it.
fn see_long(memory: Memory, alloc: Global, filler: usize) -> Seen {
    let (fault, written) = hold(memory, alloc, long_line(filler), 4096, NEVER, 0);
    let ends = written.ends_with(b"\nbad 2: a line has at most 4096 bytes\n");
    [fault, written.len() as u64, u64::from(ends), 0, 0, 0]
}

fn long_line(filler: usize) -> FailingReader {
    let mut lines = FailingReader::of(b"stats\n# ");
    lines.filler = filler;
    lines
}

// It may end in any way.
fn hold_long(memory: Memory, alloc: Global, filler: usize, nth: u64) -> Ending {
    let _ = hold(memory, alloc, long_line(filler), 4096, NEVER, nth);
    Ending::Usual
}

// How many allocations there are if a line goes on for `filler` bytes, or 0 for too many.
fn growths_of_long(memory: Memory, alloc: Global, filler: usize) -> u64 {
    match fail_each(&memory, |nth| hold_long(memory, alloc, filler, nth)) {
        Some(failures) => failures.all,
        None => 0,
    }
}

// A line that is too long is reported, and no more of it is kept than of a shorter one.
fn held_long(rt: &impl Print, memory: Memory, alloc: Global) -> io::Result<u64> {
    let seen = see_long(memory, alloc, 1_000_000);
    let told = count(rt, "a line of 1 MB", Some(seen), [0, 59, 1, 0, 0, 0])?;
    let short = growths_of_long(memory, alloc, 40_000);
    let long = growths_of_long(memory, alloc, 200_000);
    let seen = [u64::from(0 < short && short == long), 0, 0, 0, 0, 0];
    let kept = count(
        rt,
        "what is kept of a long line",
        Some(seen),
        [1, 0, 0, 0, 0, 0],
    )?;
    Ok(told.saturating_add(kept))
}

/// How many cases hold.
pub fn held<R: Print + Threads + Wait + Sync>(
    rt: &R,
    memory: Memory,
    alloc: Global,
) -> io::Result<u64> {
    let holder = Holder {
        memory,
        alloc,
        way: Way::Alone,
    };
    let failures = held_failures(rt, holder)?;
    let growths = held_growths(rt, memory, alloc)?;
    let long = held_long(rt, memory, alloc)?;
    Ok(failures.saturating_add(growths).saturating_add(long))
}
