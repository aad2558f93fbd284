//! Reports that were worked out by hand: each scenario leads to its report, whatever the schedule.
use crate::cases::{Ended, Numbers, race_text};
use mp_memory::{Memory, NoMemory};
use mp_race::NoGate;
use mp_testing::{Ending, Failures, fail_each};
use std::io;
use std::sync::Wait;
use std::thread::Threads;

// A scenario, the number of workers, and how the race ends.
type Case = (&'static [u8], u32, Ended);

// One of the two spends the output. If one worker has both submits, the second finds the first. The next ledger state has the
// same outputs, and `b` never was in the pool. A worker without tasks does nothing.
const CASES: [Case; 9] = [
    (b"", 1, Ok([0, 0, 0, 0, 0, 0, 0])),
    (b"last 7\nlimit 1\n", 3, Ok([0, 0, 0, 0, 0, 0, 7])),
    (
        b"out g0 100\ntx a in=g0 out=100\ntx k in=g0 out=60 out=40\nsubmit a\nsubmit k\n",
        2,
        Ok([1, 1, 0, 0, 0, 1, 1]),
    ),
    (
        b"out g0 100\nout g1 50\ntx a in=g0 out=100\ntx b in=g1 out=50\n\
        submit a\nsync 0 g0 g1\nremove b\nsnapshot\nsubmit a\n",
        4,
        Ok([1, 1, 1, 1, 1, 3, 1]),
    ),
    (
        b"last 40\nlimit 2\nout g0 100\nout g1 100\nout g2 100\ntx a in=g0 out=100\n\
        tx b in=g1 out=100\ntx c in=g2 out=100\nsubmit a\nsubmit b\nsubmit c\nsnapshot\n",
        64,
        Ok([2, 1, 0, 0, 1, 2, 42]),
    ),
    (
        b"snapshot\n# a comment\nsnapshot\nafter 0\nafter 0\n",
        2,
        Err((2, 4)),
    ),
    (b"snapshot\nlimit 9\n", 2, Err((2, 2))),
    (b"snapshot\nout g0 1\n", 2, Err((2, 2))),
    (b"for 0\nnothing\n", 2, Err((2, 1))),
];

fn count(rt: &impl Print, what: &str, seen: Ended, wanted: Ended) -> io::Result<u64> {
    if seen == wanted {
        return Ok(1);
    }
    println!(rt; "{what}: found {seen:?}, wanted {wanted:?}")?;
    Ok(0)
}

fn held_cases<R: Print + Threads + Wait + Sync>(rt: &R, memory: Memory) -> io::Result<u64> {
    let mut held: u64 = 0;
    for (text, workers, wanted) in CASES {
        let seen = race_text(rt, memory, text, workers, &NoGate);
        held = held.saturating_add(count(rt, "a race", seen, wanted)?);
    }
    Ok(held)
}

// Adds a line of the form with the number for each `#`.
fn put_line(
    memory: Memory,
    text: &mut Vec<u8, Memory>,
    form: &[u8],
    number: u32,
) -> Result<(), NoMemory> {
    for byte in form {
        if *byte == b'#' {
            text.extend_from_slice(number.to_string(memory)?.as_bytes())?;
        } else {
            text.push(*byte)?;
        }
    }
    Ok(())
}

// `number` transactions, each of which spends an output of its own.
fn independent(memory: Memory, number: u32) -> Result<Vec<u8, Memory>, NoMemory> {
    let mut text = Vec::new(memory);
    text.extend_from_slice(b"block 1000000\n")?;
    for form in [
        b"out g# 100\n".as_slice(),
        b"tx t# in=g# out=100\n".as_slice(),
        b"submit t#\n".as_slice(),
    ] {
        for place in 0..number {
            put_line(memory, &mut text, form, place)?;
        }
    }
    Ok(text)
}

// How many transactions, and how many workers.
const INDEPENDENT: [(u32, u32); 3] = [(100, 4), (100, 64), (10_000, 64)];

fn held_independent<R: Print + Threads + Wait + Sync>(rt: &R, memory: Memory) -> io::Result<u64> {
    let mut held: u64 = 0;
    for (number, workers) in INDEPENDENT {
        let wanted = u64::from(number);
        let seen = match independent(memory, number) {
            Ok(text) => race_text(rt, memory, &text, workers, &NoGate),
            Err(_) => Err((1, 0)),
        };
        let report: Numbers = [wanted, 0, 0, 0, 0, wanted, wanted];
        held = held.saturating_add(count(rt, "independent", seen, Ok(report))?);
    }
    Ok(held)
}

// The least number of allocations of a race.
const FEWEST: u64 = 20;

fn run_case<R: Threads + Wait + Sync>(rt: &R, memory: Memory, case: Case, nth: u64) -> Ending {
    let (text, workers, wanted) = case;
    memory.refuse(nth);
    let seen = race_text(rt, memory, text, workers, &NoGate);
    Ending::of(seen == wanted, seen == Err((1, 0)))
}

fn held_refusals<R: Print + Threads + Wait + Sync>(rt: &R, memory: Memory) -> io::Result<u64> {
    let mut held: u64 = 0;
    for case in CASES {
        let (text, _, wanted) = case;
        let failures = fail_each(&memory, |nth| run_case(rt, memory, case, nth));
        let are_many = match failures {
            Some(Failures { all, .. }) => FEWEST <= all || text.is_empty() || wanted.is_err(),
            None => false,
        };
        if are_many {
            held = held.saturating_add(1);
        } else {
            let what = "a race at refused growths";
            println!(rt; "{what}: found {failures:?}")?;
        }
    }
    Ok(held)
}

/// How many cases hold.
pub fn held<R: Print + Threads + Wait + Sync>(rt: &R, memory: Memory) -> io::Result<u64> {
    let cases = held_cases(rt, memory)?;
    let independent = held_independent(rt, memory)?;
    let refusals = held_refusals(rt, memory)?;
    Ok(cases.saturating_add(independent).saturating_add(refusals))
}
