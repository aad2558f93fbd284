//! Races of many commands, and histories of many lines and many tickets.
use crate::cases::{Numbers, number_of, race_text};
use mp_memory::{Memory, NoMemory};
use mp_race::{NoGate, RaceFault, RecordedHistory};
use mp_seqpool::Reply;
use mp_text::Text;
use std::io;
use std::sync::Wait;
use std::thread::Threads;

// A scenario with its first lines, lines of some forms for each number from 1 on, and its last lines; the number of workers, and
// the report.
struct Long {
    head: &'static [u8],
    forms: [&'static [u8]; 2],
    number: u32,
    tail: &'static [u8],
    workers: u32,
    wanted: Numbers,
}

// More than 65,536 entries; more than 4,096 refusals of each worker; more than 1,000 tickets in one reply.
const RACES: [Long; 3] = [
    Long {
        head: b"",
        forms: [b"sync 0\n", b""],
        number: 66_000,
        tail: b"",
        workers: 3,
        wanted: [0, 0, 0, 66_000, 0, 66_000, 0],
    },
    Long {
        head: b"out g0 100\ntx a in=g0 out=100\ntx b in=a.0 out=100\n",
        forms: [b"submit b\n", b""],
        number: 10_000,
        tail: b"",
        workers: 2,
        wanted: [0, 10_000, 0, 0, 0, 0, 0],
    },
    Long {
        head: b"block 1000000\nout g0 100\ntx t0 in=g0 out=100\n",
        forms: [b"tx t# in=t@.0 out=100\n", b"submit t@\n"],
        number: 1_100,
        tail: b"sync 0 g0\n",
        workers: 1,
        wanted: [1_100, 0, 0, 1, 0, 1_101, 1_100],
    },
];

// Adds a line of the form, with the number for each `#` and the number before it for each `@`.
fn put_line(memory: Memory, text: &mut Text, form: &[u8], number: u32) -> Result<(), NoMemory> {
    for byte in form {
        match *byte {
            b'#' => text.extend_from_slice(number.to_string(memory)?.as_bytes())?,
            b'@' => {
                let before = number.saturating_sub(1);
                text.extend_from_slice(before.to_string(memory)?.as_bytes())?
            }
            other => text.push(other)?,
        }
    }
    Ok(())
}

// Adds a line of the form for each number from 1 on.
fn put_lines(memory: Memory, text: &mut Text, form: &[u8], last: u32) -> Result<(), NoMemory> {
    for number in 1..=last {
        put_line(memory, text, form, number)?;
    }
    Ok(())
}

fn scenario_of(memory: Memory, long: &Long) -> Result<Text, NoMemory> {
    let mut text = Vec::from_slice(memory, long.head)?;
    for form in long.forms {
        put_lines(memory, &mut text, form, long.number)?;
    }
    text.extend_from_slice(long.tail)?;
    Ok(text)
}

fn held_races<R: Print + Threads + Wait + Sync>(rt: &R, memory: Memory) -> io::Result<u64> {
    let mut held: u64 = 0;
    for long in &RACES {
        let seen = match scenario_of(memory, long) {
            Ok(text) => race_text(rt, memory, &text, long.workers, &NoGate),
            Err(NoMemory) => Err((1, 0)),
        };
        if seen == Ok(long.wanted) {
            held = held.saturating_add(1);
        } else {
            let wanted = long.wanted;
            println!(rt; "a long race: found {seen:?}, wanted {wanted:?}")?;
        }
    }
    Ok(held)
}

// The fault's number and its line or place, if this line follows 5,000 entries of a history.
fn fault_behind(memory: Memory, last: &[u8]) -> Result<(u64, u64), RaceFault> {
    let mut text = Vec::from_slice(memory, b"workers 1 entries 9000\n")?;
    put_lines(memory, &mut text, b"entry @ 0 @ kept dropped\n", 5_000)?;
    text.extend_from_slice(last)?;
    match RecordedHistory::parse(memory, &text) {
        Ok(_) => Ok((0, 0)),
        Err(fault) => Ok(number_of(&fault)),
    }
}

// The line after the entries, and how the reading ends.
const BEHIND: [(&[u8], (u64, u64)); 3] = [
    (b"entry x\n", (2, 5_002)),
    (b"entry 5000 0 5000 kept dropped", (2, 5_002)),
    (b"", (6, 5_000)),
];

fn held_faults(rt: &impl Print, memory: Memory) -> io::Result<u64> {
    let mut held: u64 = 0;
    for (last, wanted) in BEHIND {
        let seen = fault_behind(memory, last).unwrap_or((1, 0));
        if seen == wanted {
            held = held.saturating_add(1);
        } else {
            println!(rt; "a history's fault: found {seen:?}, wanted {wanted:?}")?;
        }
    }
    Ok(held)
}

// This many tickets take more than 2^24 bytes.
const TICKETS: u32 = 2_300_000;

// How many tickets are read from a history whose one entry keeps this many.
fn tickets_read(memory: Memory) -> Result<u64, RaceFault> {
    let mut text = Vec::from_slice(memory, b"workers 1 entries 1\nentry 0 0 0 kept")?;
    put_lines(memory, &mut text, b" #", TICKETS)?;
    text.extend_from_slice(b" dropped\n")?;
    if text.len() <= 1 << 24 {
        return Ok(0);
    }
    let history = RecordedHistory::read(memory, &mut text.as_slice())?;
    match history.told.first() {
        Some(told) => match &told.reply {
            Reply::Synced { kept, .. } => Ok(kept.as_slice().len() as u64),
            _ => Ok(0),
        },
        None => Ok(0),
    }
}

fn held_tickets(rt: &impl Print, memory: Memory) -> io::Result<u64> {
    let seen = tickets_read(memory).unwrap_or(0);
    if seen == u64::from(TICKETS) {
        return Ok(1);
    }
    println!(rt; "a long entry: found {seen} tickets")?;
    Ok(0)
}

/// How many cases hold.
pub fn held<R: Print + Threads + Wait + Sync>(rt: &R, memory: Memory) -> io::Result<u64> {
    let races = held_races(rt, memory)?;
    let faults = held_faults(rt, memory)?;
    let tickets = held_tickets(rt, memory)?;
    Ok(races.saturating_add(faults).saturating_add(tickets))
}
