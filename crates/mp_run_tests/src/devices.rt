//! Devices that fail while a scenario is read and a report is written.
use crate::cases::number_of;
use mp_memory::Memory;
use mp_race::{Report, Scenario};
use mp_testing::{Ending, FailingReader, FailingWriter, Failures, fail_each};
use std::alloc::Global;
use std::io;

const SCENARIO: &[u8] = b"out g0 100\ntx a in=g0 out=100\nsubmit a\nsnapshot\n";

const REPORT: Report = Report {
    workers: 64,
    accepted: 1,
    refused: 2,
    removes: 3,
    syncs: 4,
    reads: 5,
    entries: 8,
    last: 90,
};

const TEXT: &[u8] =
    b"race 64 accepted 1 refused 2 removes 3 syncs 4 reads 5 entries 8 last 90\naudit legal\n";

// The fault's number if the read with this number fails, or 0.
fn read_failing(memory: Memory, at_once: usize, fails_at: u64) -> u64 {
    let mut reader = FailingReader::of(SCENARIO);
    reader.at_once = at_once;
    reader.fails_at = fails_at;
    match Scenario::read(memory, &mut reader) {
        Ok(_) => 0,
        Err(fault) => number_of(&fault).0,
    }
}

// The fault's number if the write with this number fails, or 0, and how many bytes of the text are written.
fn write_failing(
    memory: Memory,
    alloc: Global,
    at_once: usize,
    fails_at: u64,
) -> (u64, Option<u64>) {
    let mut writer = FailingWriter::new(alloc);
    writer.at_once = at_once;
    writer.fails_at = fails_at;
    let fault = match REPORT.write(memory, &mut writer) {
        Ok(()) => 0,
        Err(fault) => fault.number(),
    };
    let is_front = TEXT.starts_with(&writer.taken);
    (fault, is_front.then_some(writer.taken.len() as u64))
}

// Each read fails in turn. The last one doesn't occur.
fn held_reads(rt: &impl Print, memory: Memory, at_once: usize, last: u64) -> io::Result<u64> {
    let mut held: u64 = 0;
    for fails_at in 1..=last {
        let seen = read_failing(memory, at_once, fails_at);
        let wanted = if fails_at < last { 3 } else { 0 };
        if seen == wanted {
            held = held.saturating_add(1);
        } else {
            println!(rt; "read {fails_at}: found {seen}, wanted {wanted}")?;
        }
    }
    Ok(held)
}

// How many bytes are written if the write with this number fails: those of the writes before it, or all.
fn written_before(at_once: usize, fails_at: u64) -> u64 {
    let before = fails_at.wrapping_sub(1).saturating_mul(at_once as u64);
    before.min(TEXT.len() as u64)
}

// Each write fails in turn. The last one doesn't occur.
fn held_writes(
    rt: &impl Print,
    memory: Memory,
    alloc: Global,
    at_once: usize,
    last: u64,
) -> io::Result<u64> {
    let mut held: u64 = 0;
    for fails_at in 1..=last {
        let seen = write_failing(memory, alloc, at_once, fails_at);
        let fault = if fails_at < last { 4 } else { 0 };
        let wanted = (fault, Some(written_before(at_once, fails_at)));
        if seen == wanted {
            held = held.saturating_add(1);
        } else {
            println!(rt; "write {fails_at}: found {seen:?}, wanted {wanted:?}")?;
        }
    }
    Ok(held)
}

// Nothing is written if an allocation fails, and everything otherwise.
fn write_refused(memory: Memory, alloc: Global, nth: u64) -> Ending {
    memory.refuse(nth);
    let seen = write_failing(memory, alloc, 4096, 0);
    Ending::of(seen == (0, Some(TEXT.len() as u64)), seen == (1, Some(0)))
}

fn held_growths(rt: &impl Print, memory: Memory, alloc: Global) -> io::Result<u64> {
    match fail_each(&memory, |nth| write_refused(memory, alloc, nth)) {
        Some(Failures { all, unnoticed: 0 }) if all > 0 => return Ok(1),
        _ => {}
    }
    let what = "a report at refused growths";
    println!(rt; "{what}: one isn't told, or something is written")?;
    Ok(0)
}

/// How many cases hold. The scenario has 48 bytes, and one more read finds its end. The report has 85. One read and one write
/// more than these don't occur.
pub fn held(rt: &impl Print, memory: Memory, alloc: Global) -> io::Result<u64> {
    let reads = held_reads(rt, memory, 11, 7)?;
    let bytes_read = held_reads(rt, memory, 1, 50)?;
    let writes = held_writes(rt, memory, alloc, 8, 12)?;
    let bytes_written = held_writes(rt, memory, alloc, 1, 86)?;
    let growths = held_growths(rt, memory, alloc)?;
    Ok(
        reads
            .saturating_add(bytes_read)
            .saturating_add(writes)
            .saturating_add(bytes_written)
            .saturating_add(growths),
    )
}
