//! Streams over bytes in memory, of which one read, write or flush fails.
ghost use Rattle.std.specs.Prelude.{◌≡◌, IfSome};
ghost use Rattle.mp_serve.specs.declared.device.Turn.TheVariants.{Listens};

use crate::ways::{Holder, converse};
use mp_serve::Streams;
use mp_testing::{FailingReader, FailingWriter, Seen, count};
use std::alloc::Global;
use std::io;
use std::io::{BufReader, ErrorKind, Write};
use std::sync::Wait;
use std::thread::Threads;

/// Which call of each kind fails, from 1. With 0 none does.
#[derive(Clone, Copy)]
pub struct Fails {
    pub read: u64,
    pub write: u64,
    pub flush: u64,
}

/// No call fails.
pub const NEVER: Fails = Fails {
    read: 0,
    write: 0,
    flush: 0,
};

/// A writer of which one flush fails.
#[derive(Drop)]
pub struct Unflushed {
    inner: FailingWriter,
    fails_at: u64,
    flushes: u64,
}

impl Write for Unflushed {
    fn write(&mut self, buf: &[u8]) -> io::Result<usize> {
        self.inner.write(buf)
    }

    fn flush(&mut self) -> io::Result<()> {
        self.flushes = self.flushes.saturating_add(1);
        if self.flushes == self.fails_at {
            return Err(io::Error::from(ErrorKind::Other));
        }
        Ok(())
    }
}

/// Streams over bytes in memory.
pub type Bytes = Streams<BufReader<FailingReader, Global>, Unflushed>;

/// Streams of these lines. Each read and write takes at most this many bytes.
pub fn streams(alloc: Global, lines: FailingReader, at_once: usize, fails: Fails) -> Option<Bytes>
    ensures { IfSome result (λ s. s.turn ≡ Listens) }
{
    let mut lines = lines;
    lines.at_once = at_once;
    lines.fails_at = fails.read;
    let mut inner = FailingWriter::new(alloc);
    inner.at_once = at_once;
    inner.fails_at = fails.write;
    let writer = Unflushed {
        inner,
        fails_at: fails.flush,
        flushes: 0,
    };
    let reader = BufReader::new(alloc, lines).ok()?;
    Some(Streams::new(reader, writer))
}

/// What was written.
pub fn written(streams: Bytes) -> Vec<u8, Global> {
    let Streams {
        reader: _,
        writer,
        turn: _,
    } = streams;
    let Unflushed {
        inner,
        fails_at: _,
        flushes: _,
    } = writer;
    let FailingWriter {
        taken,
        at_once: _,
        fails_at: _,
        writes: _,
    } = inner;
    taken
}

// Lines that end after the bytes 9, 26, 35, 44 and 45.
const LINES: &[u8] = b"out g0 5\ntx a in=g0 out=5\nsubmit a\nlookup 1\n\n";

// The answers, which end after the bytes 3, 6, 17, 26 and 29.
const ANSWERS: &[u8] = b"ok\nok\naccepted 1\nlookup a\nok\n";

// The last read, of one byte, up to which a failed read leaves this much written. The last of all finds the end of the input.
const READS: [(u64, u64); 6] = [(9, 0), (26, 3), (35, 6), (44, 17), (45, 26), (46, 29)];

// How much is written if the flush with this number fails.
const FLUSHES: [u64; 5] = [3, 6, 17, 26, 29];

// The fault, how much is written, and whether that is a prefix of the answers.
fn see<R: Threads + Wait + Sync>(rt: &R, holder: Holder, fails: Fails) -> Seen {
    let (fault, written) = converse(rt, holder, FailingReader::of(LINES), 1, fails);
    let is_front = ANSWERS.starts_with(&written);
    [fault, written.len() as u64, u64::from(is_front), 0, 0, 0]
}

// How much is written if the read with this number fails.
fn written_before(read: u64) -> u64 {
    for (last, written) in READS {
        if read <= last {
            return written;
        }
    }
    0
}

fn held_reads<R: Print + Threads + Wait + Sync>(rt: &R, holder: Holder) -> io::Result<u64> {
    let mut held: u64 = 0;
    for read in 1..=47 {
        let seen = see(rt, holder, Fails { read, ..NEVER });
        let wanted = if read <= 46 {
            [3, written_before(read)]
        } else {
            [0, 29]
        };
        let [fault, written] = wanted;
        let wanted = [fault, written, 1, 0, 0, 0];
        held = held.saturating_add(count(rt, "a read that fails", Some(seen), wanted)?);
    }
    Ok(held)
}

fn held_writes<R: Print + Threads + Wait + Sync>(rt: &R, holder: Holder) -> io::Result<u64> {
    let mut held: u64 = 0;
    for write in 1..31u64 {
        let seen = see(rt, holder, Fails { write, ..NEVER });
        let fault = if write <= 29 { 4 } else { 0 };
        let wanted = [fault, write - 1, 1, 0, 0, 0];
        held = held.saturating_add(count(rt, "a write that fails", Some(seen), wanted)?);
    }
    Ok(held)
}

fn held_flushes<R: Print + Threads + Wait + Sync>(rt: &R, holder: Holder) -> io::Result<u64> {
    let mut held: u64 = 0;
    for (place, written) in FLUSHES.iter().enumerate() {
        let flush = place as u64 + 1;
        let seen = see(rt, holder, Fails { flush, ..NEVER });
        let wanted = [4, *written, 1, 0, 0, 0];
        held = held.saturating_add(count(rt, "a flush that fails", Some(seen), wanted)?);
    }
    let seen = see(rt, holder, Fails { flush: 6, ..NEVER });
    let last = count(rt, "no flush that fails", Some(seen), [0, 29, 1, 0, 0, 0])?;
    Ok(held.saturating_add(last))
}

/// Each read, write and flush fails in turn: how many cases hold.
pub fn held_failures<R: Print + Threads + Wait + Sync>(rt: &R, holder: Holder) -> io::Result<u64> {
    let reads = held_reads(rt, holder)?;
    let writes = held_writes(rt, holder)?;
    let flushes = held_flushes(rt, holder)?;
    Ok(reads.saturating_add(writes).saturating_add(flushes))
}
