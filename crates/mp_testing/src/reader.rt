//! A reader that fails on request.
ghost use Rattle.std.specs.Prelude.{◌≡◌, ◌≤◌, length, take, replicate};

use std::io;
use std::io::{ErrorKind, Read};

/// A reader of some bytes, followed by `filler` bytes `x`. Contracts know the remaining bytes, unless its reads return
/// none.
#[derive(Drop)]
pub struct FailingReader {
    /// The bytes that remain to be read.
    pub bytes: &'static [u8],
    /// The number of `x` after the bytes.
    pub filler: usize,
    /// The greatest number of bytes that one read returns.
    pub at_once: usize,
    /// Which read fails, from 1. For 0, none does.
    pub fails_at: u64,
    /// The number of reads so far.
    pub reads: u64,
}

impl FailingReader {
    ghost use Rattle.std.specs.Prelude.{◌≡◌};

    /// A reader of these bytes. Each read returns at most 4,096 bytes, and none fails.
    pub fn of(bytes: &'static [u8]) -> FailingReader
        ensures bytes { result.bytes.now ≡ bytes.now }
        ensures filler { result.filler ≡ 0 }
        ensures at_once { result.at_once ≡ 4096 }
        ensures fails_at { result.fails_at ≡ 0 }
        ensures reads { result.reads ≡ 0 }
    {
        FailingReader {
            bytes,
            filler: 0,
            at_once: 4096,
            fails_at: 0,
            reads: 0,
        }
    }
}

fn fill_front(buf: &mut [u8], count: usize)
    requires { count ≤ length buf.old }
    ensures len { length buf.new ≡ length buf.old }
    ensures front { take count buf.new ≡ replicate count 120 }
{
    buf[..count].fill(b'x');
}

impl Read for FailingReader {
    ghost use Rattle.mp_testing.specs.Devices.{left_in};

    ghost remaining = { left_in };

    fn read(&mut self, buf: &mut [u8]) -> io::Result<usize> {
        self.reads = self.reads.saturating_add(1);
        if self.reads == self.fails_at {
            return Err(io::Error::from(ErrorKind::Other));
        }
        if self.bytes.is_empty() {
            let count = self.at_once.min(self.filler).min(buf.len());
            fill_front(buf, count);
            self.filler -= count;
            return Ok(count);
        }
        let count = self.at_once.min(buf.len()).min(self.bytes.len());
        let (front, rest) = self.bytes.split_at(count);
        buf[..count].copy_from_slice(front);
        self.bytes = rest;
        Ok(count)
    }
}
