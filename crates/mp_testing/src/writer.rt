//! A writer that fails on request.
use std::alloc::Global;
use std::io;
use std::io::{ErrorKind, Write};

/// A writer that stores what it takes. Contracts know what it has taken.
#[derive(Drop)]
pub struct FailingWriter {
    /// The bytes that were taken.
    pub taken: Vec<u8>,
    /// The greatest number of bytes that one write takes.
    pub at_once: usize,
    /// Which write fails, from 1. For 0, none does.
    pub fails_at: u64,
    /// The number of writes so far.
    pub writes: u64,
}

impl FailingWriter {
    ghost use Rattle.std.specs.Prelude.{◌≡◌, []};

    /// A writer that has taken nothing. Each write takes at most 4,096 bytes, and none fails.
    pub fn new(alloc: Global) -> FailingWriter
        ensures taken { result.taken.items ≡ [] }
        ensures at_once { result.at_once ≡ 4096 }
        ensures fails_at { result.fails_at ≡ 0 }
        ensures writes { result.writes ≡ 0 }
    {
        FailingWriter {
            taken: Vec::new(alloc),
            at_once: 4096,
            fails_at: 0,
            writes: 0,
        }
    }
}

impl Write for FailingWriter {
    ghost use Rattle.std.specs.Prelude.{Some};

    ghost contents = { λ w. Some w.taken.items };

    fn write(&mut self, buf: &[u8]) -> io::Result<usize> {
        self.writes = self.writes.saturating_add(1);
        if self.writes == self.fails_at {
            return Err(io::Error::from(ErrorKind::Other));
        }
        let count = self.at_once.min(buf.len());
        self.taken.extend_from_slice(&buf[..count])?;
        Ok(count)
    }

    fn flush(&mut self) -> io::Result<()> {
        Ok(())
    }
}
