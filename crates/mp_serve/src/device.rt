//! The device of a conversation: lines come in, and their answers go out.

use mp_memory::Memory;
use mp_text::{LineRead, ReadFault, WriteFault, read_line, write_all};
use std::io::{BufRead, Write};

/// What a device has to do next.
#[derive(Clone, Copy, Debug, PartialEq, Eq)]
pub enum Turn {
    /// Read a line: the lines before are answered, and the answers flushed.
    Listens,
    /// Write the answer to the line that was read.
    Owes,
    /// Flush the answer that was written.
    Holds,
    /// Nothing: it failed.
    Failed,
}

/// Reads lines and writes their answers. It reads no line before the answers to all lines before it are written and flushed.
pub trait Device {
    ghost use Rattle.std.specs.Prelude.{◌≡◌, ℕ, List, Option, IfSome, IfOk, OnOk, OnErr};
    ghost use Rattle.std.specs.Io.BufRead.{DropsThrough};
    ghost use Rattle.std.specs.Io.KnownBytes.{Keeps, Appends};
    ghost use Rattle.mp_text.specs.Output.{AppendsFront};
    ghost use Rattle.mp_serve.specs.declared.device.Turn.{Turn};
    ghost use Rattle.mp_serve.specs.declared.device.Turn.TheVariants.{Listens, Owes, Holds, Failed};
    ghost use Rattle.mp_text.specs.LineInput.{IsLine};
    ghost use Rattle.mp_serve.specs.Device.{turn_after};

    /// The bytes that are left to be read, if they are known.
    ghost input: { Self → Option (List ℕ) };

    /// The bytes that were written, if they are known.
    ghost output: { Self → Option (List ℕ) };

    ghost turn: { Self → Turn };

    /// Reads a line to its end. Stores it if it has at most `limit` bytes and no allocation fails.
    ///
    /// # Errors
    /// If the device fails.
    fn read_line(&mut self, line: &mut Vec<u8, Memory>, limit: usize) -> Result<LineRead, ReadFault>
        requires { turn self.old ≡ Listens }
        ensures rest { OnOk result (DropsThrough (input self.old) (input self.new) 10) }
        ensures line { IfSome (input self.old)
            (λ bytes. IfOk result (λ read. IsLine limit bytes read line.new.items)) }
        ensures turn { IfOk result (λ found. turn self.new ≡ turn_after found) }
        ensures failed { OnErr result (turn self.new ≡ Failed) }
        ensures output { output self.new ≡ output self.old };

    /// Writes the answer to the line that was read.
    ///
    /// # Errors
    /// If the device fails. Then a prefix of the answer is written.
    fn write(&mut self, text: &[u8]) -> Result<(), WriteFault>
        requires { turn self.old ≡ Owes }
        ensures ok { OnOk result (Appends (output self.old) (output self.new) text.now) }
        ensures err { OnErr result (AppendsFront (output self.old) (output self.new) text.now) }
        ensures turn { OnOk result (turn self.new ≡ Holds) }
        ensures failed { OnErr result (turn self.new ≡ Failed) }
        ensures input { input self.new ≡ input self.old };

    /// Flushes what was written.
    ///
    /// # Errors
    /// If the device fails.
    fn flush(&mut self) -> Result<(), WriteFault>
        requires { turn self.old ≡ Holds }
        ensures turn { OnOk result (turn self.new ≡ Listens) }
        ensures failed { OnErr result (turn self.new ≡ Failed) }
        ensures output { Keeps (output self.old) (output self.new) }
        ensures input { input self.new ≡ input self.old };
}

/// A reader of lines, and a writer of their answers.
#[derive(Drop)]
pub struct Streams<R, W> {
    pub reader: R,
    pub writer: W,
    /// What has to be done next.
    pub turn: Turn,
}

impl<R, W> Streams<R, W> {
    ghost use Rattle.std.specs.Prelude.{◌≡◌};
    ghost use Rattle.mp_serve.specs.declared.device.Turn.TheVariants.{Listens};

    /// The streams before the first line.
    pub fn new(reader: R, writer: W) -> Streams<R, W>
        ensures { result ≡ record { reader = reader; writer = writer; turn = Listens } }
    {
        Streams {
            reader,
            writer,
            turn: Turn::Listens,
        }
    }
}

impl<R: BufRead, W: Write> Device for Streams<R, W> {
    ghost input = { λ s. R.remaining s.reader };

    ghost output = { λ s. W.contents s.writer };

    ghost turn = { λ s. s.turn };

    fn read_line(
        &mut self,
        line: &mut Vec<u8, Memory>,
        limit: usize,
    ) -> Result<LineRead, ReadFault> {
        match read_line(&mut self.reader, line, limit) {
            Ok(LineRead::End) => Ok(LineRead::End),
            Ok(found) => {
                self.turn = Turn::Owes;
                Ok(found)
            }
            Err(fault) => {
                self.turn = Turn::Failed;
                Err(fault)
            }
        }
    }

    fn write(&mut self, text: &[u8]) -> Result<(), WriteFault> {
        match write_all(&mut self.writer, text) {
            Ok(()) => {
                self.turn = Turn::Holds;
                Ok(())
            }
            Err(fault) => {
                self.turn = Turn::Failed;
                Err(fault)
            }
        }
    }

    fn flush(&mut self) -> Result<(), WriteFault> {
        match self.writer.flush() {
            Ok(()) => {
                self.turn = Turn::Listens;
                Ok(())
            }
            Err(_) => {
                self.turn = Turn::Failed;
                Err(WriteFault)
            }
        }
    }
}
