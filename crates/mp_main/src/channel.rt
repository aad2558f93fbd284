//! Where the lines of a conversation come from, and where their answers go.

ghost use Rattle.std.specs.Prelude.{◌≡◌, length, None, All, IfOk, OnErr};
ghost use Rattle.mp_text.specs.Output.{AppendsFront};
ghost use Rattle.mp_serve.specs.declared.device.Turn.TheVariants.{Listens, Failed};
ghost use Rattle.mp_main.specs.Channel.{turn_of};

use crate::command_line::ClientFiles;
use mp_clients::Close;
use mp_memory::{Memory, NoMemory};
use mp_serve::{Device, Streams, Turn};
use mp_text::{LineRead, ReadFault, WriteFault, read_line, write_all};
use std::fs::{File, OpenOptions};
use std::io::{BufReader, Write};
use std::rt::{Stdin, Stdout};

// The files of a client: a named pipe opens when its other end does.
#[derive(Drop)]
enum Files {
    // No line was read yet.
    Unopened,
    Open {
        reader: BufReader<File, Memory>,
        // `None` if the file of the answers can't be opened.
        writer: Option<File>,
    },
    // The conversation has ended, or the file of its lines can't be opened.
    Closed,
}

// Opens the file of the lines, and then that of the answers.
fn open(rt: &HostRuntime, memory: Memory, names: ClientFiles<'_>) -> Files {
    let Ok(input) = File::open(rt, names.input) else {
        return Files::Closed;
    };
    let writer = OpenOptions::new().write(true).open(rt, names.output).ok();
    match BufReader::new(memory, input) {
        Ok(reader) => Files::Open { reader, writer },
        Err(_) => Files::Closed,
    }
}

// A write where no file is open. It fails unless there is nothing to write.
fn write_nowhere(text: &[u8]) -> Result<(), WriteFault>
    ensures { OnErr result (AppendsFront None None text.now) }
{
    if text.is_empty() {
        return Ok(());
    }
    Err(WriteFault)
}

/// The files of a client. The first read opens them. They are closed at the end of the lines, and when one of them fails.
#[derive(Drop)]
pub struct Pipes<'a> {
    rt: &'a HostRuntime,
    memory: Memory,
    names: ClientFiles<'a>,
    files: Files,
    turn: Turn,
}

impl<'a> Pipes<'a> {
    /// The files of these names, before the first line.
    pub fn new(rt: &'a HostRuntime, memory: Memory, names: ClientFiles<'a>) -> Pipes<'a>
        ensures { result.turn ≡ Listens }
    {
        Pipes {
            rt,
            memory,
            names,
            files: Files::Unopened,
            turn: Turn::Listens,
        }
    }

    // Opens the files at the first read.
    fn open_once(&mut self)
        ensures { self.new.turn ≡ self.old.turn }
    {
        if let Files::Unopened = self.files {
            self.files = open(self.rt, self.memory, self.names);
        }
    }

    // Closes the files because one of them failed.
    fn fail(&mut self)
        ensures { self.new.turn ≡ Failed }
    {
        self.files = Files::Closed;
        self.turn = Turn::Failed;
    }
}

impl Device for Pipes<'_> {
    ghost use Rattle.std.specs.Prelude.{None};

    ghost input = { λ _. None };

    ghost output = { λ _. None };

    ghost turn = { λ pipes. pipes.turn };

    fn read_line(
        &mut self,
        line: &mut Vec<u8, Memory>,
        limit: usize,
    ) -> Result<LineRead, ReadFault> {
        self.open_once();
        let found = match &mut self.files {
            Files::Open { reader, .. } => read_line(reader, line, limit),
            _ => Err(ReadFault),
        };
        match found {
            Ok(LineRead::End) => {
                self.files = Files::Closed;
                Ok(LineRead::End)
            }
            Ok(found) => {
                self.turn = Turn::Owes;
                Ok(found)
            }
            Err(fault) => {
                self.fail();
                Err(fault)
            }
        }
    }

    fn write(&mut self, text: &[u8]) -> Result<(), WriteFault> {
        let written = match &mut self.files {
            Files::Open {
                writer: Some(writer),
                ..
            } => write_all(writer, text),
            _ => write_nowhere(text),
        };
        match written {
            Ok(()) => {
                self.turn = Turn::Holds;
                Ok(())
            }
            Err(fault) => {
                self.fail();
                Err(fault)
            }
        }
    }

    fn flush(&mut self) -> Result<(), WriteFault> {
        let flushed = match &mut self.files {
            Files::Open {
                writer: Some(writer),
                ..
            } => writer.flush().is_ok(),
            _ => false,
        };
        if flushed {
            self.turn = Turn::Listens;
            Ok(())
        } else {
            self.fail();
            Err(WriteFault)
        }
    }
}

impl Close for Pipes<'_> {
    fn close(&mut self) {
        self.files = Files::Closed;
    }
}

/// The two ends of a conversation: standard input and output, or a client's files. What they do isn't known.
#[derive(Drop)]
pub enum Channel<'a> {
    Operator(Streams<BufReader<Stdin, Memory>, Stdout>),
    Client(Pipes<'a>),
}

impl Device for Channel<'_> {
    ghost use Rattle.std.specs.Prelude.{None};
    ghost use Rattle.mp_main.specs.Channel.{turn_of};

    ghost input = { λ _. None };

    ghost output = { λ _. None };

    ghost turn = { turn_of };

    fn read_line(
        &mut self,
        line: &mut Vec<u8, Memory>,
        limit: usize,
    ) -> Result<LineRead, ReadFault> {
        match self {
            Channel::Operator(streams) => streams.read_line(line, limit),
            Channel::Client(pipes) => pipes.read_line(line, limit),
        }
    }

    fn write(&mut self, text: &[u8]) -> Result<(), WriteFault> {
        match self {
            Channel::Operator(streams) => streams.write(text),
            Channel::Client(pipes) => pipes.write(text),
        }
    }

    fn flush(&mut self) -> Result<(), WriteFault> {
        match self {
            Channel::Operator(streams) => streams.flush(),
            Channel::Client(pipes) => pipes.flush(),
        }
    }
}

// The standard streams of the operator stay open until the program ends.
impl Close for Channel<'_> {
    fn close(&mut self) {
        match self {
            Channel::Operator(_) => {}
            Channel::Client(pipes) => pipes.close(),
        }
    }
}

/// The files of clients, before their first lines.
pub fn channels_of<'a>(
    rt: &'a HostRuntime,
    memory: Memory,
    clients: &[ClientFiles<'a>],
) -> Result<Vec<Channel<'a>, Memory>, NoMemory>
    ensures listen { IfOk result (λ channels. All (λ c. turn_of c ≡ Listens) channels.items) }
    ensures len { IfOk result (λ channels. length channels.items ≡ length clients.now) }
{
    let mut channels = Vec::new(memory);
    for names in clients {
        channels.push(Channel::Client(Pipes::new(rt, memory, *names)))?;
    }
    Ok(channels)
}
