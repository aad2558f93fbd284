//! `keltuvar serve --client`: conversations with an operator and with clients, over one pool.

ghost use Rattle.std.specs.Prelude.{◌≡◌, ◌≤◌, ◌+◌, length, All, IfErr, IfOk, IfSome};
ghost use Rattle.std.specs.Process.{exit_status};
ghost use Rattle.std.specs.declared.marker.Brand.{Brand};
ghost use Rattle.mp_history.specs.PoolName.{head_of};
ghost use Rattle.mp_serve.specs.Talk.{new_conversation};
ghost use Rattle.mp_signatures.specs.Scheme.{accepted_by};
ghost use Rattle.mp_clients.specs.Beginning.{IsBefore};
ghost use Rattle.mp_main.specs.Held.{EndsHeld, EndsShared};

use crate::channel::{Channel, channels_of};
use crate::command_line::{ClientFiles, SchemeName};
use crate::conversation::{converse, prepare};
use crate::ending::{end_conversations, end_fault, end_unwritten};
use mp_clients::{Close, begin, open, refuse, serve};
use mp_history::{NewName, PoolName};
use mp_memory::{Memory, NoMemory};
use mp_serve::{Conversation, ConversationFault, Device, Streams, Turn};
use mp_signatures::Signatures;
use mp_tx::Salt;
use std::fs::File;
use std::io::BufReader;
use std::marker::Brand;
use std::process::ExitCode;
use std::sync::Wait;
use std::thread::Threads;

// The operator's conversation and the devices of all, before the pool is open.
#[derive(Drop)]
pub struct Waiting<D: Device> {
    operator: Conversation,
    // The operator's last line.
    line: Vec<u8, Memory>,
    device: D,
    clients: Vec<D, Memory>,
}

// Opens the pool for the operator's line, and holds all conversations. Gives back what waits if an allocation failed before, and
// takes the history's file otherwise.
fn open_and_serve<
    N: PoolName + Send + Sync,
    D: Device + Close + Send + Drop,
    R: Threads + Wait + Sync,
>(
    rt: &HostRuntime,
    threads: &R,
    memory: Memory,
    name: NewName,
    waiting: Waiting<D>,
    history: &mut Option<File>,
    callers: u32,
) -> Result<ExitCode, Waiting<D>>
    requires name { name ≡ head_of N.book N.root }
    requires number { callers ≡ N.callers }
    requires accepts { N.accepts ≡ accepted_by waiting.operator.signatures }
    requires before { IsBefore waiting.operator.session.stage }
    requires some { 1 ≤ callers }
    requires most { callers ≤ 64 }
    requires owes { D.turn waiting.device ≡ Turn.Owes }
    requires listen { All (λ d. D.turn d ≡ Turn.Listens) waiting.clients.items }
    ensures ok { IfOk result (λ code. EndsHeld N N.accepts N.callers D.input D.output
        waiting.operator waiting.line.items waiting.device waiting.clients.items
        (exit_status code)) }
    ensures err { IfErr result (λ back. back ≡ waiting) }
{
    match open::<N>(threads, memory, name, &waiting.operator, callers) {
        Ok(opened) => {
            let Waiting {
                operator,
                line,
                device,
                clients,
            } = waiting;
            let history = history.take();
            match serve(
                threads, memory, opened, history, operator, line, device, clients,
            ) {
                Ok(service) => Ok(end_conversations(rt, &service)),
                Err(NoMemory) => Ok(end_fault(rt, ConversationFault::NoMemory)),
            }
        }
        Err(NoMemory) => Err(waiting),
    }
}

// Answers the operator's lines until the pool can be opened, then holds all conversations.
fn converse_from<R: Threads + Wait + Sync, D: Device + Close + Send + Drop>(
    rt: &HostRuntime,
    threads: &R,
    memory: Memory,
    start: Conversation,
    history: Option<File>,
    device: D,
    clients: Vec<D, Memory>,
    callers: u32,
) -> ExitCode
    requires before { IsBefore start.session.stage }
    requires listens { D.turn device ≡ Turn.Listens }
    requires listen { All (λ d. D.turn d ≡ Turn.Listens) clients.items }
    requires some { 1 ≤ callers }
    requires most { callers ≤ 64 }
    ensures { IfSome (D.input device) (λ bytes. EndsShared Brand callers
        D.input D.output start bytes device clients.items
        (exit_status result)) }
{
    let mut operator = start;
    let mut history = history;
    let mut line = Vec::new(memory);
    let mut device = device;
    let mut clients = clients;
    for _count in 1..u64::MAX {
        match begin(memory, &mut operator, &mut line, &mut device) {
            Ok(true) => {}
            Ok(false) => return ExitCode::SUCCESS,
            Err(fault) => return end_fault(rt, fault),
        }
        let name = NewName::new();
        let waiting = Waiting {
            operator,
            line,
            device,
            clients,
        };
        match open_and_serve::<Brand, D, R>(
            rt,
            threads,
            memory,
            name,
            waiting,
            &mut history,
            callers,
        ) {
            Ok(code) => return code,
            Err(back) => {
                operator = back.operator;
                line = back.line;
                device = back.device;
                clients = back.clients;
            }
        }
        match refuse(&mut operator, &mut device) {
            Ok(()) => {}
            Err(fault) => return end_fault(rt, fault),
        }
    }
    end_fault(rt, ConversationFault::ManyLines)
}

// The operator and the clients.
fn callers_of<D>(clients: &[D]) -> u32
    requires { length clients.now ≤ 63 }
    ensures { result ≡ length clients.now + 1 }
{
    clients.len() as u32 + 1
}

/// Answers the lines of the operator's device and of those of the clients, until all inputs have ended. The pool opens at the
/// operator's first request, and the clients' lines wait for that. In each conversation at most `names` names may be declared. The
/// pool's history is written to the file `history`.
pub fn converse_over_all<R: Threads + Wait + Sync, D: Device + Close + Send + Drop>(
    rt: &HostRuntime,
    threads: &R,
    memory: Memory,
    signatures: Signatures,
    salt: Salt,
    names: u64,
    history: Option<File>,
    device: D,
    clients: Vec<D, Memory>,
) -> ExitCode
    requires listens { D.turn device ≡ Turn.Listens }
    requires listen { All (λ d. D.turn d ≡ Turn.Listens) clients.items }
    requires most { length clients.items ≤ 63 }
    ensures { IfSome (D.input device) (λ bytes. EndsShared Brand
        (length clients.items + 1) D.input D.output
        (new_conversation signatures salt names) bytes device clients.items
        (exit_status result)) }
{
    let callers = callers_of(&clients);
    match Conversation::new(memory, signatures, salt, names) {
        Ok(operator) => converse_from(
            rt, threads, memory, operator, history, device, clients, callers,
        ),
        Err(NoMemory) => end_fault(rt, ConversationFault::NoMemory),
    }
}

// Creates the file, or empties it.
fn create_file(rt: &HostRuntime, path: Option<&str>) -> Result<Option<File>, ExitCode>
    ensures { IfErr result (λ code. exit_status code ≡ 1) }
{
    let Some(path) = path else {
        return Ok(None);
    };
    match File::create(rt, path) {
        Ok(file) => Ok(Some(file)),
        Err(error) => Err(end_unwritten(rt, path, error)),
    }
}

/// Answers the lines of standard input and of each client's file, until all have ended. The salt is random if none is given. The
/// file of the history is created, or emptied.
pub fn converse_with<R: Threads + Wait + Sync>(
    rt: &HostRuntime,
    threads: &R,
    signatures: SchemeName,
    salt: Option<u64>,
    names: u64,
    history: Option<&str>,
    clients: &[ClientFiles<'_>],
) -> ExitCode
    requires { length clients.now ≤ 63 }
{
    let (memory, signatures, salt) = match prepare(rt, signatures, salt) {
        Ok(prepared) => prepared,
        Err(code) => return code,
    };
    let history = match create_file(rt, history) {
        Ok(history) => history,
        Err(code) => return code,
    };
    let Ok(reader) = BufReader::new(memory, rt.stdin()) else {
        return end_fault(rt, ConversationFault::NoMemory);
    };
    let device = Channel::Operator(Streams::new(reader, rt.stdout()));
    match channels_of(rt, memory, clients) {
        Ok(channels) => {
            converse_over_all(
                rt, threads, memory, signatures, salt, names, history, device, channels,
            )
        }
        Err(NoMemory) => end_fault(rt, ConversationFault::NoMemory),
    }
}

/// `keltuvar serve`: shares the pool if it has clients or a file for its history.
pub fn converse_as<R: Threads + Wait + Sync>(
    rt: &HostRuntime,
    threads: &R,
    signatures: SchemeName,
    salt: Option<u64>,
    names: u64,
    history: Option<&str>,
    clients: &[ClientFiles<'_>],
) -> ExitCode
    requires { length clients.now ≤ 63 }
{
    if clients.is_empty() && history.is_none() {
        converse(rt, signatures, salt, names)
    } else {
        converse_with(rt, threads, signatures, salt, names, history, clients)
    }
}
