//! Conversations over one pool, held as the program holds them.
ghost use Rattle.std.specs.Prelude.{◌≡◌, ◌≤◌, length, All, IfErr};
ghost use Rattle.mp_history.specs.PoolName.{head_of};
ghost use Rattle.mp_signatures.specs.Scheme.{accepted_by};
ghost use Rattle.mp_clients.specs.Beginning.{IsBefore};

use crate::talks::MOST_NAMES;
use mp_clients::{ClientFault, Close, Finished, Service, begin, open, refuse, serve};
use mp_history::{NewName, PoolName};
use mp_memory::{Memory, NoMemory};
use mp_serve as alone;
use mp_serve::{Conversation, Device, Turn};
use mp_signatures::{Scheme, Signatures};
use mp_tx::Salt;
use std::alloc::Global;
use std::fs::File;
use std::marker::Brand;
use std::sync::Wait;
use std::thread::Threads;

/// A conversation that has ended: the number of its fault, or 0, and its device.
#[derive(Drop)]
pub struct Ended<D: Device> {
    pub fault: u64,
    pub device: D,
}

/// All conversations, the operator's first; or only that, if the pool wasn't opened. None if an allocation failed before the
/// first line, or while all went on or came back.
pub type Held<D> = Option<Vec<Ended<D>, Global>>;

/// The number of the fault of an answer that was lost.
pub const LOST: u64 = 7;

fn number_of(ended: Result<(), ClientFault>) -> u64 {
    match ended {
        Ok(()) => 0,
        Err(ClientFault::NoMemory) => 1,
        Err(ClientFault::ReadFault) => 3,
        Err(ClientFault::WriteFault) => 4,
        Err(ClientFault::ManyLines) => 5,
        Err(ClientFault::Foreign) => 6,
        Err(ClientFault::Untold) => LOST,
    }
}

fn number_before(fault: alone::ConversationFault) -> u64 {
    match fault {
        alone::ConversationFault::NoMemory => 1,
        alone::ConversationFault::ReadFault => 3,
        alone::ConversationFault::WriteFault => 4,
        alone::ConversationFault::ManyLines => 5,
    }
}

// The operator's conversation has ended before the pool was opened.
fn only<D: Device + Drop>(alloc: Global, fault: u64, device: D) -> Held<D> {
    let mut all = Vec::new(alloc);
    all.push(Ended { fault, device }).ok()?;
    Some(all)
}

fn all_ended<N: PoolName, D: Device + Drop>(alloc: Global, service: Service<N, D>) -> Held<D> {
    let Service {
        finished,
        front: _,
        is_known,
    } = service;
    if !is_known {
        return None;
    }
    let mut all = Vec::new(alloc);
    for one in finished {
        let Finished {
            conversation: _,
            device,
            ended,
        } = one;
        let fault = number_of(ended);
        all.push(Ended { fault, device }).ok()?;
    }
    Some(all)
}

// The operator's conversation and the devices of all, before the pool is open.
#[derive(Drop)]
struct Waiting<D: Device> {
    operator: Conversation,
    // The operator's last line.
    line: Vec<u8, Memory>,
    device: D,
    clients: Vec<D, Memory>,
}

// Opens the pool for the operator's line, and holds all conversations. Returns what waits if an allocation failed before.
fn open_and_serve<
    N: PoolName + Send + Sync,
    D: Device + Close + Send + Drop,
    R: Threads + Wait + Sync,
>(
    rt: &R,
    memory: Memory,
    alloc: Global,
    name: NewName,
    waiting: Waiting<D>,
    history: &mut Option<File>,
    callers: u32,
) -> Result<Held<D>, Waiting<D>>
    requires name { name ≡ head_of N.book N.root }
    requires number { callers ≡ N.callers }
    requires accepts { N.accepts ≡ accepted_by waiting.operator.signatures }
    requires before { IsBefore waiting.operator.session.stage }
    requires some { 1 ≤ callers }
    requires most { callers ≤ 64 }
    requires owes { D.turn waiting.device ≡ Turn.Owes }
    requires listen { All (λ d. D.turn d ≡ Turn.Listens) waiting.clients.items }
    ensures { IfErr result (λ back. back ≡ waiting) }
{
    match open::<N>(rt, memory, name, &waiting.operator, callers) {
        Ok(opened) => {
            let Waiting {
                operator,
                line,
                device,
                clients,
            } = waiting;
            let history = history.take();
            match serve(rt, memory, opened, history, operator, line, device, clients) {
                Ok(service) => Ok(all_ended(alloc, service)),
                Err(NoMemory) => Ok(None),
            }
        }
        Err(NoMemory) => Err(waiting),
    }
}

// Answers the operator's lines until the pool can be opened, then holds all conversations.
fn hold_from<D: Device + Close + Send + Drop, R: Threads + Wait + Sync>(
    rt: &R,
    memory: Memory,
    alloc: Global,
    start: Conversation,
    history: Option<File>,
    device: D,
    clients: Vec<D, Memory>,
    callers: u32,
) -> Held<D>
    requires before { IsBefore start.session.stage }
    requires listens { D.turn device ≡ Turn.Listens }
    requires listen { All (λ d. D.turn d ≡ Turn.Listens) clients.items }
    requires some { 1 ≤ callers }
    requires most { callers ≤ 64 }
{
    let mut operator = start;
    let mut history = history;
    let mut line = Vec::new(memory);
    let mut device = device;
    let mut clients = clients;
    for _count in 1..u64::MAX {
        match begin(memory, &mut operator, &mut line, &mut device) {
            Ok(true) => {}
            Ok(false) => return only(alloc, 0, device),
            Err(fault) => return only(alloc, number_before(fault), device),
        }
        let name = NewName::new();
        let waiting = Waiting {
            operator,
            line,
            device,
            clients,
        };
        match open_and_serve::<Brand, D, R>(
            rt,
            memory,
            alloc,
            name,
            waiting,
            &mut history,
            callers,
        ) {
            Ok(held) => return held,
            Err(back) => {
                operator = back.operator;
                line = back.line;
                device = back.device;
                clients = back.clients;
            }
        }
        if let Err(fault) = refuse(&mut operator, &mut device) {
            return only(alloc, number_before(fault), device);
        }
    }
    None
}

/// Holds the conversations of an operator and of clients with these devices. The allocation with the number `refused` fails,
/// counted from the operator's first line. The pool's history is written to the file, if there is one.
pub fn hold<D: Device + Close + Send + Drop, R: Threads + Wait + Sync>(
    rt: &R,
    memory: Memory,
    alloc: Global,
    history: Option<File>,
    device: D,
    clients: Vec<D, Memory>,
    refused: u64,
) -> Held<D>
    requires listens { D.turn device ≡ Turn.Listens }
    requires listen { All (λ d. D.turn d ≡ Turn.Listens) clients.items }
    requires most { length clients.items ≤ 63 }
{
    let callers = clients.len() as u32 + 1;
    let signatures = Signatures::new(memory, Scheme::Trial).ok()?;
    match Conversation::new(memory, signatures, Salt::new(7), MOST_NAMES) {
        Ok(start) => {
            memory.refuse(refused);
            hold_from(rt, memory, alloc, start, history, device, clients, callers)
        }
        Err(NoMemory) => None,
    }
}
