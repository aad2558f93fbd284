//! Conversations at once, over one pool.

ghost use Rattle.std.specs.Prelude.{◌≡◌, ◌<◌, ◌++◌, ℕ, true, false, List, length, slice_index_or, All, Any, IfOk, OnOk};
ghost use Rattle.std.specs.Arc.{arc_value};
ghost use Rattle.mp_history.specs.Log.{Begins, IsLegalLog};
ghost use Rattle.mp_clients.specs.declared.connected.Connected.{Connected};
ghost use Rattle.mp_clients.specs.declared.service.Finished.{Finished};
ghost use Rattle.mp_session.specs.Settings.{salt_of};
ghost use Rattle.mp_serve.specs.Staged.{nothing_staged};
ghost use Rattle.mp_clients.specs.Service.{IsFinished, HasSeenOf, KnowsAllOf, LacksOneOf, AreServed};
ghost use Rattle.mp_clients.specs.Inside.Connecting.{IsReady, IsOperator, IsClientOf, AreClientsOf, AreConnected};

use crate::closing::Close;
use crate::connected::Connected;
use crate::conversation::Conversation;
use crate::conversing::answer_from;
use crate::fault::ClientFault;
use crate::journal::Journal;
use crate::opening::{Opened, Seat};
use crate::settling::{Settled, settle};
use crate::shared::Shared;
use mp_history::{Front, PoolName};
use mp_memory::{Memory, NoMemory};
use mp_mempool::{Job, run_all};
use mp_names::Names;
use mp_rules::Verifier;
use mp_serve as alone;
use mp_serve::{Device, Staged, Turn};
use mp_session::{Session, Settings};
use std::fs::File;
use std::sync::{Arc, Wait};
use std::thread::Threads;

/// A conversation that has ended.
#[derive(Drop)]
pub struct Finished<N: PoolName, D: Device> {
    pub conversation: Conversation<N>,
    pub device: D,
    pub ended: Result<(), ClientFault>,
}

// Answers the lines of the conversation until it ends, and closes its device.
fn converse<N: PoolName, V: Verifier, D: Device + Close>(
    rt: &impl Wait,
    shared: &Shared<N, V>,
    memory: Memory,
    connected: Connected<N, D>,
) -> Finished<N, D>
    requires { IsReady D.turn connected }
    ensures { IsFinished N.accepts N.callers D.input D.output connected result }
{
    let Connected {
        mut conversation,
        mut device,
        line,
    } = connected;
    let ended = answer_from(rt, shared, memory, &mut conversation, line, &mut device);
    device.close();
    Finished {
        conversation,
        device,
        ended,
    }
}

// Conversations over this pool.
struct OverPool<'a, N: PoolName, V: Verifier> {
    shared: &'a Shared<N, V>,
    memory: Memory,
}

impl<N: PoolName, V: Verifier> Drop for OverPool<'_, N, V> {
    fn drop(self) {
        let OverPool {
            shared: _,
            memory: _,
        } = self;
    }
}

impl<N: PoolName + Send + Sync, V: Verifier + Send + Sync, D: Device + Close> Job<
    Connected<N, D>,
    Finished<N, D>,
> for OverPool<'_, N, V> {
    ghost use Rattle.mp_clients.specs.Service.{IsFinished};
    ghost use Rattle.mp_clients.specs.Inside.Connecting.{IsReady};

    ghost takes = { λ _ connected. IsReady D.turn connected };

    ghost does = { λ _ connected finished.
        IsFinished N.accepts N.callers D.input D.output connected finished };

    fn run<R: Wait>(&self, rt: &R, connected: Connected<N, D>) -> Finished<N, D> {
        converse(rt, self.shared, self.memory, connected)
    }
}

// All conversations, each on a thread of its own if one can be made.
fn converse_all<
    N: PoolName + Send + Sync,
    V: Verifier + Send + Sync,
    D: Device + Close + Send + Drop,
    R: Threads + Wait + Sync,
>(
    rt: &R,
    shared: &Shared<N, V>,
    memory: Memory,
    all: Vec<Connected<N, D>, Memory>,
) -> Result<Vec<Finished<N, D>, Memory>, NoMemory>
    requires { All (IsReady D.turn) all.items }
    ensures len { IfOk result (λ done. length done.items ≡ length all.items) }
    ensures each { IfOk result (λ done. (i : ℕ) (c : Connected N D) (f : Finished N D)
        → i < length all.items → IsFinished N.accepts N.callers D.input D.output
        (slice_index_or all.items i c) (slice_index_or done.items i f)) }
{
    let job = OverPool { shared, memory };
    Ok(run_all(rt, &job, all)?)
}

/// All conversations, and the history of the pool. Each conversation has seen a prefix of that.
#[derive(Drop)]
pub struct Service<N: PoolName, D: Device> {
    pub finished: Vec<Finished<N, D>, Memory>,
    pub front: Front<N>,
    /// Whether each conversation knows all its entries in the history.
    pub is_known: bool,
}

// Holds all conversations at once, each on a thread of its own if one can be made. The pool's history explains them all.
fn serve_all<
    N: PoolName + Send + Sync,
    V: Verifier + Send + Sync,
    D: Device + Close + Send + Drop,
    R: Threads + Wait + Sync,
>(
    rt: &R,
    shared: &Shared<N, V>,
    memory: Memory,
    front: Front<N>,
    all: Vec<Connected<N, D>, Memory>,
) -> Result<Service<N, D>, NoMemory>
    requires legal { IsLegalLog N.accepts N.callers front }
    requires ready { All (IsReady D.turn) all.items }
    ensures legal { IfOk result (λ s. IsLegalLog N.accepts N.callers s.front) }
    ensures begins { IfOk result (λ s. Begins front s.front) }
    ensures seen { IfOk result (λ s. All (HasSeenOf s.front) s.finished.items) }
    ensures known { IfOk result (λ s. s.is_known ≡ true
        → All (KnowsAllOf s.front) s.finished.items) }
    ensures foreign { IfOk result (λ s. s.is_known ≡ false
        → Any (LacksOneOf s.front) s.finished.items) }
    ensures len { IfOk result (λ s. length s.finished.items ≡ length all.items) }
    ensures each { IfOk result (λ s. (i : ℕ) (c : Connected N D) (f : Finished N D)
        → i < length all.items → IsFinished N.accepts N.callers D.input D.output
        (slice_index_or all.items i c) (slice_index_or s.finished.items i f)) }
{
    let finished = converse_all(rt, shared, memory, all)?;
    let Settled { front, is_known } = settle(rt, &shared.pool, &front, &finished);
    Ok(Service {
        finished,
        front,
        is_known,
    })
}

// The operator's conversation goes on, with the line that opened the pool.
fn connect_operator<N: PoolName, D: Device>(
    seat: Seat<N>,
    names: Names,
    settings: Arc<Settings, Memory>,
    staged: Staged,
    number: u64,
    line: Vec<u8, Memory>,
    device: D,
) -> Connected<N, D>
    ensures { IsOperator names (arc_value settings) seat staged number line.items device result }
{
    let Seat {
        names: _,
        most_names,
        client,
    } = seat;
    let conversation = Conversation {
        names,
        settings,
        client,
        staged,
        most_names,
        line: number,
    };
    Connected {
        conversation,
        device,
        line: Some(line),
    }
}

// The conversation of a client before its first line.
fn connect_client<N: PoolName, D: Device>(
    seat: Seat<N>,
    settings: Arc<Settings, Memory>,
    staged: Staged,
    device: D,
) -> Connected<N, D>
    requires { staged ≡ nothing_staged (salt_of (arc_value settings)) }
    ensures { IsClientOf (arc_value settings) seat device result }
{
    let Seat {
        names,
        most_names,
        client,
    } = seat;
    let conversation = Conversation {
        names,
        settings,
        client,
        staged,
        most_names,
        line: 1,
    };
    Connected {
        conversation,
        device,
        line: None,
    }
}

// Adds the conversations of the clients that have these devices.
fn connect_clients<N: PoolName, D: Device + Drop>(
    memory: Memory,
    all: &mut Vec<Connected<N, D>, Memory>,
    seats: Vec<Seat<N>, Memory>,
    settings: &Arc<Settings, Memory>,
    devices: Vec<D, Memory>,
) -> Result<(), NoMemory>
    ensures { OnOk result ((more : List (Connected N D)) × (all.new.items ≡ all.old.items ++ more)
        × AreClientsOf (arc_value settings.now) seats.items devices.items more) }
{
    let mut seats = seats.into_iter();
    for device in devices {
        let Some(seat) = seats.next() else {
            return Ok(());
        };
        let staged = Staged::new(memory, settings.salt())?;
        let shared = Arc::try_clone(settings)?;
        all.push(connect_client(seat, shared, staged, device))?;
    }
    Ok(())
}

// All conversations, the operator's first.
fn connect_all<N: PoolName, D: Device + Drop>(
    memory: Memory,
    seats: Vec<Seat<N>, Memory>,
    operator: alone::Conversation,
    line: Vec<u8, Memory>,
    device: D,
    clients: Vec<D, Memory>,
) -> Result<Vec<Connected<N, D>, Memory>, NoMemory>
    ensures { IfOk result (λ all.
        AreConnected operator line.items device seats.items clients.items all.items) }
{
    let alone::Conversation {
        session,
        staged,
        line: number,
        ..
    } = operator;
    let Session {
        names,
        settings,
        ..
    } = session;
    let settings = Arc::new(memory, settings)?;
    let mut all = Vec::new(memory);
    let mut seats = seats;
    if seats.is_empty() {
        return Ok(all);
    }
    let first = seats.remove(0);
    let shared = Arc::try_clone(&settings)?;
    all.push(connect_operator(first, names, shared, staged, number, line, device))?;
    connect_clients(memory, &mut all, seats, &settings, clients)?;
    Ok(all)
}

// The file of the history of the pool, which opened for these seats.
fn journal_of<N: PoolName>(
    memory: Memory,
    history: Option<File>,
    settings: &Settings,
    seats: &[Seat<N>],
) -> Result<Option<Journal>, NoMemory> {
    match (history, seats.first()) {
        (Some(file), Some(seat)) => {
            let journal = Journal::begin(memory, file, settings, seat.client.ledger())?;
            Ok(Some(journal))
        }
        _ => Ok(None),
    }
}

/// Answers the line that opened the pool in the operator's conversation, and all lines of all conversations from then on. Each
/// conversation is on a thread of its own if one can be made. The clients have the devices `clients`, in order.
///
/// The history of the pool is legal and explains all answers. It extends that with which the pool opened. What each conversation
/// has seen is a prefix of it, and each line was answered as the pool would at a point of that. If `is_known` holds, no
/// conversation has an entry there after the last that it knows.
///
/// If there is a file for the history, each change is written there before it is answered, in the order of places. If that fails,
/// the conversation ends with `Untold`, and so does each later change.
///
/// # Errors
/// `NoMemory`. Then some conversations may not have gone on.
pub fn serve<N: PoolName + Send + Sync, D: Device + Close + Send + Drop, R: Threads + Wait + Sync>(
    rt: &R,
    memory: Memory,
    opened: Opened<N>,
    history: Option<File>,
    operator: alone::Conversation,
    line: Vec<u8, Memory>,
    device: D,
    clients: Vec<D, Memory>,
) -> Result<Service<N, D>, NoMemory>
    requires legal { IsLegalLog N.accepts N.callers opened.front }
    requires owes { D.turn device ≡ Turn.Owes }
    requires listen { All (λ d. D.turn d ≡ Turn.Listens) clients.items }
    ensures legal { IfOk result (λ s. IsLegalLog N.accepts N.callers s.front) }
    ensures begins { IfOk result (λ s. Begins opened.front s.front) }
    ensures seen { IfOk result (λ s. All (HasSeenOf s.front) s.finished.items) }
    ensures known { IfOk result (λ s. s.is_known ≡ true
        → All (KnowsAllOf s.front) s.finished.items) }
    ensures foreign { IfOk result (λ s. s.is_known ≡ false
        → Any (LacksOneOf s.front) s.finished.items) }
    ensures served { IfOk result (λ s. AreServed N.accepts N.callers D.input D.output
        operator line.items device opened.seats.items clients.items s.finished.items) }
{
    let Opened {
        mut shared,
        front,
        seats,
    } = opened;
    shared.journal = journal_of(memory, history, &operator.session.settings, &seats)?;
    let all = connect_all(memory, seats, operator, line, device, clients)?;
    serve_all(rt, &shared, memory, front, all)
}
