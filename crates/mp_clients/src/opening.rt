//! How the pool opens for an operator and clients.

ghost use Rattle.std.specs.Prelude.{◌≡◌, ◌≤◌, ◌<◌, length, map, All, IfOk};
ghost use Rattle.mp_seqpool.specs.SlowPool.{empty_pool};
ghost use Rattle.mp_history.specs.Log.{Log, IsLegalLog};
ghost use Rattle.mp_history.specs.PoolName.{head_of};
ghost use Rattle.mp_session.specs.Settings.{limit_of, last_of};
ghost use Rattle.mp_session.specs.Beginning.{opening_ledger};
ghost use Rattle.mp_signatures.specs.Scheme.{accepted_by};
ghost use Rattle.mp_clients.specs.Beginning.{IsBefore};
ghost use Rattle.mp_clients.specs.Opening.{seat_of, HasOpened, HasOpenedOn};

use crate::client::Client;
use crate::shared::Shared;
use mp_history::{Front, NewName, PoolName};
use mp_memory::{Memory, NoMemory};
use mp_mempool::{Config, Mempool, OpenRefusal, Pass};
use mp_names::Names;
use mp_serve::Conversation;
use mp_session::{Beginning, Settings, Stage};
use mp_signatures::Signatures;
use mp_tx::{Ledger, Salt};
use std::sync::{Arc, Wait};

/// What one caller has when the pool opens.
#[derive(Drop)]
pub struct Seat<N: PoolName> {
    pub names: Names,
    /// How many names may be declared.
    pub most_names: u64,
    pub client: Client<N>,
}

/// A pool, its first history, and a seat for each of the callers 0, 1, .. in order.
#[derive(Drop)]
pub struct Opened<N: PoolName> {
    pub shared: Shared<N, Signatures>,
    pub front: Front<N>,
    pub seats: Vec<Seat<N>, Memory>,
}

// The seat of the caller with this pass.
fn seat_of<N: PoolName>(
    memory: Memory,
    pass: Pass<N>,
    signatures: &Signatures,
    limit: u64,
    ledger: &Ledger,
    salt: Salt,
    most_names: u64,
) -> Result<Seat<N>, NoMemory>
    requires verifier { accepted_by signatures.now ≡ N.accepts }
    requires limit { limit ≡ pass.front.opening.limit }
    ensures { IfOk result (λ seat. seat
        ≡ seat_of signatures.now ledger.now most_names pass) }
{
    let names = Names::new(memory, salt)?;
    let signatures = signatures.share()?;
    let ledger = ledger.share()?;
    Ok(Seat {
        names,
        most_names,
        client: Client::new(memory, pass, signatures, limit, ledger),
    })
}

// The seats of the callers with these passes.
fn seats_of<N: PoolName>(
    memory: Memory,
    passes: Vec<Pass<N>, Memory>,
    signatures: &Signatures,
    limit: u64,
    ledger: &Ledger,
    salt: Salt,
    most_names: u64,
) -> Result<Vec<Seat<N>, Memory>, NoMemory>
    requires verifier { accepted_by signatures.now ≡ N.accepts }
    requires limit { All (λ p. limit ≡ p.front.opening.limit) passes.items }
    ensures { IfOk result (λ seats. seats.items
        ≡ map (seat_of signatures.now ledger.now most_names) passes.items) }
{
    let mut seats = Vec::new(memory);
    for pass in passes {
        let seat = seat_of(memory, pass, signatures, limit, ledger, salt, most_names)?;
        seats.push(seat)?;
    }
    Ok(seats)
}

// The front of the first pass, which is legal.
fn first_front<N: PoolName>(passes: &[Pass<N>]) -> Front<N>
    requires { 0 < length passes.now }
    ensures legal { IsLegalLog N.accepts N.callers result }
    ensures same { (log : Log) → All (λ p. p.front ≡ log) passes.now → result ≡ log }
{
    let pass = &passes[0];
    let _version = pass.shown().version();
    pass.front().again()
}

// Opens the pool on the ledger state.
fn open_on<N: PoolName>(
    rt: &impl Wait,
    memory: Memory,
    name: NewName,
    signatures: &Signatures,
    settings: &Settings,
    ledger: &Ledger,
    callers: u32,
    most_names: u64,
) -> Result<Opened<N>, NoMemory>
    requires name { name ≡ head_of N.book N.root }
    requires number { callers ≡ N.callers }
    requires accepts { N.accepts ≡ accepted_by signatures.now }
    requires some { 1 ≤ callers }
    requires most { callers ≤ 64 }
    ensures { IfOk result (λ o. HasOpenedOn N.accepts N.callers signatures.now
        (empty_pool (limit_of settings.now) (last_of settings.now) ledger.now) most_names
        o.front o.seats.items) }
{
    let verifier = Arc::new(memory, signatures.share()?)?;
    let limit = settings.limit();
    let config = Config {
        limit,
        last: settings.last(),
    };
    match Mempool::open(rt, memory, name, config, ledger, &verifier, callers) {
        Ok((pool, reader, passes)) => {
            let front = first_front(&passes);
            let salt = settings.salt();
            let seats = seats_of(memory, passes, signatures, limit, ledger, salt, most_names)?;
            let shared = Shared {
                pool,
                reader,
                journal: None,
            };
            Ok(Opened {
                shared,
                front,
                seats,
            })
        }
        Err(refusal) => match refusal {
            OpenRefusal::NoMemory => Err(NoMemory),
            OpenRefusal::BadCallers => unreachable!(),
            OpenRefusal::BadLimit => unreachable!(),
        },
    }
}

// Opens the pool with what was declared.
fn open_with<N: PoolName>(
    rt: &impl Wait,
    memory: Memory,
    name: NewName,
    signatures: &Signatures,
    settings: &Settings,
    beginning: &Beginning,
    callers: u32,
    most_names: u64,
) -> Result<Opened<N>, NoMemory>
    requires name { name ≡ head_of N.book N.root }
    requires number { callers ≡ N.callers }
    requires accepts { N.accepts ≡ accepted_by signatures.now }
    requires some { 1 ≤ callers }
    requires most { callers ≤ 64 }
    ensures { IfOk result (λ o. HasOpenedOn N.accepts N.callers signatures.now
        (empty_pool (limit_of settings.now) (last_of settings.now)
        (opening_ledger settings.now beginning.now)) most_names o.front o.seats.items) }
{
    let ledger = beginning.open(memory, settings)?;
    open_on(
        rt, memory, name, signatures, settings, &ledger, callers, most_names,
    )
}

/// Opens the pool under the name, as the operator's conversation would alone, for the operator and `callers - 1` clients.
///
/// # Errors
/// `NoMemory`. The name is used up.
pub fn open<N: PoolName>(
    rt: &impl Wait,
    memory: Memory,
    name: NewName,
    operator: &Conversation,
    callers: u32,
) -> Result<Opened<N>, NoMemory>
    requires name { name ≡ head_of N.book N.root }
    requires number { callers ≡ N.callers }
    requires accepts { N.accepts ≡ accepted_by operator.now.signatures }
    requires before { IsBefore operator.now.session.stage }
    requires some { 1 ≤ callers }
    requires most { callers ≤ 64 }
    ensures { IfOk result (λ o. HasOpened N.accepts N.callers operator.now
        o.front o.seats.items) }
{
    let settings = &operator.session.settings;
    match &operator.session.stage {
        Stage::Before(beginning) => open_with(
            rt,
            memory,
            name,
            &operator.signatures,
            settings,
            beginning,
            callers,
            operator.most_names,
        ),
        Stage::Open(_) => unreachable!(),
    }
}
