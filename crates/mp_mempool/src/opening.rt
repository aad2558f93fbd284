//! How a pool opens.
ghost use Rattle.std.specs.Prelude.{◌≡◌, ◌≤◌, ◌^◌, [], ◌∷◌, ◌++◌, All, map, length, replicate, None, Some, IfNone, IfOk, OnOk};
ghost use Rattle.mp_history.specs.Log.{IsLegalLog};
ghost use Rattle.mp_history.specs.PoolName.{head_of};
ghost use Rattle.mp_mempool.specs.Pass.{pass_of};
ghost use Rattle.mp_mempool.specs.Opening.{fresh_log, fresh_passes, open_fault};

use crate::config::Config;
use crate::read::Pass;
use crate::refusal::OpenRefusal;
use crate::write::Locked;
use mp_history::{Caller, CommitRight, History, NewName, PoolName};
use mp_memory::{Memory, NoMemory};
use mp_seqpool::SeqPool;
use mp_tx::Ledger;
use mp_versions::{Boards, Publisher, Shown, Version};
use std::sync::{Arc, Wait};

// No pool has more callers.
const MAX_CALLERS: u32 = 1024;

// No pool has more changes.
const MAX_LIMIT: u64 = 1 << 32;

/// Why a pool can't be opened for this limit of changes and this many callers, given enough memory.
pub(crate) fn open_fault(limit: u64, callers: u32) -> Option<OpenRefusal>
    ensures fault { result ≡ open_fault limit callers }
    ensures some { IfNone result (1 ≤ callers) }
    ensures most { IfNone result (callers ≤ 1024) }
    ensures least { IfNone result (1 ≤ limit) }
    ensures greatest { IfNone result (limit ≤ 2 ^ 32) }
{
    if callers < 1 || callers > MAX_CALLERS {
        return Some(OpenRefusal::BadCallers);
    }
    if limit < 1 || limit > MAX_LIMIT {
        return Some(OpenRefusal::BadLimit);
    }
    None
}

/// All parts of a pool except its verifier.
#[derive(Drop)]
pub(crate) struct Parts<N: PoolName> {
    pub(crate) history: History<N>,
    pub(crate) boards: Boards<N>,
    pub(crate) locked: Locked<N>,
    pub(crate) passes: Vec<Pass<N>, Memory>,
}

// Adds the pass of a caller that has seen this version last.
fn put_pass<N: PoolName>(
    passes: &mut Vec<Pass<N>, Memory>,
    caller: Caller<N>,
    shown: &Shown<N>,
    publisher: &Publisher<N>,
) -> Result<(), NoMemory>
    requires { caller.last ≡ None }
    ensures { OnOk result (passes.new.items ≡ passes.old.items ++ pass_of shown.now caller ∷ []) }
{
    let shown = shown.share()?;
    let subscriber = publisher.subscriber()?;
    passes.push(Pass::of(caller, shown, subscriber))?;
    Ok(())
}

// Adds the passes of callers that have seen this version.
fn put_passes<N: PoolName>(
    passes: &mut Vec<Pass<N>, Memory>,
    callers: Vec<Caller<N>, Memory>,
    shown: &Shown<N>,
    publisher: &Publisher<N>,
) -> Result<(), NoMemory>
    requires none { passes.old.items ≡ [] }
    requires fresh { All (λ c. c.last ≡ None) callers.items }
    ensures { OnOk result (passes.new.items ≡ map (pass_of shown.now) callers.items) }
{
    for caller in callers {
        put_pass(passes, caller, shown, publisher)?;
    }
    Ok(())
}

// The passes of callers that have seen this version.
fn give_passes<N: PoolName>(
    memory: Memory,
    callers: Vec<Caller<N>, Memory>,
    shown: &Shown<N>,
    publisher: &Publisher<N>,
) -> Result<Vec<Pass<N>, Memory>, NoMemory>
    requires { All (λ c. c.last ≡ None) callers.items }
    ensures { IfOk result (λ passes. passes.items ≡ map (pass_of shown.now) callers.items) }
{
    let mut passes = Vec::with_capacity(memory, callers.len())?;
    put_passes(&mut passes, callers, shown, publisher)?;
    Ok(passes)
}

// Notes for each of `callers` callers that it hasn't made an entry.
fn put_no_places(places: &mut Vec<Option<u64>, Memory>, callers: u32) -> Result<(), NoMemory>
    requires { places.old.items ≡ [] }
    ensures { OnOk result (places.new.items ≡ replicate callers None) }
{
    for _ in 0..callers {
        places.push(None)?;
    }
    Ok(())
}

// The places of `callers` callers that haven't made an entry.
fn unset_places(memory: Memory, callers: u32) -> Result<Vec<Option<u64>, Memory>, NoMemory>
    ensures { IfOk result (λ places. places.items ≡ replicate callers None) }
{
    let mut places = Vec::with_capacity(memory, callers as usize)?;
    put_no_places(&mut places, callers)?;
    Ok(places)
}

// The version of a pool without transactions, before any entry.
fn first_version<N: PoolName>(
    memory: Memory,
    pool: &SeqPool,
    right: &CommitRight<N>,
) -> Result<Shown<N>, NoMemory>
    requires state { right.now ≡ record { opening = pool.now.pool; entries = [] } }
    requires legal { IsLegalLog N.accepts N.callers right.now }
    ensures { IfOk result (λ shown. shown ≡ right.now) }
{
    let version = Arc::new(memory, Version::of(memory, pool)?)?;
    Ok(Shown::of(version, right.front()))
}

/// The passes of a pool's callers, and the version that they have seen.
#[derive(Drop)]
pub(crate) struct Desk<N: PoolName> {
    pub(crate) shown: Shown<N>,
    pub(crate) passes: Vec<Pass<N>, Memory>,
    pub(crate) boards: Boards<N>,
    pub(crate) publisher: Publisher<N>,
    pub(crate) places: Vec<Option<u64>, Memory>,
}

/// Publishes this version, with a pass for each caller that has seen it. No caller has made an entry.
pub(crate) fn set_desk<N: PoolName>(
    rt: &impl Wait,
    memory: Memory,
    tokens: Vec<Caller<N>, Memory>,
    shown: Shown<N>,
    callers: u32,
) -> Result<Desk<N>, NoMemory>
    requires { All (λ c. c.last ≡ None) tokens.items }
    ensures shown { IfOk result (λ desk. desk.shown ≡ shown) }
    ensures published { IfOk result (λ desk. desk.publisher ≡ shown) }
    ensures passes { IfOk result (λ desk. desk.passes.items ≡ map (pass_of shown) tokens.items) }
    ensures places { IfOk result (λ desk. desk.places.items ≡ replicate callers None) }
{
    let places = unset_places(memory, callers)?;
    let (boards, publisher) = Boards::open(rt, memory, &shown)?;
    let passes = give_passes(memory, tokens, &shown, &publisher)?;
    Ok(Desk {
        shown,
        passes,
        boards,
        publisher,
        places,
    })
}

// The desk of a new pool, with its first version.
fn open_desk<N: PoolName>(
    rt: &impl Wait,
    memory: Memory,
    tokens: Vec<Caller<N>, Memory>,
    pool: &SeqPool,
    right: &CommitRight<N>,
    callers: u32,
) -> Result<Desk<N>, NoMemory>
    requires state { right.now ≡ record { opening = pool.now.pool; entries = [] } }
    requires legal { IsLegalLog N.accepts N.callers right.now }
    requires fresh { All (λ c. c.last ≡ None) tokens.items }
    ensures shown { IfOk result (λ desk. desk.shown ≡ right.now) }
    ensures published { IfOk result (λ desk. desk.publisher ≡ right.now) }
    ensures passes { IfOk result (λ desk. desk.passes.items
        ≡ map (pass_of right.now) tokens.items) }
    ensures places { IfOk result (λ desk. desk.places.items ≡ replicate callers None) }
{
    let shown = first_version(memory, pool, right)?;
    set_desk(rt, memory, tokens, shown, callers)
}

// The parts of the pool, with its history.
fn open_upon<N: PoolName>(
    rt: &impl Wait,
    memory: Memory,
    pool: SeqPool,
    opened: (History<N>, CommitRight<N>, Vec<Caller<N>, Memory>),
    callers: u32,
) -> Result<Parts<N>, NoMemory>
    requires state { opened.1 ≡ record { opening = pool.pool; entries = [] } }
    requires legal { IsLegalLog N.accepts N.callers opened.1 }
    requires number { callers ≡ N.callers }
    requires fresh { All (λ c. c.last ≡ None) opened.2.items }
    ensures passes { IfOk result (λ parts. parts.passes.items
        ≡ map (pass_of opened.1) opened.2.items) }
    ensures published { IfOk result (λ parts. parts.locked.published ≡ opened.1) }
{
    let (history, right, tokens) = opened;
    let desk = open_desk(rt, memory, tokens, &pool, &right, callers)?;
    Ok(Parts {
        history,
        boards: desk.boards,
        locked: Locked::open(pool, right, desk.shown, desk.publisher, desk.places),
        passes: desk.passes,
    })
}

/// Opens all parts of a pool except its verifier.
pub(crate) fn open_parts<N: PoolName>(
    rt: &impl Wait,
    memory: Memory,
    name: NewName,
    config: Config,
    ledger: &Ledger,
    callers: u32,
) -> Result<Parts<N>, NoMemory>
    requires name { name ≡ head_of N.book N.root }
    requires number { callers ≡ N.callers }
    requires some { 1 ≤ callers }
    requires most { callers ≤ 1024 }
    requires least { 1 ≤ config.limit }
    requires greatest { config.limit ≤ 2 ^ 32 }
    ensures passes { IfOk result (λ parts. parts.passes.items
        ≡ fresh_passes callers (fresh_log config ledger.now)) }
    ensures published { IfOk result (λ parts. parts.locked.published
        ≡ fresh_log config ledger.now) }
{
    let config = mp_seqpool::Config {
        limit: config.limit,
        last: config.last,
    };
    let pool = SeqPool::start(memory, config, ledger)?;
    let opened = History::open(name, memory, callers, &pool, config.limit)?;
    open_upon(rt, memory, pool, opened, callers)
}
