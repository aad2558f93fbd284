//! A pool and its successor.
ghost use Rattle.std.specs.Prelude.{◌≡◌};
ghost use Rattle.mp_history.specs.PoolName.{head_of};
ghost use Rattle.mp_bench.specs.Signatures.{any};

use super::Endurance;
use super::chapter::{Chapter, View, take_history};
use super::fault::EnduranceFault;
use super::player::{Part, Scene, play};
use crate::shared::count_seen;
use crate::verifier::Spinning;
use mp_history::{NewName, PoolName};
use mp_memory::Memory;
use mp_mempool::{Config, Mempool, Opened, Pass, Reader};
use std::marker::Brand;
use std::rt::Clock;
use std::sync::{Arc, Mutex, Wait};
use std::thread::{Threads, for_each_mut};
use std::time::{Duration, Instant};

/// The greatest number of changes of each pool.
pub const LIMIT: u64 = 10_000;

// All callers together give about 10,000 commands a second.
const MILLIS_FOR_EACH: u64 = 2;

/// The plan of a round.
#[derive(Clone, Copy)]
pub struct Plan {
    /// The ticket before the first one.
    pub last: u64,
    /// What is done on the pool, and on its successor.
    pub before: Part,
    pub after: Part,
}

/// The records of a pool and of its successor.
pub struct Tale {
    pub before: Chapter,
    pub after: Chapter,
}

impl Drop for Tale {
    fn drop(self) {
        let Tale {
            before: _,
            after: _,
        } = self;
    }
}

// All callers play to the end.
fn play_all<'a, N: PoolName + Send + Sync, R: Clock + Threads + Wait + Sync>(
    rt: &R,
    endurance: &'a Endurance,
    part: Part,
    mempool: &'a Mempool<N, Spinning>,
    reader: &'a Reader<N, Spinning>,
    passes: &mut [Pass<N>],
) -> Option<()> {
    let post = Mutex::new(passes.first()?.shown().share().ok()?);
    let millis = MILLIS_FOR_EACH.saturating_mul(u64::from(endurance.callers));
    let scene = Scene {
        memory: endurance.memory,
        mempool,
        reader,
        table: &endurance.table,
        counts: &endurance.counts,
        receipts: &endurance.receipts,
        kept: (0, u64::MAX),
        post: &post,
        part,
        start: Instant::now(rt).ok()?,
        period: Duration::from_millis(millis),
    };
    let threads = passes.len().max(1);
    for_each_mut(
        rt,
        passes,
        threads,
        &|caller, pass: &mut Pass<N>| play(rt, &scene, caller, pass),
    );
    Some(())
}

fn is_fresh<N: PoolName>(place: usize, pass: &Pass<N>) -> bool {
    pass.caller() as usize == place && pass.last_place().is_none() && pass.front().len() == 0
}

// Whether these are the passes of this many callers before any change.
fn are_fresh<N: PoolName>(passes: &[Pass<N>], callers: u32) -> bool {
    for (place, pass) in passes.iter().enumerate() {
        if !is_fresh(place, pass) {
            return false;
        }
    }
    passes.len() == callers as usize
}

fn see<N: PoolName>(
    reader: &Reader<N, Spinning>,
    passes: &mut [Pass<N>],
    view: &mut View,
) -> Option<()> {
    let pass = passes.first_mut()?;
    reader.refresh(pass);
    view.take_down(&pass.snapshot())
}

// Plays the part, and records the content of the pool when it opens and at the end.
fn play_part<N: PoolName + Send + Sync, R: Clock + Threads + Wait + Sync>(
    rt: &R,
    endurance: &Endurance,
    part: Part,
    mempool: &Mempool<N, Spinning>,
    reader: &Reader<N, Spinning>,
    passes: &mut [Pass<N>],
    chapter: &mut Chapter,
) -> Option<()> {
    see(reader, passes, &mut chapter.opening)?;
    play_all(rt, endurance, part, mempool, reader, passes)?;
    see(reader, passes, &mut chapter.closing)
}

// The record of a pool with these passes.
fn live<N: PoolName + Send + Sync, R: Clock + Threads + Wait + Sync>(
    rt: &R,
    endurance: &Endurance,
    part: Part,
    mempool: &Mempool<N, Spinning>,
    reader: &Reader<N, Spinning>,
    passes: &mut [Pass<N>],
    chapter: &mut Chapter,
) -> Result<(), EnduranceFault> {
    if !are_fresh(passes, endurance.callers) {
        return Err(EnduranceFault::StalePasses);
    }
    play_part(rt, endurance, part, mempool, reader, passes, chapter).ok_or(
        EnduranceFault::Wanting,
    )?;
    let history = take_history(
        rt,
        endurance.memory,
        &endurance.receipts,
        0,
        chapter.closing.number,
    );
    chapter.entries = history.ok_or(EnduranceFault::LostEntry)?;
    Ok(())
}

// The record of the successor, whose last version all callers see at the end.
fn live_on<M: PoolName + Send + Sync, R: Clock + Threads + Wait + Sync>(
    rt: &R,
    endurance: &Endurance,
    part: Part,
    heir: &Mempool<M, Spinning>,
    reader: &Reader<M, Spinning>,
    passes: &mut [Pass<M>],
    chapter: &mut Chapter,
) -> Result<(), EnduranceFault> {
    live(rt, endurance, part, heir, reader, passes, chapter)?;
    if count_seen(reader, passes, chapter.closing.number) != u64::from(endurance.callers) {
        return Err(EnduranceFault::OldVersion);
    }
    Ok(())
}

// The records of the pool, and of a successor with this name.
fn go_on<N: PoolName + Send + Sync, M: PoolName + Send + Sync, R: Clock + Threads + Wait + Sync>(
    rt: &R,
    endurance: &Endurance,
    plan: Plan,
    opened: Opened<N, Spinning>,
    name: NewName,
    tale: &mut Tale,
) -> Result<(), EnduranceFault>
    requires name { name ≡ head_of M.book M.root }
    requires callers { endurance.now.callers ≡ M.callers }
    requires accepts { M.accepts ≡ N.accepts }
{
    let (mempool, reader, mut passes) = opened;
    live(
        rt,
        endurance,
        plan.before,
        &mempool,
        &reader,
        &mut passes,
        &mut tale.before,
    )?;
    match mempool.into_successor::<M>(
        rt,
        endurance.memory,
        name,
        passes,
        LIMIT,
        endurance.callers,
    ) {
        Ok((heir, reader, mut passes)) => live_on(
            rt,
            endurance,
            plan.after,
            &heir,
            &reader,
            &mut passes,
            &mut tale.after,
        ),
        Err((refusal, _, _)) => Err(EnduranceFault::NotHandedOver(refusal.number())),
    }
}

fn open<N: PoolName + Send + Sync, R: Clock + Threads + Wait + Sync>(
    rt: &R,
    endurance: &Endurance,
    plan: Plan,
    name: NewName,
    tale: &mut Tale,
) -> Result<(), EnduranceFault>
    requires name { name ≡ head_of N.book N.root }
    requires callers { endurance.now.callers ≡ N.callers }
    requires accepts { N.accepts ≡ any }
{
    let config = Config {
        limit: LIMIT,
        last: plan.last,
    };
    let (memory, ledger, callers) = (endurance.memory, &endurance.ledger, endurance.callers);
    let Ok(verifier) = Arc::new(memory, Spinning::new()) else {
        return Err(EnduranceFault::Wanting);
    };
    match Mempool::<N, _>::open(rt, memory, name, config, ledger, &verifier, callers) {
        Ok(opened) => go_on::<N, Brand, _>(rt, endurance, plan, opened, NewName::new(), tale),
        Err(_) => Err(EnduranceFault::NotOpened),
    }
}

/// Plays a pool, has it hand over, and plays its successor.
pub fn play_pools<R: Clock + Threads + Wait + Sync>(
    rt: &R,
    endurance: &Endurance,
    plan: Plan,
    tale: &mut Tale,
) -> Result<(), EnduranceFault> {
    open::<Brand, _>(rt, endurance, plan, NewName::new(), tale)
}
