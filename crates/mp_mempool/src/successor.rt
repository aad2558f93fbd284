//! How a pool hands over.
ghost use Rattle.std.specs.Prelude.{◌≡◌, ◌≤◌, ◌^◌, All, IfNone, IfSome, IfOk, IfErr, OnOk, None, length, map, take};
ghost use Rattle.std.specs.List.{range_with_len};
ghost use Rattle.mp_history.specs.Log.{IsLegalLog};
ghost use Rattle.mp_history.specs.PoolName.{head_of};
ghost use Rattle.mp_history.specs.Successors.{successor};
ghost use Rattle.mp_mempool.specs.Opening.{open_fault, fresh_passes};
ghost use Rattle.mp_mempool.specs.Successor.{numbers, AreAll, AreBadAt, IsKnownTo, IsFirstForeign, HandsOver, IsRefusedSuccessor};
ghost use Rattle.mp_mempool.specs.Inside.Heir.{IsHeir};

use crate::opening::{Desk, open_fault, set_desk};
use crate::read::{Pass, Reader};
use crate::readers::{Readers, make_readers};
use crate::refusal::{OpenRefusal, SuccessorRefusal};
use crate::write::Locked;
use mp_history::{CommitRight, Front, History, NewName, PoolName};
use mp_memory::{Memory, NoMemory};
use mp_rules::Verifier;
use mp_versions::{Publisher, Shown};
use std::sync::{Arc, Wait};

/// What a successor opens with, except the sequential pool that it takes over.
#[derive(Drop)]
pub(crate) struct Heir<M: PoolName, V: Verifier + Drop> {
    pub(crate) history: History<M>,
    pub(crate) right: CommitRight<M>,
    pub(crate) shown: Shown<M>,
    pub(crate) publisher: Publisher<M>,
    pub(crate) places: Vec<Option<u64>, Memory>,
    pub(crate) readers: Readers<M, V>,
    pub(crate) passes: Vec<Pass<M>, Memory>,
}

// The first place at which the passes aren't those of the callers 0, 1, .., of whom there are `callers`.
fn bad_place<N: PoolName>(passes: &[Pass<N>], callers: usize) -> Option<usize>
    requires { callers ≡ N.callers }
    ensures bad { IfSome result (AreBadAt callers passes.now) }
    ensures all { IfNone result (AreAll callers passes.now) }
{
    for (place, pass) in passes.iter().enumerate() {
        if pass.caller() as usize != place {
            return Some(place);
        }
    }
    if passes.len() < callers {
        Some(passes.len())
    } else {
        None
    }
}

// The history, if one of the passes doesn't know an entry of its caller.
fn foreign_front<N: PoolName>(locked: &mut Locked<N>, passes: &[Pass<N>]) -> Option<Front<N>>
    ensures same { locked.new ≡ locked.old }
    ensures foreign { IfSome result (IsFirstForeign passes.now) }
    ensures known { IfNone result (All (IsKnownTo locked.old.log) passes.now) }
    ensures legal { IsLegalLog N.accepts N.callers locked.old.log }
{
    let front = locked.front();
    for pass in passes {
        if !locked.is_known_to(pass) {
            return Some(front);
        }
    }
    None
}

// Why the pool doesn't hand over, given enough memory.
fn refuse<N: PoolName>(
    locked: &mut Locked<N>,
    passes: &[Pass<N>],
    limit: u64,
    callers: u32,
) -> Option<SuccessorRefusal<N>>
    ensures same { locked.new ≡ locked.old }
    ensures refused { IfSome result (IsRefusedSuccessor N.accepts N.callers
        passes.now limit callers) }
    ensures over { IfNone result (HandsOver N.accepts N.callers passes.now locked.old.log) }
    ensures open { IfNone result (open_fault limit callers ≡ None) }
    ensures some { IfNone result (1 ≤ callers) }
    ensures most { IfNone result (callers ≤ 1024) }
    ensures least { IfNone result (1 ≤ limit) }
    ensures greatest { IfNone result (limit ≤ 2 ^ 32) }
{
    if let Some(place) = bad_place(passes, locked.callers()) {
        return Some(SuccessorRefusal::BadPasses(place));
    }
    match open_fault(limit, callers) {
        Some(OpenRefusal::BadCallers) => return Some(SuccessorRefusal::BadCallers),
        Some(OpenRefusal::BadLimit) => return Some(SuccessorRefusal::BadLimit),
        Some(OpenRefusal::NoMemory) => unreachable!(),
        None => {}
    }
    match foreign_front(locked, passes) {
        Some(front) => Some(SuccessorRefusal::Foreign(front)),
        None => None,
    }
}

// The version with which the successor opens.
fn renewed_version<N: PoolName, M: PoolName>(
    memory: Memory,
    newest: &Shown<N>,
    limit: u64,
    right: &CommitRight<M>,
) -> Result<Shown<M>, NoMemory>
    requires least { 1 ≤ limit }
    requires greatest { limit ≤ 2 ^ 32 }
    requires state { right.now ≡ successor N.accepts limit newest.now }
    requires legal { IsLegalLog M.accepts M.callers right.now }
    ensures { IfOk result (λ shown. shown ≡ right.now) }
{
    let version = newest.version().renewed(limit)?;
    Ok(Shown::of(Arc::new(memory, version)?, right.front()))
}

// Allocates all with which the successor opens.
fn make_heir<N: PoolName, M: PoolName, V: Verifier + Drop>(
    rt: &impl Wait,
    memory: Memory,
    name: NewName,
    reader: &Reader<N, V>,
    locked: &Locked<N>,
    limit: u64,
    callers: u32,
) -> Result<Heir<M, V>, NoMemory>
    requires name { name ≡ head_of M.book M.root }
    requires number { callers ≡ M.callers }
    requires accepts { M.accepts ≡ N.accepts }
    requires some { 1 ≤ callers }
    requires most { callers ≤ 1024 }
    requires least { 1 ≤ limit }
    requires greatest { limit ≤ 2 ^ 32 }
    requires legal { IsLegalLog N.accepts N.callers locked.now.log }
    ensures heir { IfOk result (λ h. IsHeir M.accepts M.callers
        (successor N.accepts limit locked.now.log)
        h.right h.shown h.publisher h.places.items) }
    ensures passes { IfOk result (λ h. h.passes.items
        ≡ fresh_passes callers (successor N.accepts limit locked.now.log)) }
{
    let (history, right, tokens) = History::open(name, memory, callers, locked.pool(), limit)?;
    let shown = renewed_version(memory, locked.newest(), limit, &right)?;
    let Desk {
        shown,
        passes,
        boards,
        publisher,
        places,
    } = set_desk(rt, memory, tokens, shown, callers)?;
    let readers = make_readers(memory, reader.share_verifier()?, boards)?;
    Ok(Heir {
        history,
        right,
        shown,
        publisher,
        places,
        readers,
        passes,
    })
}

/// Allocates all with which the successor opens, if the pool hands over.
pub(crate) fn prepare<N: PoolName, M: PoolName, V: Verifier + Drop>(
    rt: &impl Wait,
    memory: Memory,
    name: NewName,
    reader: &Reader<N, V>,
    locked: &mut Locked<N>,
    passes: &[Pass<N>],
    limit: u64,
    callers: u32,
) -> Result<Heir<M, V>, SuccessorRefusal<N>>
    requires name { name ≡ head_of M.book M.root }
    requires number { callers ≡ M.callers }
    requires accepts { M.accepts ≡ N.accepts }
    ensures same { locked.new ≡ locked.old }
    ensures over { IfOk result (λ _. HandsOver N.accepts N.callers passes.now locked.old.log) }
    ensures heir { IfOk result (λ h. IsHeir M.accepts M.callers
        (successor N.accepts limit locked.old.log)
        h.right h.shown h.publisher h.places.items) }
    ensures passes { IfOk result (λ h. h.passes.items
        ≡ fresh_passes callers (successor N.accepts limit locked.old.log)) }
    ensures open { OnOk result (open_fault limit callers ≡ None) }
    ensures least { IfOk result (λ _. 1 ≤ limit) }
    ensures greatest { IfOk result (λ _. limit ≤ 2 ^ 32) }
    ensures refused { IfErr result (IsRefusedSuccessor N.accepts N.callers
        passes.now limit callers) }
{
    if let Some(refusal) = refuse(locked, passes, limit, callers) {
        return Err(refusal);
    }
    match make_heir(rt, memory, name, reader, locked, limit, callers) {
        Ok(heir) => Ok(heir),
        Err(NoMemory) => Err(SuccessorRefusal::NoMemory),
    }
}
