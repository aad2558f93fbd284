//! A long trial of one pool that never hands over.
ghost use Rattle.std.specs.Prelude.{◌≡◌};
ghost use Rattle.mp_history.specs.PoolName.{head_of};
ghost use Rattle.mp_bench.specs.Signatures.{any};

use super::Endurance;
use super::chapter::take_history;
use super::player::{Part, Scene, is_sound, play_until};
use crate::shared::ask_all;
use crate::verifier::Spinning;
use anyhow::{Context, Result, bail, ensure};
use mp_history::{NewName, PoolName, audit};
use mp_mempool::{Config, Mempool, Opened, Pass, Reader};
use mp_versions::Snapshot;
use std::fs;
use std::marker::Brand;
use std::rt::{Clock, Files};
use std::sync::{Arc, Mutex, Wait};
use std::thread::{Threads, for_each_mut};
use std::time::{Duration, Instant};

// The number of parts of the changes. After each the memory is printed.
const PARTS: u64 = 10;

// The number of entries that are audited in each part.
const AUDITED: u64 = 10_000;

// The least number of changes.
const LEAST: u64 = 200_000;

// The number of commands before a snapshot that is held throughout.
const BEFORE: usize = 34;

// The greatest number of changes, and the first ticket is 1.
const CONFIG: Config = Config {
    limit: 1 << 32,
    last: 0,
};

/// A soak: its seed, the number of its changes, and whether the last caller stays idle and holds a snapshot.
#[derive(Clone, Copy)]
pub struct Soak {
    pub seed: u64,
    pub changes: u64,
    pub is_held: bool,
}

// Where the entries begin that are audited, and the last ticket before them.
#[derive(Clone, Copy)]
struct Sample {
    first: u64,
    last: u64,
}

// Adopts a ledger state without outputs. The entries that follow are those of a pool that opens with it.
fn clear<N: PoolName>(
    rt: &impl Wait,
    endurance: &Endurance,
    mempool: &Mempool<N, Spinning>,
    pass: &mut Pass<N>,
) -> Option<Sample> {
    let receipt = mempool.sync(rt, pass, &endurance.empty).ok()?;
    let snapshot = pass.snapshot();
    if snapshot.size() != (0, 0) {
        return None;
    }
    Some(Sample {
        first: receipt.place.saturating_add(1),
        last: snapshot.last(),
    })
}

// All play until each has seen this number of entries.
fn play_all<'a, N: PoolName + Send + Sync, R: Clock + Threads + Wait + Sync>(
    rt: &R,
    endurance: &'a Endurance,
    mempool: &'a Mempool<N, Spinning>,
    reader: &'a Reader<N, Spinning>,
    passes: &mut [Pass<N>],
    seed: u64,
    first: u64,
    entries: u64,
) -> Option<()> {
    let post = Mutex::new(passes.first()?.shown().share().ok()?);
    let scene = Scene {
        memory: endurance.memory,
        mempool,
        reader,
        table: &endurance.table,
        counts: &endurance.counts,
        receipts: &endurance.receipts,
        kept: (first, first.saturating_add(AUDITED)),
        post: &post,
        part: Part { seed, turns: 0 },
        start: Instant::now(rt).ok()?,
        period: Duration::from_millis(0),
    };
    let threads = passes.len().max(1);
    for_each_mut(
        rt,
        passes,
        threads,
        &|caller, pass: &mut Pass<N>| play_until(rt, &scene, caller, pass, entries),
    );
    Some(())
}

// Prints the number of entries and the resident memory.
fn print_memory(rt: &(impl Print + Files + AllocGlobal), entries: u64) -> Result<()> {
    let sizes = fs::read_to_string(rt, "/proc/self/statm").context("no sizes")?;
    let word = sizes.split_whitespace().nth(1).context("no size")?;
    let pages = word.parse::<u64>().context("a size is no number")?;
    println!(rt;
        "{entries} entries, {} KB resident",
        pages.saturating_mul(4)
    )?;
    Ok(())
}

// Audits the sample.
fn audit_sample(rt: &impl Wait, endurance: &Endurance, sample: Sample) -> Result<()> {
    let entries = take_history(
        rt,
        endurance.memory,
        &endurance.receipts,
        sample.first,
        AUDITED,
    );
    let entries = entries.context("the receipts don't tell of all entries")?;
    let config = mp_seqpool::Config {
        limit: CONFIG.limit,
        last: sample.last,
    };
    audit(
        endurance.memory,
        config,
        &endurance.empty,
        endurance.callers,
        &entries,
        &Spinning::new(),
    )?;
    Ok(())
}

// Plays until there are this many entries, and audits a sample.
fn play_part<N: PoolName + Send + Sync, R: Clock + Threads + Wait + Sync>(
    rt: &R,
    endurance: &Endurance,
    mempool: &Mempool<N, Spinning>,
    reader: &Reader<N, Spinning>,
    passes: &mut [Pass<N>],
    seed: u64,
    entries: u64,
) -> Result<()> {
    let pass = passes.first_mut().context("no caller")?;
    let sample = clear(rt, endurance, mempool, pass).context("the pool isn't empty")?;
    let played = play_all(
        rt,
        endurance,
        mempool,
        reader,
        passes,
        seed,
        sample.first,
        entries,
    );
    played.context("no memory")?;
    audit_sample(rt, endurance, sample)
}

// Plays all parts, and prints the memory after each.
fn play_parts<
    N: PoolName + Send + Sync,
    R: Clock + Threads + Wait + Print + Files + AllocGlobal + Sync,
>(
    rt: &R,
    endurance: &Endurance,
    mempool: &Mempool<N, Spinning>,
    reader: &Reader<N, Spinning>,
    passes: &mut [Pass<N>],
    soak: Soak,
) -> Result<()> {
    for part in 1..=PARTS {
        let entries = (soak.changes / PARTS).saturating_mul(part);
        let seed = soak.seed.wrapping_add(part);
        play_part(rt, endurance, mempool, reader, passes, seed, entries)?;
        print_memory(rt, entries)?;
    }
    Ok(())
}

// What is compared of a snapshot: the numbers of its entries, its last ticket, and its size.
fn look_at<N: PoolName>(snapshot: &Snapshot<'_, N>) -> (u64, u64, usize, u64) {
    let (count, bytes) = snapshot.size();
    (snapshot.number(), snapshot.last(), count, bytes)
}

// All but the last caller play. That one submits a few transactions at first, and holds a snapshot of them.
fn play_beside<
    N: PoolName + Send + Sync,
    R: Clock + Threads + Wait + Print + Files + AllocGlobal + Sync,
>(
    rt: &R,
    endurance: &Endurance,
    mempool: &Mempool<N, Spinning>,
    reader: &Reader<N, Spinning>,
    passes: &mut [Pass<N>],
    soak: Soak,
) -> Result<()> {
    let (idle, players) = passes.split_last_mut().context("no caller")?;
    let before = endurance
        .table
        .changes
        .get(..BEFORE)
        .context("no commands")?;
    ask_all(rt, mempool, idle, before);
    let snapshot = idle.snapshot();
    let seen = look_at(&snapshot);
    play_parts(rt, endurance, mempool, reader, players, soak)?;
    ensure!(
        look_at(&snapshot) == seen && is_sound(&snapshot, seen.0, seen.1),
        "the snapshot that was held has changed"
    );
    println!(rt; "a snapshot of {} entries is as it was", seen.0)?;
    Ok(())
}

fn play<N: PoolName + Send + Sync, R: Clock + Threads + Wait + Print + Files + AllocGlobal + Sync>(
    rt: &R,
    endurance: &Endurance,
    opened: Opened<N, Spinning>,
    soak: Soak,
) -> Result<()> {
    let (mempool, reader, mut passes) = opened;
    if soak.is_held {
        play_beside(rt, endurance, &mempool, &reader, &mut passes, soak)
    } else {
        play_parts(rt, endurance, &mempool, &reader, &mut passes, soak)
    }
}

fn open<N: PoolName + Send + Sync, R: Clock + Threads + Wait + Print + Files + AllocGlobal + Sync>(
    rt: &R,
    endurance: &Endurance,
    name: NewName,
    soak: Soak,
) -> Result<()>
    requires name { name ≡ head_of N.book N.root }
    requires callers { endurance.now.callers ≡ N.callers }
    requires accepts { N.accepts ≡ any }
{
    let (memory, ledger, callers) = (endurance.memory, &endurance.ledger, endurance.callers);
    let verifier = Arc::new(memory, Spinning::new())?;
    match Mempool::<N, _>::open(rt, memory, name, CONFIG, ledger, &verifier, callers) {
        Ok(opened) => play(rt, endurance, opened, soak),
        Err(refusal) => bail!("{refusal}"),
    }
}

/// Makes changes on one pool, and prints the resident memory after each tenth of them.
pub fn run_soak<R: Clock + Threads + Wait + Print + Files + AllocGlobal + Sync>(
    rt: &R,
    endurance: &Endurance,
    soak: Soak,
) -> Result<()> {
    ensure!(soak.changes >= LEAST, "there are at least 200,000 changes");
    open::<Brand, _>(rt, endurance, NewName::new(), soak)?;
    let [entered, refused, snapshots, learned, strange] = endurance.counts.read();
    println!(rt;
        "{entered} entered, {refused} refused, {snapshots} snapshots, {learned} learned, {strange} strange"
    )?;
    ensure!(strange == 0, "an answer was strange");
    Ok(())
}
