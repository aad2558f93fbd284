//! A caller that gives random commands.

use super::dice::Dice;
use super::table::Table;
use crate::shared::ask;
use crate::verifier::Spinning;
use mp_history::PoolName;
use mp_memory::Memory;
use mp_mempool::{Mempool, Pass, Reader, Receipt, Refusal};
use mp_seqpool::Command;
use mp_versions::{Shown, Snapshot};
use std::rt::Clock;
use std::sync::atomic::{AtomicU64, Ordering};
use std::sync::{Mutex, Wait};
use std::thread;
use std::time::{Duration, Instant};

// The number of commands that a caller gives in a turn.
const BURST: u32 = 20;

/// The results of all callers' commands.
#[derive(Drop)]
pub struct Counts {
    entered: AtomicU64,
    refused: AtomicU64,
    snapshots: AtomicU64,
    learned: AtomicU64,
    strange: AtomicU64,
}

// The result of a command.
#[derive(Clone, Copy)]
enum Came {
    Entered,
    Refused,
    Snapshot,
    Learned,
    /// A result that must not occur: an allocation failure, an unknown pass, or a snapshot that goes backwards or isn't
    /// sound.
    Strange,
    Nothing,
}

impl Counts {
    /// All counts are 0.
    pub fn none() -> Counts {
        Counts {
            entered: AtomicU64::new(0),
            refused: AtomicU64::new(0),
            snapshots: AtomicU64::new(0),
            learned: AtomicU64::new(0),
            strange: AtomicU64::new(0),
        }
    }

    fn add(&self, came: Came) {
        let count = match came {
            Came::Entered => &self.entered,
            Came::Refused => &self.refused,
            Came::Snapshot => &self.snapshots,
            Came::Learned => &self.learned,
            Came::Strange => &self.strange,
            Came::Nothing => return,
        };
        count.fetch_add(1, Ordering::SeqCst);
    }

    /// Whether a result occurred that must not.
    pub fn has_strange(&self) -> bool {
        self.strange.load(Ordering::SeqCst) != 0
    }

    /// The numbers of accepted commands, of refusals, of snapshots, of versions that a caller learned, and of results
    /// that must not occur.
    pub fn read(&self) -> [u64; 5] {
        [
            self.entered.load(Ordering::SeqCst),
            self.refused.load(Ordering::SeqCst),
            self.snapshots.load(Ordering::SeqCst),
            self.learned.load(Ordering::SeqCst),
            self.strange.load(Ordering::SeqCst),
        ]
    }
}

/// What callers do on one pool: the seed, and the number of turns.
#[derive(Clone, Copy)]
pub struct Part {
    pub seed: u64,
    pub turns: u32,
}

/// What callers share, and when they play.
#[derive(Drop)]
pub struct Scene<'a, N: PoolName> {
    pub memory: Memory,
    pub mempool: &'a Mempool<N, Spinning>,
    pub reader: &'a Reader<N, Spinning>,
    pub table: &'a Table,
    pub counts: &'a Counts,
    pub receipts: &'a Mutex<Vec<Receipt, Memory>>,
    /// The places of the receipts that are kept: the first one, and the one after the last.
    pub kept: (u64, u64),
    /// Where callers tell one another what they have seen.
    pub post: &'a Mutex<Shown<N>>,
    pub part: Part,
    /// When their first turn begins: turns begin at the same times for all.
    pub start: Instant,
    pub period: Duration,
}

// Keeps the receipt if its place is one of those that are kept.
fn keep_some<N: PoolName>(rt: &impl Wait, scene: &Scene<'_, N>, receipt: Receipt) -> Came {
    let (first, end) = scene.kept;
    if receipt.place < first || receipt.place >= end {
        return Came::Entered;
    }
    match scene.receipts.lock(rt).push(receipt) {
        Ok(()) => Came::Entered,
        Err(_) => Came::Strange,
    }
}

fn note<N: PoolName>(
    rt: &impl Wait,
    scene: &Scene<'_, N>,
    answer: Result<Receipt, Refusal<N>>,
) -> Came {
    match answer {
        Ok(receipt) => keep_some(rt, scene, receipt),
        Err(Refusal::Foreign(_front)) => Came::Strange,
        Err(Refusal::Pool(mp_seqpool::Refusal::NoMemory)) => Came::Strange,
        Err(Refusal::Pool(_refusal)) => Came::Refused,
    }
}

fn change<N: PoolName>(
    rt: &impl Wait,
    scene: &Scene<'_, N>,
    pass: &mut Pass<N>,
    command: Option<&Command>,
) -> Came {
    match command {
        Some(command) => note(rt, scene, ask(rt, scene.mempool, pass, command)),
        None => Came::Nothing,
    }
}

/// Whether it has at least this many entries and this last ticket, its tickets are strictly increasing, and its numbers
/// are those of its transactions.
pub fn is_sound<N: PoolName>(snapshot: &Snapshot<'_, N>, least: u64, last: u64) -> bool {
    let mut count: usize = 0;
    let mut bytes: u64 = 0;
    let mut ticket: u64 = 0;
    for item in snapshot.txs() {
        if item.ticket <= ticket {
            return false;
        }
        ticket = item.ticket;
        count = count.saturating_add(1);
        bytes = bytes.saturating_add(item.tx.size());
    }
    snapshot.number() >= least
        && snapshot.last() >= ticket.max(last)
        && snapshot.size() == (count, bytes)
}

fn look<N: PoolName>(reader: &Reader<N, Spinning>, pass: &mut Pass<N>) -> Came {
    let (least, last) = (pass.front().len(), pass.snapshot().last());
    reader.refresh(pass);
    if is_sound(&pass.snapshot(), least, last) {
        Came::Snapshot
    } else {
        Came::Strange
    }
}

// Asks what would stay on another ledger state.
fn look_upon<N: PoolName>(
    scene: &Scene<'_, N>,
    pass: &mut Pass<N>,
    command: Option<&Command>,
) -> Came {
    let Some(Command::Sync(ledger)) = command else {
        return Came::Nothing;
    };
    let least = pass.front().len();
    match scene.reader.snapshot_for(scene.memory, pass, ledger) {
        Ok(kept) if kept.number >= least => Came::Snapshot,
        _ => Came::Strange,
    }
}

fn learn<N: PoolName>(rt: &impl Wait, scene: &Scene<'_, N>, pass: &mut Pass<N>) -> Came {
    let told = scene.post.lock(rt).share();
    match told {
        Ok(shown) => {
            scene.reader.learn(pass, shown);
            Came::Learned
        }
        Err(_) => Came::Strange,
    }
}

fn tell<N: PoolName>(rt: &impl Wait, post: &Mutex<Shown<N>>, pass: &Pass<N>) -> Came {
    match pass.shown().share() {
        Ok(shown) => {
            *post.lock(rt) = shown;
            Came::Nothing
        }
        Err(_) => Came::Strange,
    }
}

// Takes one random step.
fn step<N: PoolName>(rt: &impl Wait, scene: &Scene<'_, N>, dice: &mut Dice, pass: &mut Pass<N>) {
    let came = match dice.roll() % 16 {
        0 => change(rt, scene, pass, dice.pick(&scene.table.syncs)),
        1..=8 => change(rt, scene, pass, dice.pick(&scene.table.changes)),
        9 | 10 => learn(rt, scene, pass),
        11 => tell(rt, scene.post, pass),
        12 => look_upon(scene, pass, dice.pick(&scene.table.syncs)),
        _ => look(scene.reader, pass),
    };
    scene.counts.add(came);
}

// Waits until the turn begins.
fn wait_for<N: PoolName>(rt: &impl Clock, scene: &Scene<'_, N>, turn: u32) {
    let due = scene.period.saturating_mul(turn);
    if let Ok(now) = scene.start.elapsed(rt) {
        thread::sleep(rt, due.saturating_sub(now));
    }
}

fn dice_of<N: PoolName>(scene: &Scene<'_, N>, caller: usize) -> Dice {
    Dice::of(
        scene
            .part
            .seed
            .wrapping_add(caller as u64)
            .wrapping_mul(0x9e37_79b9_7f4a_7c15),
    )
}

/// What the caller of this number does without a pause until it has seen this number of entries.
pub fn play_until<N: PoolName>(
    rt: &impl Wait,
    scene: &Scene<'_, N>,
    caller: usize,
    pass: &mut Pass<N>,
    entries: u64,
) {
    let mut dice = dice_of(scene, caller);
    for _ in 0..u64::MAX {
        step(rt, scene, &mut dice, pass);
        if pass.front().len() >= entries {
            break;
        }
    }
}

/// What the caller of this number does in all turns.
pub fn play<N: PoolName>(
    rt: &(impl Clock + Wait),
    scene: &Scene<'_, N>,
    caller: usize,
    pass: &mut Pass<N>,
) {
    let mut dice = dice_of(scene, caller);
    for turn in 0..scene.part.turns {
        wait_for(rt, scene, turn);
        for _ in 0..BURST {
            step(rt, scene, &mut dice, pass);
        }
    }
}
