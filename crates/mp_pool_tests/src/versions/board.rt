//! Boards: threads that read while versions are published, boards that are freed, and publications at refused allocations.
ghost use Rattle.std.specs.Prelude.{◌≡◌, IfSome};
ghost use Rattle.mp_seqpool.specs.PoolLaws.{IsLawful};
ghost use Rattle.mp_seqpool.specs.Config.{renewed};
ghost use Rattle.mp_history.specs.PoolName.{head_of};
ghost use Rattle.mp_testing.specs.Names.{any};

use crate::versions::freed::count_freed;
use mp_history::{History, NewName, PoolName};
use mp_memory::{Memory, NoMemory};
use mp_seqpool::SeqPool;
use mp_testing::commands::{PART, Samples};
use mp_testing::{CONFIG, Seen, count};
use mp_versions::{Boards, Publisher, Shown, Snapshot, Subscriber, Version};
use std::io;
use std::marker::Brand;
use std::sync::{Arc, Mutex, Wait};
use std::thread::{Threads, for_each_mut};

// How often each thread reads or publishes.
const TIMES: u32 = 500;

// How many threads there are: one that publishes the version, and four that read.
const THREADS: usize = 5;

// The pool's version, and the same after no entry of a history.
fn open<N: PoolName>(
    memory: Memory,
    name: NewName,
    pool: &SeqPool,
) -> Result<(Arc<Version, Memory>, Shown<N>), NoMemory>
    requires name { name ≡ head_of N.book N.root }
    requires callers { N.callers ≡ 1 }
    requires lawful { IsLawful N.accepts pool.now.pool }
    requires anew { renewed pool.now.pool.limit pool.now.pool ≡ pool.now.pool }
{
    let version = Arc::new(memory, Version::of(memory, pool)?)?;
    let (_history, right, _callers) = History::<N>::open(
        name,
        memory,
        1,
        pool,
        pool.config().limit,
    )?;
    let shown = Shown::of(Arc::try_clone(&version)?, right.front());
    Ok((version, shown))
}

/// Where versions are published, for all threads, and the version.
pub struct Site<'a, N: PoolName> {
    pub memory: Memory,
    pub boards: &'a Boards<N>,
    pub publisher: &'a Mutex<Publisher<N>>,
    pub shown: &'a Shown<N>,
}

impl<N: PoolName> Drop for Site<'_, N> {
    fn drop(self) {
        let Site {
            memory: _,
            boards: _,
            publisher: _,
            shown: _,
        } = self;
    }
}

// A thread: what it reads by, and how often something was wrong.
struct Seat<N: PoolName> {
    subscriber: Subscriber<N>,
    wrong: u64,
}

impl<N: PoolName> Drop for Seat<N> {
    fn drop(self) {
        let Seat {
            subscriber: _,
            wrong: _,
        } = self;
    }
}

/// Publishes the version.
pub fn publish<N: PoolName>(rt: &impl Wait, site: &Site<'_, N>) -> Result<(), NoMemory> {
    let shown = site.shown.share()?;
    let mut publisher = site.publisher.lock(rt);
    match publisher.publish(rt, site.memory, site.boards, shown) {
        Ok(()) => Ok(()),
        Err(_) => Err(NoMemory),
    }
}

/// Publishes the version so often, and returns how often there was no memory for that.
pub fn publish_all<N: PoolName>(rt: &impl Wait, site: &Site<'_, N>, times: u32) -> u64 {
    let mut refused: u64 = 0;
    for _ in 0..times {
        if publish(rt, site).is_err() {
            refused = refused.saturating_add(1);
        }
    }
    refused
}

fn is_strange<N: PoolName>(shown: &Shown<N>) -> bool {
    let snapshot = Snapshot::of(shown);
    (snapshot.size(), snapshot.number(), snapshot.tick()) != ((0, 0), 0, 0)
}

// Whether the newest version has other numbers than the one that is published, or there is none.
fn reads_wrong<N: PoolName>(boards: &Boards<N>, subscriber: &mut Subscriber<N>) -> bool {
    subscriber.catch_up(boards);
    match subscriber.newest() {
        Some(shown) => is_strange(shown),
        None => true,
    }
}

// Reads the newest version so often, and returns how often it was wrong.
fn read_all<N: PoolName>(boards: &Boards<N>, subscriber: &mut Subscriber<N>) -> u64 {
    let mut wrong: u64 = 0;
    for _ in 0..TIMES {
        if reads_wrong(boards, subscriber) {
            wrong = wrong.saturating_add(1);
        }
    }
    wrong
}

fn act<N: PoolName>(rt: &impl Wait, site: &Site<'_, N>, thread: usize, seat: &mut Seat<N>) {
    seat.wrong = if thread == 0 {
        publish_all(rt, site, TIMES)
    } else {
        read_all(site.boards, &mut seat.subscriber)
    };
}

fn take_seat<N: PoolName>(publisher: &Publisher<N>) -> Result<Seat<N>, NoMemory> {
    Ok(Seat {
        subscriber: publisher.subscriber()?,
        wrong: 0,
    })
}

fn take_seats<N: PoolName>(
    memory: Memory,
    publisher: &Publisher<N>,
) -> Result<Vec<Seat<N>, Memory>, NoMemory> {
    let mut seats = Vec::new(memory);
    for _ in 0..THREADS {
        seats.push(take_seat(publisher)?)?;
    }
    Ok(seats)
}

fn sum_wrong<N: PoolName>(seats: &[Seat<N>]) -> u64 {
    let mut sum: u64 = 0;
    for seat in seats {
        sum = sum.saturating_add(seat.wrong);
    }
    sum
}

// How many threads there were, and what went wrong in them.
fn see_threads<N: PoolName + Send + Sync, R: Threads + Wait + Sync>(
    rt: &R,
    memory: Memory,
    shown: &Shown<N>,
) -> Result<Seen, NoMemory> {
    let (boards, publisher) = Boards::open(rt, memory, shown)?;
    let mut seats = take_seats(memory, &publisher)?;
    let publisher = Mutex::new(publisher);
    let site = Site {
        memory,
        boards: &boards,
        publisher: &publisher,
        shown,
    };
    for_each_mut(
        rt,
        &mut seats,
        THREADS,
        &|thread, seat: &mut Seat<N>| act(rt, &site, thread, seat),
    );
    Ok([seats.len() as u64, sum_wrong(&seats), 0, 0, 0, 0])
}

fn count_threads<N: PoolName + Send + Sync, R: Print + Threads + Wait + Sync>(
    rt: &R,
    memory: Memory,
    shown: &Shown<N>,
) -> io::Result<u64> {
    let seen = see_threads(rt, memory, shown).ok();
    count(
        rt,
        "four threads read what is published",
        seen,
        [5, 0, 0, 0, 0, 0],
    )
}

fn of_name<N: PoolName + Send + Sync, R: Print + Threads + Wait + Sync>(
    rt: &R,
    memory: Memory,
    name: NewName,
    pool: &SeqPool,
) -> io::Result<u64>
    requires name { name ≡ head_of N.book N.root }
    requires callers { N.callers ≡ 1 }
    requires lawful { IsLawful N.accepts pool.now.pool }
    requires anew { renewed pool.now.pool.limit pool.now.pool ≡ pool.now.pool }
{
    match open::<N>(memory, name, pool) {
        Ok((version, shown)) => {
            let threads = count_threads(rt, memory, &shown)?;
            Ok(threads.wrapping_add(count_freed(rt, memory, &version, &shown)?))
        }
        Err(NoMemory) => count(rt, "boards", None, [0; 6]),
    }
}

fn new_pool(samples: &Samples) -> Option<SeqPool>
    ensures lawful { IfSome result (λ pool. IsLawful any pool.pool) }
    ensures anew { IfSome result (λ pool. renewed pool.pool.limit pool.pool ≡ pool.pool) }
{
    SeqPool::start(samples.memory, CONFIG, samples.ledger(PART)?).ok()
}

/// The number of cases that hold.
pub fn held_boards<R: Print + Threads + Wait + Sync>(rt: &R, samples: &Samples) -> io::Result<u64> {
    match new_pool(samples) {
        Some(pool) => of_name::<Brand, R>(rt, samples.memory, NewName::new(), &pool),
        None => count(rt, "boards", None, [0; 6]),
    }
}
