//! Boards that are freed, and boards for which memory is refused.
use crate::versions::board::{Site, publish, publish_all};
use mp_history::PoolName;
use mp_memory::{Memory, NoMemory};
use mp_testing::{Seen, count};
use mp_versions::{Boards, Shown, Version};
use std::io;
use std::sync::{Arc, Mutex, Wait};

// A board has room for 63 versions.
const FULL: u32 = 63;

// More allocations than it takes to open a board.
const MAX_ALLOCATIONS: u64 = 100;

// How many owners the version has in addition to the first ones: while a subscriber has the first board, and once it has caught up.
fn see_freed<N: PoolName>(
    rt: &impl Wait,
    memory: Memory,
    version: &Arc<Version, Memory>,
    shown: &Shown<N>,
) -> Result<Seen, NoMemory> {
    let before = Arc::strong_count(version) as u64;
    let (boards, publisher) = Boards::open(rt, memory, shown)?;
    let mut subscriber = publisher.subscriber()?;
    let publisher = Mutex::new(publisher);
    let site = Site {
        memory,
        boards: &boards,
        publisher: &publisher,
        shown,
    };
    let refused = publish_all(rt, &site, 10 * FULL);
    let kept = Arc::strong_count(version) as u64;
    subscriber.catch_up(&boards);
    let freed = Arc::strong_count(version) as u64;
    Ok([
        refused,
        kept.wrapping_sub(before),
        freed.wrapping_sub(before),
        0,
        0,
        0,
    ])
}

// Publishes on a full board while that allocation is refused: whether the refusal came, and whether a subscriber that keeps the board
// has a version more.
fn publish_refused<N: PoolName>(
    rt: &impl Wait,
    memory: Memory,
    version: &Arc<Version, Memory>,
    shown: &Shown<N>,
    nth: u64,
) -> Result<(bool, bool), NoMemory> {
    let (boards, publisher) = Boards::open(rt, memory, shown)?;
    let publisher = Mutex::new(publisher);
    let site = Site {
        memory,
        boards: &boards,
        publisher: &publisher,
        shown,
    };
    publish_all(rt, &site, FULL - 1);
    let full = Arc::strong_count(version);
    memory.refuse(nth);
    let published = publish(rt, &site);
    let is_met = !memory.waits();
    memory.refuse(0);
    published?;
    Ok((is_met, Arc::strong_count(version) == full.saturating_add(1)))
}

// How many refusals came, up to the two that are wanted. After each the full board has the version.
fn see_refused<N: PoolName>(
    rt: &impl Wait,
    memory: Memory,
    version: &Arc<Version, Memory>,
    shown: &Shown<N>,
) -> Result<Seen, NoMemory> {
    let mut met: u64 = 0;
    for nth in 1..MAX_ALLOCATIONS {
        let (is_met, is_on_board) = publish_refused(rt, memory, version, shown, nth)?;
        if !is_met {
            break;
        }
        if !is_on_board {
            return Err(NoMemory);
        }
        met = met.saturating_add(1);
    }
    Ok([met.min(2), 0, 0, 0, 0, 0])
}

/// How many cases hold.
pub fn count_freed<N: PoolName>(
    rt: &(impl Print + Wait),
    memory: Memory,
    version: &Arc<Version, Memory>,
    shown: &Shown<N>,
) -> io::Result<u64> {
    let seen = see_freed(rt, memory, version, shown).ok();
    let freed = count(rt, "boards are freed", seen, [0, 64, 1, 0, 0, 0])?;
    let seen = see_refused(rt, memory, version, shown).ok();
    let refused = count(rt, "a full board goes on", seen, [2, 0, 0, 0, 0, 0])?;
    Ok(freed.wrapping_add(refused))
}
