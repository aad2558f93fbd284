//! Where versions are published for all threads, and freed once nobody keeps them.
ghost use Rattle.std.specs.Prelude.{◌≡◌, ◌+◌, ◌<◌, length, OnOk, IfOk, IfSome};
ghost use Rattle.std.specs.Arc.{arc_value};

use crate::board::Board;
use crate::publisher::Publisher;
use crate::shown::Shown;
use mp_history::PoolName;
use mp_memory::{Memory, NoMemory};
use std::sync::atomic::{AtomicU64, Ordering};
use std::sync::{Arc, RwLock, RwLockWriteGuard, Wait};

// While readers are at one place, the next board goes to another.
const PLACES: u64 = 8;

// How often a reader looks again. It does if another board was opened in the meantime.
const TRIES: u32 = 8;

// A reader keeps no guard, only a share of the board.
type Place<N> = RwLock<Arc<Board<N>, Memory>>;

/// The published versions of a pool, for all threads at once: where the newest board is found. One `Publisher` publishes, one
/// thread at a time. Any number of `Subscriber`s read, each with a board of its own. A board is freed once nobody keeps it.
pub struct Boards<N: PoolName> {
    places: Vec<Place<N>, Memory>,
    // The number of the newest board, times the number of places, plus its place.
    newest: AtomicU64,
    // How many entries the version that was published last is after.
    newest_len: AtomicU64,
    ghost sized: { length places.items ≡ 8 },
}

impl<N: PoolName> Drop for Boards<N> {
    fn drop(self) {
        let Boards {
            places: _,
            newest: _,
            newest_len: _,
        } = self;
    }
}

// Puts the board in all places.
fn fill<N: PoolName>(
    places: &mut Vec<Place<N>, Memory>,
    board: &Arc<Board<N>, Memory>,
) -> Result<(), NoMemory>
    ensures { OnOk result (length places.new.items ≡ length places.old.items + 8) }
{
    for _ in 0..PLACES {
        let board = Arc::try_clone(board)?;
        places.push(RwLock::new(board))?;
    }
    Ok(())
}

// A board's number and its place, in one word.
fn mark(number: u64, place: u64) -> u64 {
    number.wrapping_mul(PLACES).wrapping_add(place % PLACES)
}

impl<N: PoolName> Boards<N> {
    /// Publishes this version, and returns the right to publish the next ones.
    pub fn open(
        rt: &impl Wait,
        memory: Memory,
        first: &Shown<N>,
    ) -> Result<(Boards<N>, Publisher<N>), NoMemory>
        ensures { IfOk result (λ opened. opened.1 ≡ first.now) }
    {
        let publisher = Publisher::new(rt, memory, 0, first)?;
        let mut places = Vec::with_capacity(memory, PLACES as usize)?;
        fill(&mut places, publisher.board())?;
        let boards = Boards {
            places,
            newest: AtomicU64::new(mark(0, 0)),
            newest_len: AtomicU64::new(first.front().len()),
        };
        Ok((boards, publisher))
    }

    /// How many entries the version that was published last is after. It is one load. A caller that has looked since it last
    /// changed finds nothing newer.
    #[inline]
    pub fn newest_len(&self) -> u64 {
        self.newest_len.load(Ordering::SeqCst)
    }

    /// A version after this many entries was published.
    pub(crate) fn set_newest_len(&self, entries: u64) {
        self.newest_len.store(entries, Ordering::SeqCst);
    }

    // The place that the word names.
    fn place(&self, word: u64) -> &Place<N> {
        &self.places[(word % PLACES) as usize]
    }

    // A place that isn't the newest board's and where nobody reads. It waits only if there is none.
    fn vacate(&self, rt: &impl Wait) -> (u64, RwLockWriteGuard<'_, Arc<Board<N>, Memory>>) {
        let newest = self.newest.load(Ordering::SeqCst);
        for step in 1..PLACES {
            let at = newest.wrapping_add(step);
            if let Some(place) = self.place(at).try_write() {
                return (at, place);
            }
        }
        let at = newest.wrapping_add(1);
        (at, self.place(at).write(rt))
    }

    // Puts the board in such a place, and returns which one.
    fn put(&self, rt: &impl Wait, board: Arc<Board<N>, Memory>) -> u64 {
        let (at, mut place) = self.vacate(rt);
        *place = board;
        at
    }

    // Puts the board in each other place where nobody reads, so that older boards are released.
    fn sweep(&self, at: u64, board: &Arc<Board<N>, Memory>) {
        for step in 1..PLACES {
            if let Some(mut place) = self.place(at.wrapping_add(step)).try_write() {
                if let Ok(board) = Arc::try_clone(board) {
                    *place = board;
                }
            }
        }
    }

    /// This board is the newest until another is announced. It allocates nothing.
    ///
    /// # Errors
    /// `NoMemory` if the board has too many owners. Then nothing has changed.
    pub(crate) fn announce(
        &self,
        rt: &impl Wait,
        board: &Arc<Board<N>, Memory>,
    ) -> Result<(), NoMemory> {
        let at = self.put(rt, Arc::try_clone(board)?);
        self.newest.store(mark(board.number, at), Ordering::SeqCst);
        self.sweep(at, board);
        Ok(())
    }

    /// Returns the newest board if it is newer than the one with this number. If there is none, it is one load. It allocates
    /// nothing and waits for nobody.
    pub(crate) fn newer(&self, number: u64) -> Option<Arc<Board<N>, Memory>>
        ensures { IfSome result (λ board. number < (arc_value board).number) }
    {
        for _ in 0..TRIES {
            let newest = self.newest.load(Ordering::SeqCst);
            if newest / PLACES <= number {
                return None;
            }
            if let Some(board) = self.place(newest).try_read() {
                if board.number > number {
                    return Arc::try_clone(&board).ok();
                }
            }
        }
        None
    }
}
