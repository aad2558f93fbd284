//! The right to publish versions.
ghost use Rattle.std.specs.Prelude.{◌≡◌, IfOk, IfErr, OnOk, OnErr};

use crate::board::{Board, Published};
use crate::boards::Boards;
use crate::shown::Shown;
use crate::subscriber::Subscriber;
use mp_history::PoolName;
use mp_memory::{Memory, NoMemory};
use std::marker::Model;
use std::sync::{Arc, Wait};

/// The right to publish versions on the boards that it came with. There is one. Contracts see it as the history of the version
/// that it published last, which its board has.
pub struct Publisher<N: PoolName> {
    board: Arc<Board<N>, Memory>,
    last: Published<N>,
}

impl<N: PoolName> Drop for Publisher<N> {
    fn drop(self) {
        let Publisher { board: _, last: _ } = self;
    }
}

impl<N: PoolName> Model for Publisher<N> {
    ghost use Rattle.boxcar.specs.Table.{Shows};
    ghost use Rattle.mp_history.specs.Log.{Log};
    ghost use Rattle.std.specs.Arc.{arc_value};
    ghost use Rattle.std.specs.Coded.{codes};
    ghost use Rattle.std.specs.FinMap as finite;

    ghost Value = { Log };

    ghost coded = { Prim.hlevel (codes, finite.code) };

    ghost view = { λ p. p.last.value };

    ghost invariant = { λ p. Shows (arc_value p.board).shown p.last };
}

impl<N: PoolName> Publisher<N> {
    /// Publishes the version on a new board. `number` boards were opened before it.
    pub(crate) fn new(
        rt: &impl Wait,
        memory: Memory,
        number: u64,
        first: &Shown<N>,
    ) -> Result<Publisher<N>, NoMemory>
        ensures { IfOk result (λ p. p ≡ first.now) }
    {
        let board = Arc::new(memory, Board::new(memory, number)?)?;
        match board.add(rt, first.share()?) {
            Ok(last) => Ok(Publisher { board, last }),
            Err(_) => Err(NoMemory),
        }
    }

    /// The board to which it adds versions.
    pub(crate) fn board(&self) -> &Arc<Board<N>, Memory> {
        &self.board
    }

    /// A subscriber that reads what is published from now on.
    pub fn subscriber(&self) -> Result<Subscriber<N>, NoMemory> {
        Ok(Subscriber::of(Arc::try_clone(&self.board)?))
    }

    // Publishes the version on the next board.
    fn open_board(
        &mut self,
        rt: &impl Wait,
        memory: Memory,
        boards: &Boards<N>,
        shown: &Shown<N>,
    ) -> Result<(), NoMemory>
        ensures ok { OnOk result (self.new ≡ shown.now) }
        ensures err { OnErr result (self.new ≡ self.old) }
    {
        let number = self.board.number.wrapping_add(1);
        let next = Publisher::new(rt, memory, number, shown)?;
        boards.announce(rt, &next.board)?;
        boards.set_newest_len(shown.front().len());
        *self = next;
        Ok(())
    }

    // Publishes the version on the same board.
    fn add(&mut self, rt: &impl Wait, boards: &Boards<N>, shown: Shown<N>) -> Result<(), Shown<N>>
        ensures ok { OnOk result (self.new ≡ shown) }
        ensures same { OnErr result (self.new ≡ self.old) }
        ensures back { IfErr result (λ s. s ≡ shown) }
    {
        let entries = shown.front().len();
        self.last = self.board.add(rt, shown)?;
        boards.set_newest_len(entries);
        Ok(())
    }

    /// Publishes the version. It is the newest until another is published. If the board is full, this opens the next one. If
    /// memory for that is refused, it goes on with the full one. It may wait for a reader that takes a share of a board.
    ///
    /// # Errors
    /// Returns the version if an allocation fails.
    pub fn publish(
        &mut self,
        rt: &impl Wait,
        memory: Memory,
        boards: &Boards<N>,
        shown: Shown<N>,
    ) -> Result<(), Shown<N>>
        ensures ok { OnOk result (self.new ≡ shown) }
        ensures same { OnErr result (self.new ≡ self.old) }
        ensures back { IfErr result (λ s. s ≡ shown) }
    {
        if self.board.is_full() && self.open_board(rt, memory, boards, &shown).is_ok() {
            return Ok(());
        }
        self.add(rt, boards, shown)
    }
}
