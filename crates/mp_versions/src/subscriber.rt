//! Reading published versions.
ghost use Rattle.std.specs.Prelude.{◌≡◌, ◌≤◌};
ghost use Rattle.std.specs.Arc.{arc_value};

use crate::board::Board;
use crate::boards::Boards;
use crate::shown::Shown;
use mp_history::PoolName;
use mp_memory::Memory;
use std::marker::Model;
use std::sync::Arc;

/// Reads published versions. It keeps one board, so at most 63 versions, and those that were published while memory for another
/// board was refused. Contracts see it as that board's number. Each board that is opened has a greater one.
pub struct Subscriber<N: PoolName> {
    board: Arc<Board<N>, Memory>,
}

impl<N: PoolName> Drop for Subscriber<N> {
    fn drop(self) {
        let Subscriber { board: _ } = self;
    }
}

impl<N: PoolName> Model for Subscriber<N> {
    ghost use Rattle.std.specs.Prelude.{ℕ};
    ghost use Rattle.std.specs.Arc.{arc_value};

    ghost Value = { ℕ };

    ghost view = { λ s. (arc_value s.board).number };
}

impl<N: PoolName> Subscriber<N> {
    /// Reads this board.
    pub(crate) fn of(board: Arc<Board<N>, Memory>) -> Subscriber<N>
        ensures { result ≡ (arc_value board).number }
    {
        Subscriber { board }
    }

    /// Reads the newest board from now on, never an older one. If it has that board already, this is one load. It allocates
    /// nothing and waits for nobody.
    pub fn catch_up(&mut self, boards: &Boards<N>)
        ensures { self.old ≤ self.new }
    {
        if let Some(board) = boards.newer(self.board.number) {
            self.board = board;
        }
    }

    /// The version that was published last on the subscriber's board. It allocates nothing and waits for nobody.
    pub fn newest(&self) -> Option<&Shown<N>> {
        self.board.newest()
    }
}
