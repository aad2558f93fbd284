//! A limited number of published versions.
ghost use Rattle.std.specs.Prelude.{◌≡◌, IfOk, IfErr};
ghost use Rattle.boxcar.specs.Table.{Shows};

use crate::shown::Shown;
use boxcar::Pushed;
use mp_history::PoolName;
use mp_memory::{Memory, NoMemory};
use std::sync::Wait;

// A board with this many versions is full. With its own version, a pass that keeps a board keeps at most 64.
const MAX_VERSIONS: usize = 63;

/// Evidence that a board has a version.
pub(crate) type Published<N> = Pushed<Shown<N>, Memory>;

/// Published versions, for all threads at once. They are freed with the board. A reader gets a `Shown`, whose type says that it is
/// a true version: no clause says which.
pub(crate) struct Board<N: PoolName> {
    // How many boards were opened before this one.
    pub(crate) number: u64,
    pub(crate) shown: boxcar::Vec<Shown<N>, Memory>,
}

impl<N: PoolName> Drop for Board<N> {
    fn drop(self) {
        let Board {
            number: _,
            shown: _,
        } = self;
    }
}

impl<N: PoolName> Board<N> {
    /// A board without versions. `number` boards were opened before it.
    pub(crate) fn new(memory: Memory, number: u64) -> Result<Board<N>, NoMemory> {
        Ok(Board {
            number,
            shown: boxcar::Vec::new(memory)?,
        })
    }

    /// Adds the version. It is the newest until another is added. It may spin while another thread makes room.
    ///
    /// # Errors
    /// Returns the version if an allocation fails.
    pub(crate) fn add(&self, rt: &impl Wait, shown: Shown<N>) -> Result<Published<N>, Shown<N>>
        ensures board { IfOk result (Shows self.now.shown) }
        ensures version { IfOk result (λ p. p.value ≡ shown) }
        ensures back { IfErr result (λ s. s ≡ shown) }
    {
        self.shown.push_shown(rt, shown)
    }

    /// The version that was added last, if any. It allocates nothing and waits for nobody.
    pub(crate) fn newest(&self) -> Option<&Shown<N>> {
        self.shown.get(self.shown.count().checked_sub(1)?)
    }

    /// Whether the next version belongs on another board.
    pub(crate) fn is_full(&self) -> bool {
        self.shown.count() >= MAX_VERSIONS
    }
}
