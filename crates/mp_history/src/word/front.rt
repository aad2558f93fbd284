//! Prefixes of a history.
ghost use Rattle.std.specs.Prelude.{◌≡◌, ◌≤◌, length};
ghost use Rattle.mp_history.specs.Log.{Begins};
ghost use Rattle.mp_history.specs.Front.{AreOfOneLog};

use crate::word::pool_name::PoolName;
use crate::word::rule::{Law, Noted};
use logbook::Seen;
use std::marker::{Model, PhantomData};

/// A prefix of the pool's history, as somebody has seen it. Contracts see it as the state that the pool opened with and
/// the entries. The program stores only their number.
pub struct Front<N: PoolName> {
    pub(crate) count: u64,
    pub(crate) seen: Seen<Noted, u64, Law>,
    pub(crate) of: PhantomData<N>,
}

impl<N: PoolName> Drop for Front<N> {
    fn drop(self) {
        let Front {
            count: _,
            seen: _,
            of: _,
        } = self;
    }
}

impl<N: PoolName> Model for Front<N> {
    ghost use Rattle.std.specs.Prelude.{◌≡◌, ◌<◌, length};
    ghost use Rattle.std.specs.Coded.{codes};
    ghost use Rattle.std.specs.FinMap as finite;
    ghost use Rattle.mp_history.specs.Log.{Log};
    ghost use Rattle.mp_history.specs.Inside.Noted.{notes_of, history, log_of};

    ghost Value = { Log };

    ghost coded = { Prim.hlevel (codes, finite.code) };

    ghost view = { λ f. log_of N.root f.seen.log };

    ghost invariant = { λ f. (f.count ≡ length (history N.root f.seen.log))
        × ((f.seen.book ≡ N.book) × (0 < length (notes_of N.root f.seen.log))) };
}

impl<N: PoolName> Front<N> {
    /// The number of its entries.
    pub fn len(&self) -> u64
        ensures { result ≡ length self.now.entries }
    {
        self.count
    }

    /// A copy. It takes no memory.
    pub fn again(&self) -> Front<N>
        ensures { result ≡ self.now }
    {
        Front {
            count: self.count,
            seen: self.seen.again(),
            of: PhantomData,
        }
    }

    /// Of two fronts of one pool, the shorter is a prefix of the longer. It costs nothing when the program runs.
    pub fn compare(&self, other: &Front<N>)
        ensures this { length self.now.entries ≤ length other.now.entries
            → Begins self.now other.now }
        ensures that { length other.now.entries ≤ length self.now.entries
            → Begins other.now self.now }
    {
        let mut both = self.seen.again();
        both.learn(&other.seen);
    }
}

/// Two fronts of one pool are prefixes of one history. It costs nothing when the program runs.
pub fn look<N: PoolName>(first: &Front<N>, second: &Front<N>)
    ensures { AreOfOneLog first.now second.now }
{
    let mut both = first.seen.again();
    both.learn(&second.seen);
}
