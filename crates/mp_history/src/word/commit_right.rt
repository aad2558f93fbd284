//! The right to append to a history.
ghost use Rattle.std.specs.Prelude.{◌≡◌, ◌<◌, ◌^◌, [], length};
ghost use Rattle.mp_seqpool.specs.Config.{renewed};
ghost use Rattle.mp_history.specs.Log.{Begins, entered};
ghost use Rattle.mp_history.specs.PoolName.{head_of};

use crate::entry::Entry;
use crate::word::front::Front;
use crate::word::new_name::{NewName, add_cell};
use crate::word::pool_name::PoolName;
use crate::word::rule::{Addition, Commits, Covers, Law, Noted, Nothing, Opening, Opens};
use logbook::{Offer, Pen, Seen, Word};
use mp_seqpool::SeqPool;
use std::marker::{Model, PhantomData};

/// The right to append to the pool's history. There is one for each history: it comes with it, it can't be cloned, and
/// nothing else makes one. Contracts see it as the whole history, since nobody else can append: `covers` guarantees
/// this for each front.
pub struct CommitRight<N: PoolName> {
    // A word of the book that no history has: an exchange on it observes the book.
    own: Word<Noted, u64, Law>,
    count: u64,
    seen: Seen<Noted, u64, Law>,
    // The pen that makes the next entry.
    pen: Pen,
    of: PhantomData<N>,
}

impl<N: PoolName> Drop for CommitRight<N> {
    fn drop(self) {
        let CommitRight {
            own: _,
            count: _,
            seen: _,
            pen: _,
            of: _,
        } = self;
    }
}

impl<N: PoolName> Model for CommitRight<N> {
    ghost use Rattle.std.specs.Prelude.{◌≡◌};
    ghost use Rattle.std.specs.Coded.{codes};
    ghost use Rattle.std.specs.FinMap as finite;
    ghost use Rattle.mp_history.specs.PoolName.{head_of};
    ghost use Rattle.mp_history.specs.Log.{Log};
    ghost use Rattle.mp_history.specs.Inside.Noted.{log_of};
    ghost use Rattle.mp_history.specs.Inside.Turn.{IsTurn};

    ghost Value = { Log };

    ghost coded = { Prim.hlevel (codes, finite.code) };

    ghost view = { λ r. log_of N.root r.seen.log };

    ghost invariant = { λ r. (r.own ≡ head_of N.book 0) × ((r.seen.book ≡ N.book)
        × ((r.pen.book ≡ N.book) × IsTurn N.root r.count r.seen.log r.pen.nib)) };
}

impl<N: PoolName> CommitRight<N> {
    /// Opens the history of this name with the pool's content, for at most `limit` changes: its word, and the right,
    /// which has no entries.
    pub(crate) fn first(
        name: NewName,
        pool: &SeqPool,
        limit: u64,
    ) -> (Word<Noted, u64, Law>, CommitRight<N>)
        requires { name ≡ head_of N.book N.root }
        ensures head { result.0 ≡ head_of N.book N.root }
        ensures opening { result.1
            ≡ record { opening = renewed limit pool.now.pool; entries = [] } }
    {
        let NewName {
            own,
            mut seen,
            mut pen,
        } = name;
        let head = Word::tracked(0, &mut pen);
        let mut next = add_cell(&own, &seen);
        let _word: Word<Noted, u64, Law> = Word::tracked(0, &mut next);
        let mut offer: Offer<Noted, u64, Law, Nothing> = seen.plain::<Nothing, Opening<'_>, Opens>(
            &Opening {
                head: &pen,
                next: &next,
                pool,
                limit,
            },
        );
        own.compare_exchange::<Opens, Nothing>(0, 0, &mut seen, &mut offer, &mut pen);
        (
            head,
            CommitRight {
                own,
                count: 0,
                seen,
                pen: next,
                of: PhantomData,
            },
        )
    }

    /// Appends the entry. An exchange on the right's own word adds the word of the next pen. One on the history's word
    /// increments the number of entries.
    pub(crate) fn enter(&mut self, head: &Word<Noted, u64, Law>, entry: &Entry)
        requires head { head.now ≡ head_of N.book N.root }
        requires room { length self.old.entries < 2 ^ 32 }
        ensures { self.new ≡ entered self.old entry.now }
    {
        let mut next = add_cell(&self.own, &self.seen);
        let _word: Word<Noted, u64, Law> = Word::tracked(0, &mut next);
        let mut offer: Offer<Noted, u64, Law, Nothing> = self
            .seen
            .plain::<Nothing, Addition<'_>, Commits>(&Addition {
                head,
                entry,
                used: &self.pen,
                next: &next,
            });
        let count = self.count;
        head.compare_exchange::<Commits, Nothing>(
            count,
            count + 1,
            &mut self.seen,
            &mut offer,
            &mut self.pen,
        );
        self.pen = next;
        self.count = count + 1;
    }

    /// The number of entries, which is the place of the next one.
    pub fn len(&self) -> u64
        ensures { result ≡ length self.now.entries }
    {
        self.count
    }

    /// The front of all entries. It takes no memory.
    pub fn front(&self) -> Front<N>
        ensures { result ≡ self.now }
    {
        Front {
            count: self.count,
            seen: self.seen.again(),
            of: PhantomData,
        }
    }

    /// A front of this pool is a prefix of the history that the right has: while somebody has the right, nobody has
    /// seen more. It is an exchange that changes nothing, and takes no memory.
    pub fn covers(&mut self, front: &Front<N>)
        ensures same { self.new ≡ self.old }
        ensures covers { Begins front.now self.new }
    {
        let mut later = self.seen.again();
        later.learn(&front.seen);
        let mut offer: Offer<Noted, u64, Law, Nothing> = later.plain::<Nothing, (), Nothing>(&());
        self.own
            .compare_exchange::<Covers, Nothing>(0, 0, &mut later, &mut offer, &mut self.pen);
    }
}
