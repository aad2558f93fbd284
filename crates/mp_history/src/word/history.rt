//! The word that the callers of a pool share.
ghost use Rattle.std.specs.Prelude.{◌≡◌, ◌<◌, ◌≤◌, ◌^◌, [], length, IfOk, Some};
ghost use Rattle.mp_seqpool.specs.Config.{renewed};
ghost use Rattle.mp_history.specs.Caller.{new_callers};
ghost use Rattle.mp_history.specs.Log.{entered};
ghost use Rattle.mp_history.specs.PoolName.{head_of};

use crate::entry::Entry;
use crate::word::caller::Caller;
use crate::word::commit_right::CommitRight;
use crate::word::new_name::NewName;
use crate::word::pool_name::PoolName;
use crate::word::rule::{Law, Noted};
use logbook::Word;
use mp_memory::{Memory, NoMemory};
use mp_seqpool::SeqPool;
use std::marker::PhantomData;

/// The pool's history: one word, the number of its entries. Only contracts see the entries themselves, which take no
/// memory. All callers may share it. Only the holder of the commit right appends to it.
pub struct History<N: PoolName> {
    head: Word<Noted, u64, Law>,
    of: PhantomData<N>,
    ghost head_is: { head ≡ head_of N.book N.root },
}

impl<N: PoolName> Drop for History<N> {
    fn drop(self) {
        let History { head: _, of: _ } = self;
    }
}

impl<N: PoolName> History<N> {
    /// Opens a pool's history under its name, for 1 to 1,024 callers. It opens with the pool after `renew` for at most
    /// `limit` changes. Returns a history without entries, the right to append to it, and the tokens of the callers 0,
    /// 1, .. in order. If there is no memory for the tokens, the name is lost.
    pub fn open(
        name: NewName,
        memory: Memory,
        callers: u32,
        pool: &SeqPool,
        limit: u64,
    ) -> Result<(History<N>, CommitRight<N>, Vec<Caller<N>, Memory>), NoMemory>
        requires name { name ≡ head_of N.book N.root }
        requires number { callers ≡ N.callers }
        requires some { 1 ≤ callers }
        requires most { callers ≤ 1024 }
        ensures opening { IfOk result (λ opened. opened.1
            ≡ record { opening = renewed limit pool.now.pool; entries = [] }) }
        ensures callers { IfOk result (λ opened. opened.2.items ≡ new_callers callers) }
    {
        let tokens = Caller::all(memory, callers)?;
        let (head, right) = CommitRight::first(name, pool, limit);
        Ok((
            History {
                head,
                of: PhantomData,
            },
            right,
            tokens,
        ))
    }

    /// Appends the caller's entry. It can't be refused, and takes no memory. The caller's token then has the entry's
    /// place, so each entry leaves a trace there. The history may have at most 2^32 entries.
    pub fn commit(&self, right: &mut CommitRight<N>, caller: &mut Caller<N>, entry: &Entry)
        requires room { length right.old.entries < 2 ^ 32 }
        requires own { entry.now.caller ≡ caller.old.number }
        ensures right { right.new ≡ entered right.old entry.now }
        ensures caller { caller.new
            ≡ record caller.old { last = Some (length right.old.entries) } }
    {
        let place = right.len();
        right.enter(&self.head, entry);
        caller.made(place);
    }
}
