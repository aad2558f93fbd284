//! The token of one caller.
ghost use Rattle.std.specs.Prelude.{◌≡◌, ◌<◌, ◌≤◌, ◌^◌, length};
ghost use Rattle.std.specs.Arc.{arc_value};
ghost use Rattle.mp_history.specs.Log.{Begins, IsLegalLog, entered};
ghost use Rattle.mp_versions.specs.Shown.{IsVersionOf};
ghost use Rattle.mp_mempool.specs.Pass.{IsOwn, pass_of};

use crate::read::reader::Reader;
use mp_history::{Caller, CommitRight, Entry, Front, History, PoolName};
use mp_memory::Memory;
use mp_rules::Verifier;
use mp_versions::{Boards, Shown, Snapshot, Subscriber, Version};
use std::marker::Model;
use std::sync::Arc;

/// The token of one caller of the pool. The caller makes its calls with it, and it holds what the caller has seen. Each caller
/// gets one with the pool. It can't be cloned. To make one takes the caller's token, which the pool gives to nobody else.
///
/// It never goes backwards: what it holds is only replaced by what extends it. It keeps the versions of one board, at most 64
/// with its own. Contracts see the caller's number, the place of the last entry that it made, and the history that it has seen.
pub struct Pass<N: PoolName> {
    caller: Caller<N>,
    shown: Shown<N>,
    subscriber: Subscriber<N>,
    // How many entries the newest version was after when the caller last looked. The pass's own is after at least as many.
    looked: u64,
}

impl<N: PoolName> Drop for Pass<N> {
    fn drop(self) {
        let Pass {
            caller: _,
            shown: _,
            subscriber: _,
            looked: _,
        } = self;
    }
}

impl<N: PoolName> Model for Pass<N> {
    ghost use Rattle.std.specs.Coded.{codes};
    ghost use Rattle.std.specs.FinMap as finite;
    ghost use Rattle.mp_mempool.specs.Pass as told;

    ghost Value = { told.Pass };

    ghost coded = { Prim.hlevel (codes, finite.code) };

    ghost view = { λ p. told.pass_of p.shown p.caller };

    ghost invariant = { λ p. told.IsOwn (told.pass_of p.shown p.caller) };
}

impl<N: PoolName> Pass<N> {
    ghost use denote.Follow.{follows_so};
    ghost use mathlib.Core.Option.{none};
    ghost use Rattle.std.specs.Prelude.{None, Some, ⊤, length, IsSome, IfSome};
    ghost use Rattle.std.specs.Borrow.{sem};
    ghost use Rattle.mp_mempool.specs.contracts.read.pass.Pass.{the_row};
    ghost use Rattle.mp_mempool.specs.Seen.{IsSeen};

    /// The pass of a caller that hasn't committed an entry yet.
    pub fn of(caller: Caller<N>, shown: Shown<N>, subscriber: Subscriber<N>) -> Pass<N>
        requires { caller.last ≡ None }
        ensures { result ≡ pass_of shown caller }
    {
        let looked = shown.front().len();
        Pass {
            caller,
            shown,
            subscriber,
            looked,
        }
    }

    /// Commits the caller's entry. The caller has then seen this version, which is the one after it. Nothing else commits an
    /// entry, so the pass knows the place of each. It allocates nothing.
    pub fn commit(
        &mut self,
        history: &History<N>,
        right: &mut CommitRight<N>,
        entry: &Entry,
        version: Arc<Version, Memory>,
    )
        requires room { length right.old.entries < 2 ^ 32 }
        requires own { entry.now.caller ≡ self.old.caller }
        requires version { IsVersionOf N.accepts N.callers
            (entered right.old entry.now) (arc_value version) }
        ensures right { right.new ≡ entered right.old entry.now }
        ensures pass { self.new ≡ record self.old {
          last = Some (length right.old.entries);
          front = right.new;
        } }
    {
        history.commit(right, &mut self.caller, entry);
        self.shown = Shown::of(version, right.front());
    }

    /// The caller has then seen the version, which extends what it had seen.
    pub fn see(&mut self, shown: Shown<N>)
        requires { Begins self.old.front shown }
        ensures { self.new ≡ record self.old { front = shown } }
    {
        self.shown = shown;
    }

    /// Takes the version if its front is longer.
    pub(crate) fn learn(&mut self, shown: Shown<N>)
        ensures longer { length self.old.front.entries < length shown.entries
            → self.new ≡ record self.old { front = shown } }
        ensures shorter { length shown.entries ≤ length self.old.front.entries
            → self.new ≡ self.old }
        ensures begins { Begins self.old.front self.new.front }
        ensures same { self.new ≡ record self.old { front = self.new.front } }
    {
        self.shown.front().compare(shown.front());
        if self.shown.front().len() < shown.front().len() {
            self.see(shown);
        }
    }

    /// The token of the caller.
    pub fn token(&self) -> &Caller<N>
        ensures { result.now.number ≡ self.now.caller }
    {
        &self.caller
    }

    /// The number of the caller.
    pub fn caller(&self) -> u32
        ensures number { result ≡ self.now.caller }
        ensures known { self.now.caller < N.callers }
    {
        self.caller.number()
    }

    /// The place of the last entry that the caller made. It is the caller's, and is in the pass's front.
    pub fn last_place(&self) -> Option<u64>
        ensures last { result ≡ self.now.last }
        ensures own { IsOwn self.now }
    {
        self.caller.last_place()
    }

    /// The front of what the caller has seen.
    pub fn front(&self) -> &Front<N>
        ensures { result.now ≡ self.now.front }
    {
        self.shown.front()
    }

    /// The version that the caller has seen.
    pub fn shown(&self) -> &Shown<N>
        ensures { result.now ≡ self.now.front }
    {
        &self.shown
    }

    /// Whether the caller has looked since the newest version was after this many entries.
    #[inline]
    pub(crate) fn has_looked(&self, newest_len: u64) -> bool {
        self.looked == newest_len
    }

    /// The caller has looked since then, unless it was refused what it found.
    pub(crate) fn note_look(&mut self, newest_len: u64)
        ensures { self.new ≡ self.old }
    {
        if self.shown.front().len() >= newest_len {
            self.looked = newest_len;
        }
    }

    /// From now on the pass finds the newest versions published until now. What the caller has seen stays as it is.
    pub(crate) fn catch_up(&mut self, boards: &Boards<N>)
        ensures { self.new ≡ self.old }
    {
        self.subscriber.catch_up(boards);
    }

    // The newest version that the subscriber finds, if it is longer than the pass's own.
    fn later(&self) -> Option<&Shown<N>>
        ensures { IfSome result (λ shown. Begins self.now.front shown.now) }
    {
        let shown = self.subscriber.newest()?;
        let (own, other) = (self.front(), shown.front());
        own.compare(other);
        if own.len() < other.len() {
            Some(shown)
        } else {
            None
        }
    }

    /// A share of that version.
    pub(crate) fn share_later(&self) -> Option<Shown<N>>
        ensures { IfSome result (Begins self.now.front) }
    {
        self.later()?.share().ok()
    }

    /// The newest version that the subscriber finds, or the pass's own if that is at least as long.
    pub(crate) fn latest(&self) -> &Shown<N>
        ensures { Begins self.now.front result.now }
    {
        match self.later() {
            Some(shown) => shown,
            None => &self.shown,
        }
    }

    /// The newest published version, or the pass's own if that is at least as long. The caller has then seen it. It takes no
    /// lock, allocates nothing, and is never `None`.
    pub fn newest<V: Verifier>(&mut self, reader: &Reader<N, V>) -> Option<&Shown<N>>
        ensures there { IsSome result }
        ensures later { IfSome result (λ shown. Begins self.old.front shown.now) }
        ensures legal { IfSome result (λ shown. IsLegalLog N.accepts N.callers shown.now) }
        ensures* seen { sem 𝓛 (follows_so (the_row N.row N.PoolName) (the_row N.row N.PoolName)
            self.entry.ghost_name none (λ _ _. ⊤) (λ after. IsSeen N.accepts N.callers self.old after
            × IfSome result (λ shown. after.front ≡ shown.now))) }
    {
        reader.refresh(self);
        Some(&self.shown)
    }

    /// Reads the version that the caller has seen, and doesn't look for newer ones: call `Reader::refresh` first.
    pub fn snapshot(&self) -> Snapshot<'_, N>
        ensures { result ≡ self.now.front }
    {
        Snapshot::of(&self.shown)
    }
}
