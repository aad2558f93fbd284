//! Offers of a pool's transactions to a peer.
ghost use Rattle.std.specs.Prelude.{◌≡◌, ◌≢◌, [], IfOk, OnErr};
ghost use Rattle.mp_history.specs.Log.{state_after};
ghost use Rattle.mp_seqpool.specs.Reading.{moved, offer};

use crate::first_items::share_first;
use crate::items::Items;
use crate::snapshot::Snapshot;
use mp_history::PoolName;
use mp_memory::{Memory, NoMemory};
use std::marker::Model;

/// Reads a pool for one peer. Each offer has what comes after the last one. So no transaction is offered twice under one ticket,
/// and none that is still there is left out (`laws::offers`, and `laws::offers_after` if it began after a ticket).
///
/// It keeps a cursor: the ticket that was offered last. It may read any snapshots of one pool. With a reader of its own, each
/// peer goes at its own pace. Contracts see the cursor.
#[derive(Drop)]
pub struct PeerReader {
    cursor: u64,
}

impl Model for PeerReader {
    ghost use Rattle.std.specs.Prelude.{ℕ};

    ghost Value = { ℕ };

    ghost view = { λ r. r.cursor };
}

// The ticket of the last item, or the cursor if there is none.
fn move_over(cursor: u64, items: &Items) -> u64
    ensures { result ≡ moved cursor items.now }
{
    match items.as_slice().split_last() {
        Some((item, _)) => item.ticket,
        None => cursor,
    }
}

impl PeerReader {
    /// A reader that has offered nothing.
    pub const fn new() -> PeerReader
        ensures { result ≡ 0 }
    {
        PeerReader { cursor: 0 }
    }

    /// A reader that continues after this ticket, where another reader stopped: for example on a successor of the pool.
    pub const fn after(ticket: u64) -> PeerReader
        ensures { result ≡ ticket }
    {
        PeerReader { cursor: ticket }
    }

    /// The ticket that was offered last, or the one that the reader began after. `after` takes it.
    pub fn cursor(&self) -> u64
        ensures { result ≡ self.now }
    {
        self.cursor
    }

    /// Returns the longest prefix of what comes after the cursor with at most `count` items and at most `bytes` bytes. The cursor
    /// moves to the last ticket offered. It stays if nothing is offered.
    ///
    /// # Errors
    /// `NoMemory`. Then the cursor stays. If nothing is to be offered, this can't fail.
    pub fn offer<N: PoolName>(
        &mut self,
        memory: Memory,
        snapshot: &Snapshot<'_, N>,
        count: u64,
        bytes: u64,
    ) -> Result<Items, NoMemory>
        ensures items { IfOk result (λ items. items
            ≡ offer self.old count bytes (state_after N.accepts snapshot.now).items) }
        ensures cursor { IfOk result (λ items. self.new ≡ moved self.old items) }
        ensures stays { OnErr result (self.new ≡ self.old) }
        ensures wanting { OnErr result
            (offer self.old count bytes (state_after N.accepts snapshot.now).items ≢ []) }
    {
        let run = snapshot.after(self.cursor).within(bytes);
        let items = share_first(memory, run, count)?;
        self.cursor = move_over(self.cursor, &items);
        Ok(items)
    }
}
