//! What a caller reads from the pool.
ghost use Rattle.std.specs.Prelude.{◌≡◌, ◌≤◌, ◌*◌, length, is_some, IfSome};
ghost use Rattle.std.specs.Prelude.{option_map};
ghost use Rattle.std.specs.Arc.{arc_value};
ghost use Rattle.mp_tickets.specs.Tickets.{after, item_at};
ghost use Rattle.mp_seqpool.specs.SlowPool.{bytes_held, ticket_of};
ghost use Rattle.mp_seqpool.specs.PoolLaws.{Lasts};
ghost use Rattle.mp_history.specs.Log.{state_after};
ghost use Rattle.mp_seqpool.specs.Reading.{within};

use crate::run::{Run, RunWithin};
use crate::shown::Shown;
use mp_history::PoolName;
use mp_memory::Memory;
use mp_tx::{Tx, TxId};
use std::marker::Model;
use std::sync::Arc;

/// Answers questions about one version of the pool (the Mempool API of ouroboros-consensus). It lends its answers and allocates
/// nothing. Contracts see it as the history that the version is after.
#[derive(Drop)]
pub struct Snapshot<'a, N: PoolName> {
    shown: &'a Shown<N>,
}

impl<'a, N: PoolName> Model for Snapshot<'a, N> {
    ghost use Rattle.std.specs.Coded.{codes};
    ghost use Rattle.std.specs.FinMap as finite;
    ghost use Rattle.mp_history.specs.Log.{Log};

    ghost Value = { Log };

    ghost coded = { Prim.hlevel (codes, finite.code) };

    ghost view = { λ s. s.shown.now };
}

impl<'a, N: PoolName> Snapshot<'a, N> {
    /// The snapshot of this version.
    pub fn of(shown: &'a Shown<N>) -> Snapshot<'a, N>
        ensures { result ≡ shown.now }
    {
        Snapshot { shown }
    }

    /// The transactions with their tickets, oldest first.
    pub fn txs(&self) -> Run<'a>
        ensures { result ≡ (state_after N.accepts self.now).items }
    {
        self.shown.version().contents()
    }

    /// The transactions with a greater ticket, oldest first.
    pub fn after(&self, ticket: u64) -> Run<'a>
        ensures { result ≡ after (state_after N.accepts self.now).items ticket }
    {
        self.shown.version().after_ticket(ticket)
    }

    /// The transaction under the ticket.
    pub fn lookup(&self, ticket: u64) -> Option<&'a Arc<Tx, Memory>>
        ensures { option_map (λ tx. arc_value tx.now) result
            ≡ item_at (state_after N.accepts self.now).items ticket }
    {
        self.shown.version().lookup(ticket)
    }

    /// Whether the version has a transaction with this id.
    pub fn has(&self, id: &TxId) -> bool
        ensures { result ≡ is_some (ticket_of id.now (state_after N.accepts self.now).items) }
    {
        self.shown.version().has(id)
    }

    /// How many transactions there are, and how many bytes in all.
    pub fn size(&self) -> (usize, u64)
        ensures count { result.0 ≡ length (state_after N.accepts self.now).items }
        ensures bytes { result.1 ≡ bytes_held (state_after N.accepts self.now) }
    {
        let version = self.shown.version();
        (version.len(), version.bytes())
    }

    /// How many bytes the transactions may have in all: twice the block bytes of the adopted ledger state.
    pub fn capacity(&self) -> u64
        ensures { result ≡ 2 * (state_after N.accepts self.now).ledger.block_bytes }
    {
        2 * self.shown.version().ledger().block_bytes()
    }

    /// The tick of the adopted ledger state.
    pub fn tick(&self) -> u64
        ensures { result ≡ (state_after N.accepts self.now).ledger.tick }
    {
        self.shown.version().ledger().tick()
    }

    /// How many entries its history has.
    pub fn number(&self) -> u64
        ensures { result ≡ length self.now.entries }
    {
        self.shown.version().number()
    }

    /// The last ticket that was given.
    pub fn last(&self) -> u64
        ensures { result ≡ (state_after N.accepts self.now).last }
    {
        self.shown.version().last_ticket()
    }

    /// The transactions from the oldest on, as long as they fit into `bytes` bytes in all.
    pub fn take(&self, bytes: u64) -> RunWithin<'a>
        ensures { result ≡ within bytes (state_after N.accepts self.now).items }
    {
        self.shown.version().within(bytes)
    }

    /// Of two snapshots of one pool, take the tickets that were given when the earlier one was taken. Under these the later one
    /// has only what the earlier one has. This costs nothing at run time.
    pub fn lasts(&self, later: &Snapshot<'_, N>)
        ensures { length self.now.entries ≤ length later.now.entries
            → Lasts (state_after N.accepts self.now) (state_after N.accepts later.now) }
    {
        let _ = self.shown.version();
        let _ = later.shown.version();
        self.shown.front().compare(later.shown.front());
    }
}
