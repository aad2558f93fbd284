//! Immutable states of a pool.
ghost use Rattle.std.specs.Prelude.{◌≡◌, ◌==◌, ◌<◌, ◌≤◌, ◌^◌, length, reverse, is_some, option_map, All, IfOk};
ghost use Rattle.std.specs.List.Sorted.{IsStrictlyIncreasing};
ghost use Rattle.std.specs.Arc.{arc_value};
ghost use Rattle.mp_tickets.specs.Tickets.{IsRising, after, item_at};
ghost use Rattle.mp_seqpool.specs.Keep.{tickets, bytes_of};
ghost use Rattle.mp_seqpool.specs.Config.{renewed};
ghost use Rattle.mp_seqpool.specs.SlowPool.{HasPlace, bytes_held, pool_with, pool_upon, ticket_of};
ghost use Rattle.mp_seqpool.specs.Prepared.{IsPrepared, apart, left_by, leads_to};
ghost use Rattle.mp_versions.specs.Layout.{items_in, IsLaid};
ghost use Rattle.mp_seqpool.specs.Reading.{within};
ghost use Rattle.mp_versions.specs.Inside.Version.{IsRestOf};

use crate::layout::{
    Layout, bytes_among, count_of, find, grown, has, of_pool, run_after, run_back, run_of, without,
};
use crate::run::{Run, RunWithin};
use crate::run_back::RunBack;
use mp_memory::{Memory, NoMemory};
use mp_seqpool::{Command, Config, Item, Prepared, Reply, SeqPool};
use mp_tx::{Ledger, Tx, TxId};
use std::marker::Model;
use std::sync::Arc;

/// An immutable state of the pool. It shares nearly everything with the version that it was made from. Contracts see it as the
/// slow pool's state and the chunks that make up its items.
pub struct Version {
    pub(crate) layout: Layout,
    ledger: Ledger,
    config: Config,
    last: u64,
    count: usize,
    bytes: u64,
    changes: u64,
}

impl Drop for Version {
    fn drop(self) {
        let Version {
            layout: _,
            ledger: _,
            config: _,
            last: _,
            count: _,
            bytes: _,
            changes: _,
        } = self;
    }
}

impl Model for Version {
    ghost use Rattle.std.specs.Coded.{codes};
    ghost use Rattle.std.specs.FinMap as finite;
    ghost use Rattle.mp_versions.specs.Version as told;
    ghost use Rattle.mp_versions.specs.Inside.Version.{version, IsCounted};

    ghost Value = { told.Version };

    ghost coded = { Prim.hlevel (codes, finite.code) };

    ghost view = { version };

    ghost invariant = { IsCounted };
}

// What is left of a version's items.
#[derive(Drop)]
struct Rest {
    layout: Layout,
    bytes: u64,
}

// Removes the items with these tickets. `bytes` is the total of all items.
fn take_out(memory: Memory, layout: &Layout, bytes: u64, tickets: &[u64]) -> Result<Rest, NoMemory>
    requires laid { IsLaid layout.now }
    requires rising { IsRising (items_in layout.now) }
    requires tickets { IsStrictlyIncreasing tickets.now }
    requires bytes { bytes ≡ bytes_of (items_in layout.now) }
    requires most { bytes ≤ 2 ^ 40 }
    ensures { IfOk result (λ rest. IsRestOf (apart tickets.now (items_in layout.now)) rest) }
{
    let gone = bytes_among(layout, tickets);
    Ok(Rest {
        layout: without(memory, layout, tickets)?,
        bytes: bytes - gone,
    })
}

// What is left after the reply to a remove or a sync.
fn rest_after(memory: Memory, layout: &Layout, bytes: u64, reply: &Reply) -> Result<Rest, NoMemory>
    requires laid { IsLaid layout.now }
    requires rising { IsRising (items_in layout.now) }
    requires bytes { bytes ≡ bytes_of (items_in layout.now) }
    requires most { bytes ≤ 2 ^ 40 }
    ensures { IfOk result (λ rest. IsRestOf (left_by reply.now (items_in layout.now)) rest) }
{
    match reply {
        Reply::Accepted { .. } => take_out(memory, layout, bytes, &[]),
        Reply::Synced { dropped, .. } => take_out(memory, layout, bytes, dropped.as_slice()),
        Reply::Removed { named, dropped } => {
            let rest = take_out(memory, layout, bytes, named.as_slice())?;
            take_out(memory, &rest.layout, rest.bytes, dropped.as_slice())
        }
    }
}

// How many items there are: at most `last`.
fn count_up_to(layout: &Layout, last: u64) -> usize
    requires rising { IsRising (items_in layout.now) }
    requires given { All (λ k. k ≤ last) (tickets (items_in layout.now)) }
    ensures { result ≡ length (items_in layout.now) }
{
    count_of(layout)
}

impl Version {
    /// The version of the pool in its present state.
    pub fn of(memory: Memory, pool: &SeqPool) -> Result<Version, NoMemory>
        ensures { IfOk result (λ v. v.pool ≡ pool.now.pool) }
    {
        Ok(Version {
            layout: of_pool(memory, pool)?,
            ledger: pool.ledger().share()?,
            config: pool.config(),
            last: pool.last_ticket(),
            count: pool.len(),
            bytes: pool.bytes(),
            changes: pool.changes(),
        })
    }

    // Adds the transaction as the last one, under the next ticket.
    fn with_tx(&self, memory: Memory, tx: &Arc<Tx, Memory>) -> Result<Version, NoMemory>
        requires { HasPlace self.now.pool (arc_value tx.now) }
        ensures { IfOk result (λ v. v.pool ≡ pool_with self.now.pool (arc_value tx.now)) }
    {
        let ticket = self.last + 1;
        let bytes = self.bytes + tx.size();
        let item = Item {
            ticket,
            tx: Arc::try_clone(tx)?,
        };
        Ok(Version {
            layout: grown(memory, &self.layout, item)?,
            ledger: self.ledger.share()?,
            config: self.config,
            last: ticket,
            count: self.count + 1,
            bytes,
            changes: self.changes + 1,
        })
    }

    // What is left after the reply to a remove or a sync, on this ledger state.
    fn upon(&self, memory: Memory, ledger: &Ledger, reply: &Reply) -> Result<Version, NoMemory>
        requires { self.now.pool.changes < self.now.pool.limit }
        ensures { IfOk result (λ v. v.pool
            ≡ pool_upon self.now.pool ledger.now (left_by reply.now self.now.pool.items)) }
    {
        let rest = rest_after(memory, &self.layout, self.bytes, reply)?;
        Ok(Version {
            count: count_up_to(&rest.layout, self.last),
            layout: rest.layout,
            ledger: ledger.share()?,
            config: self.config,
            last: self.last,
            bytes: rest.bytes,
            changes: self.changes + 1,
        })
    }

    /// The version of the pool as `SeqPool::finish` will leave it with this step. It requires that this is the version of the
    /// pool now. Only the items next to what comes or goes are copied. All others are shared.
    pub fn after(
        &self,
        memory: Memory,
        pool: &SeqPool,
        prepared: &Prepared,
    ) -> Result<Version, NoMemory>
        requires of { self.now.pool ≡ pool.now.pool }
        requires prepared { IsPrepared pool.now prepared.now }
        ensures { IfOk result (λ v. v.pool ≡ leads_to pool.now.pool prepared.now) }
    {
        let _ = pool;
        match prepared.command() {
            Command::Submit(tx) => self.with_tx(memory, tx),
            Command::Remove(_) => self.upon(memory, &self.ledger, prepared.reply()),
            Command::Sync(ledger) => self.upon(memory, ledger, prepared.reply()),
        }
    }

    /// The version of the pool as `SeqPool::renew` leaves it: no change was made yet, and `limit` (1 to 2^32) may follow. All
    /// items are shared. `NoMemory` if they have too many owners.
    pub fn renewed(&self, limit: u64) -> Result<Version, NoMemory>
        requires least { 1 ≤ limit }
        requires greatest { limit ≤ 2 ^ 32 }
        ensures { IfOk result (λ v. v.pool ≡ renewed limit self.now.pool) }
    {
        Ok(Version {
            layout: self.layout.share()?,
            ledger: self.ledger.share()?,
            config: Config {
                limit,
                last: self.last,
            },
            last: self.last,
            count: self.count,
            bytes: self.bytes,
            changes: 0,
        })
    }

    /// The transactions with their tickets, oldest first.
    pub fn contents(&self) -> Run<'_>
        ensures { result ≡ self.now.pool.items }
    {
        run_of(&self.layout)
    }

    /// The transactions with their tickets, newest first.
    pub fn newest_first(&self) -> RunBack<'_>
        ensures { result ≡ reverse self.now.pool.items }
    {
        run_back(&self.layout)
    }

    /// The transactions with a greater ticket, oldest first.
    pub fn after_ticket(&self, ticket: u64) -> Run<'_>
        ensures { result ≡ after self.now.pool.items ticket }
    {
        run_after(&self.layout, ticket)
    }

    /// The transactions from the oldest on, as long as they fit into `bytes` bytes in all.
    pub fn within(&self, bytes: u64) -> RunWithin<'_>
        ensures { result ≡ within bytes self.now.pool.items }
    {
        self.contents().within(bytes)
    }

    /// The transaction under the ticket.
    pub fn lookup(&self, ticket: u64) -> Option<&Arc<Tx, Memory>>
        ensures { option_map (λ tx. arc_value tx.now) result
            ≡ item_at self.now.pool.items ticket }
    {
        Some(&find(&self.layout, ticket)?.tx)
    }

    /// Whether the version has a transaction with this id. It walks over all.
    pub fn has(&self, id: &TxId) -> bool
        ensures { result ≡ is_some (ticket_of id.now self.now.pool.items) }
    {
        has(&self.layout, id)
    }

    /// The adopted ledger state.
    pub fn ledger(&self) -> &Ledger
        ensures { result.now ≡ self.now.pool.ledger }
    {
        &self.ledger
    }

    /// The last ticket that was given.
    pub fn last_ticket(&self) -> u64
        ensures { result ≡ self.now.pool.last }
    {
        self.last
    }

    /// How many transactions there are.
    pub fn len(&self) -> usize
        ensures { result ≡ length self.now.pool.items }
    {
        self.count
    }

    /// Whether there is none.
    pub fn is_empty(&self) -> bool
        ensures { result ≡ (length self.now.pool.items == 0) }
    {
        self.len() == 0
    }

    /// How many bytes the transactions have in all, at most 2^40.
    pub fn bytes(&self) -> u64
        ensures bytes { result ≡ bytes_held self.now.pool }
        ensures most { result ≤ 2 ^ 40 }
    {
        self.bytes
    }

    /// How many changes were made since the pool opened: the entries of its history.
    pub fn number(&self) -> u64
        ensures { result ≡ self.now.pool.changes }
    {
        self.changes
    }
}
