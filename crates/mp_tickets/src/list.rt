//! The ticket list.
use crate::chain::Chain;
use crate::iter::Iter;
use crate::node::Node;
use mp_memory::{Memory, NoMemory};
use std::marker::Model;
use std::mem;

// The number of buckets of a new list.
const BUCKETS: usize = 1024;

/// Items in strictly increasing order of their tickets, which are greater than 0. A contract sees the list of tickets
/// with their items.
///
/// Each item has a node of its own. A node links to the one before it, the one after it, and the last one before it in
/// its bucket. A ticket is in the bucket with index ticket modulo the number of buckets, and a look-up searches only
/// there. If `reserve` is called before each push, there are at least as many buckets as items. There are never fewer
/// than 1,024. Only a new list, a new node and `reserve` take memory. A node may have another handle than the list.
pub struct TicketList<T> {
    chain: Chain<T>,
    memory: Memory,
    len: usize,
}

impl<T> Model for TicketList<T> {
    ghost use Rattle.std.specs.Prelude.{ℕ, List};
    ghost use Rattle.mp_tickets.specs.Inside.Links.{pairs};

    ghost Value = { List (ℕ × T) };

    ghost use Rattle.mp_tickets.specs.Inside.TicketList.{IsHeld};

    ghost view = { λ l. pairs l.chain.nodes.cells };

    ghost invariant = { IsHeld };
}

impl<T> TicketList<T> {
    ghost use Rattle.std.specs.Prelude.{◌≡◌, ◌-◌, ◌<◌, ◌≤◌, ◌==◌, [], ◌∷◌, ◌++◌, length, option_map, option_copied, slice_get, MatchOption, IfOk};
    ghost use Rattle.std.specs.List.{All};
    ghost use Rattle.std.specs.Map.Iter.{ShowsInOrder};
    ghost use Rattle.mp_tickets.specs.Tickets.{IsRising, item_at, without, after, shown};

    /// A list without items. It takes the memory of its first buckets. Returns `Err` if that allocation fails.
    pub fn new(memory: Memory) -> Result<TicketList<T>, NoMemory>
        ensures { IfOk result (λ list. list ≡ []) }
    {
        Ok(TicketList {
            chain: Chain::new(memory, BUCKETS)?,
            memory,
            len: 0,
        })
    }

    /// Doubles the number of buckets if there are no more buckets than items, so that a look-up stays fast after one
    /// more push. The items keep their nodes, and nothing that a contract sees changes.
    ///
    /// # Errors
    /// `NoMemory`. A push succeeds without this call.
    pub fn reserve(&mut self) -> Result<(), NoMemory>
    where
        T: Drop,
        ensures { self.new ≡ self.old }
    {
        let buckets = self.chain.bucket_backs.len();
        if self.len < buckets {
            return Ok(());
        }
        let larger = Chain::new(self.memory, buckets.saturating_mul(2))?;
        let chain = mem::replace(&mut self.chain, larger);
        chain.move_to(&mut self.chain, self.memory);
        Ok(())
    }

    /// Appends the node's item. The ticket has to be greater than 0 and than each ticket in the list. It takes no
    /// memory and can't fail.
    pub fn push_node(&mut self, ticket: u64, node: Node<T>)
    where
        T: Drop,
        requires above_zero { 0 < ticket }
        requires greater { All (λ e. e.0 < ticket) self.old }
        ensures { self.new ≡ self.old ++ (ticket, node) ∷ [] }
    {
        self.chain.push(ticket, node.link);
        self.len += 1;
    }

    /// The item of the ticket, if there is one. It searches one bucket only.
    pub fn get(&self, ticket: u64) -> Option<&T>
        ensures { option_copied result ≡ item_at self.now ticket }
    {
        let found = self.chain.find(ticket)?;
        Some(&self.chain.nodes.get(found.ptr).item)
    }

    /// Takes the item of the ticket out, and frees its node. If there is none, the list doesn't change. It searches one
    /// bucket only.
    pub fn unlink(&mut self, ticket: u64) -> Option<T>
    where
        T: Drop,
        ensures item { result ≡ item_at self.old ticket }
        ensures list { self.new ≡ without self.old ticket }
    {
        let found = self.chain.find(ticket)?;
        let link = self.chain.take(found, self.memory).into_box();
        self.len -= 1;
        Some(Box::into_inner(link).into_item())
    }

    /// The first ticket with its item, if there is one.
    pub fn front(&self) -> Option<(u64, &T)>
        ensures first { option_map shown result ≡ slice_get self.now 0 }
        ensures rising { IsRising self.now }
    {
        let link = self.chain.nodes.get(self.chain.front?);
        Some((link.ticket, &link.item))
    }

    /// The last ticket with its item, if there is one. No ticket in the list is greater.
    pub fn back(&self) -> Option<(u64, &T)>
        ensures last { option_map shown result ≡ slice_get self.now (length self.now - 1) }
        ensures greatest { MatchOption result (self.now ≡ []) (λ e. All (λ x. x.0 ≤ e.0) self.now) }
        ensures rising { IsRising self.now }
    {
        let link = self.chain.nodes.get(self.chain.back?);
        Some((link.ticket, &link.item))
    }

    /// The tickets with their items, in order.
    pub fn iter(&self) -> Iter<'_, T>
        ensures all { result ≡ self.now }
        ensures runs { ShowsInOrder (shown {T = T}) }
        ensures rising { IsRising self.now }
    {
        Iter {
            nodes: &self.chain.nodes,
            next: self.chain.front,
        }
    }

    /// The items with a ticket greater than this one, in order. If the ticket is in the list, or less than the first,
    /// or not less than the last, it searches at most one bucket. Else the number of steps has two bounds. One is the
    /// difference to the next smaller ticket in the list, and the other is the number of items with a greater ticket.
    pub fn iter_after(&self, ticket: u64) -> Iter<'_, T>
        ensures all { result ≡ after self.now ticket }
        ensures runs { ShowsInOrder (shown {T = T}) }
    {
        Iter {
            nodes: &self.chain.nodes,
            next: self.chain.first_after(ticket),
        }
    }

    /// The number of items.
    pub fn len(&self) -> usize
        ensures { result ≡ length self.now }
    {
        self.len
    }

    /// Whether there are no items.
    pub fn is_empty(&self) -> bool
        ensures { result ≡ (length self.now == 0) }
    {
        self.len == 0
    }
}

impl<T: Drop> Drop for TicketList<T> {
    fn drop(self) {
        let TicketList {
            chain,
            memory,
            len: _,
        } = self;
        chain.free(memory);
    }
}
