//! The linked lists of the nodes: one forward and one back through all of them, and one back through each bucket.
ghost use Rattle.std.specs.Prelude.{◌≡◌, ℕ, ◌<◌, ◌%◌, ◌++◌, ◌∷◌, [], IfOk, MatchOption};
ghost use Rattle.mp_tickets.specs.Inside.Cell.{AtCell};
ghost use Rattle.mp_tickets.specs.Tickets.{IsRising};
ghost use Rattle.mp_tickets.specs.Inside.Chain.{bucket_count, IsChained};
ghost use Rattle.mp_tickets.specs.Inside.Found.{IsFound, IsFirstAfter, HasNone};
ghost use Rattle.mp_tickets.specs.Inside.Relinks.{MayBeAt, SetsNext, SetsPrev, SetsBucketPrev};
ghost use Rattle.mp_tickets.specs.Inside.Links.{pairs};

use crate::node::Link;
use crate::node_store::{NodePtr, NodeStore};
use crate::raw_box::RawBox;
use mp_memory::{Memory, NoMemory};

/// The nodes in the order of their tickets, and the ends of each linked list.
pub(crate) struct Chain<T> {
    pub(crate) nodes: NodeStore<Link<T>>,
    pub(crate) front: Option<NodePtr>,
    pub(crate) back: Option<NodePtr>,
    // The last node of each bucket.
    pub(crate) bucket_backs: Vec<Option<NodePtr>, Memory>,
}

/// A node that was found.
#[derive(Clone, Copy)]
pub(crate) struct Found {
    pub(crate) ptr: NodePtr,
    // The next node in its bucket.
    pub(crate) bucket_next: Option<NodePtr>,
}

impl<T> Chain<T> {
    /// A chain without nodes, with this many buckets.
    pub(crate) fn new(memory: Memory, buckets: usize) -> Result<Chain<T>, NoMemory>
        requires { 0 < buckets }
        ensures chained { IfOk result (λ c. IsChained c) }
        ensures empty { IfOk result (λ c. c.nodes.cells ≡ []) }
    {
        let bucket_backs = Vec::from_elem(memory, None, buckets)?;
        Ok(Chain {
            nodes: NodeStore::new(),
            front: None,
            back: None,
            bucket_backs,
        })
    }

    fn bucket_of(&self, ticket: u64) -> usize
        requires { 0 < bucket_count self.now }
        ensures { result ≡ ticket % bucket_count self.now }
    {
        (ticket % self.bucket_backs.len() as u64) as usize
    }

    // Makes `next` the node after the one at `at`, or the first node if `at` is `None`.
    fn set_next(&mut self, at: Option<NodePtr>, next: Option<NodePtr>)
        requires { MayBeAt self.old.nodes.cells at }
        ensures { SetsNext self.old self.new at next }
    {
        match at {
            Some(ptr) => self.nodes.get_mut(ptr).next = next,
            None => self.front = next,
        }
    }

    // Makes `prev` the node before the one at `at`, or the last node if `at` is `None`.
    fn set_prev(&mut self, at: Option<NodePtr>, prev: Option<NodePtr>)
        requires { MayBeAt self.old.nodes.cells at }
        ensures { SetsPrev self.old self.new at prev }
    {
        match at {
            Some(ptr) => self.nodes.get_mut(ptr).prev = prev,
            None => self.back = prev,
        }
    }

    // The same within a bucket: if `at` is `None`, `bucket_prev` becomes the last node of the bucket.
    fn set_bucket_prev(&mut self, bucket: usize, at: Option<NodePtr>, bucket_prev: Option<NodePtr>)
        requires at { MayBeAt self.old.nodes.cells at }
        requires within { bucket < bucket_count self.old }
        ensures { SetsBucketPrev self.old self.new bucket at bucket_prev }
    {
        match at {
            Some(ptr) => self.nodes.get_mut(ptr).bucket_prev = bucket_prev,
            None => self.bucket_backs[bucket] = bucket_prev,
        }
    }

    /// Links the node in as the last one.
    pub(crate) fn push(&mut self, ticket: u64, mut link: Box<Link<T>, Memory>)
    where
        T: Drop,
        requires { IsChained self.old }
        ensures chained { IsChained self.new }
        ensures pairs { pairs self.new.nodes.cells
            ≡ pairs self.old.nodes.cells ++ (ticket, link.value.item) ∷ [] }
    {
        let bucket = self.bucket_of(ticket);
        let back = self.back;
        link.ticket = ticket;
        link.prev = back;
        link.next = None;
        link.bucket_prev = self.bucket_backs[bucket];
        let ptr = self.nodes.insert(RawBox::from_box(link));
        self.set_next(back, Some(ptr));
        self.set_prev(None, Some(ptr));
        self.set_bucket_prev(bucket, None, Some(ptr));
    }

    /// The node of the ticket. It searches one bucket only.
    pub(crate) fn find(&self, ticket: u64) -> Option<Found>
        requires { IsChained self.now }
        ensures { MatchOption result
            (HasNone ticket self.now.nodes.cells)
            (IsFound (bucket_count self.now) ticket self.now.nodes.cells) }
    {
        let mut bucket_next = None;
        let mut at = self.bucket_backs[self.bucket_of(ticket)];
        while let Some(ptr) = at {
            let link = self.nodes.get(ptr);
            if link.ticket == ticket {
                return Some(Found { ptr, bucket_next });
            }
            bucket_next = at;
            at = link.bucket_prev;
        }
        None
    }

    /// Takes the node out of each linked list, and out of the store.
    pub(crate) fn take(&mut self, found: Found, memory: Memory) -> RawBox<Link<T>, Memory>
        requires chained { IsChained self.old }
        requires found { (ticket : ℕ)
            × IsFound (bucket_count self.old) ticket self.old.nodes.cells found }
        ensures chained { IsChained self.new }
        ensures taken { AtCell self.old.nodes.cells found.ptr.at (λ xs c ys.
            (pairs self.new.nodes.cells ≡ pairs xs ++ pairs ys) × (result.value ≡ c.value)) }
    {
        let &Link {
            ticket,
            prev,
            next,
            bucket_prev,
            ..
        } = self.nodes.get(found.ptr);
        let bucket = self.bucket_of(ticket);
        self.set_next(prev, next);
        self.set_prev(next, prev);
        self.set_bucket_prev(bucket, found.bucket_next, bucket_prev);
        self.nodes.remove(found.ptr, memory)
    }

    /// The first node with a greater ticket. It is the first of all, or the one after the ticket's own node, or
    /// `seek_after` finds it.
    pub(crate) fn first_after(&self, ticket: u64) -> Option<NodePtr>
        requires chained { IsChained self.now }
        requires rising { IsRising (pairs self.now.nodes.cells) }
        ensures { IsFirstAfter ticket self.now.nodes.cells result }
    {
        let front = self.front?;
        if ticket < self.nodes.get(front).ticket {
            return Some(front);
        }
        self.seek_after(ticket)
    }

    // The same. It goes back from the last node, and down from the ticket to the next one with a node. It takes one
    // step of each in turn. It stops when either does.
    fn seek_after(&self, ticket: u64) -> Option<NodePtr>
        requires chained { IsChained self.now }
        requires rising { IsRising (pairs self.now.nodes.cells) }
        ensures { IsFirstAfter ticket self.now.nodes.cells result }
    {
        let mut near = ticket;
        let mut after = None;
        let mut at = self.back;
        while let Some(ptr) = at {
            let link = self.nodes.get(ptr);
            if link.ticket <= ticket {
                return after;
            }
            if let Some(found) = self.find(near) {
                return self.nodes.get(found.ptr).next;
            }
            near = near.saturating_sub(1);
            after = at;
            at = link.prev;
        }
        after
    }

    /// Takes each node out, and links it in as the last one of the other chain.
    pub(crate) fn move_to(self, to: &mut Chain<T>, memory: Memory)
    where
        T: Drop,
        requires chained { IsChained self }
        requires to { IsChained to.old }
        ensures chained { IsChained to.new }
        ensures pairs { pairs to.new.nodes.cells
            ≡ pairs to.old.nodes.cells ++ pairs self.nodes.cells }
    {
        let Chain {
            mut nodes,
            front,
            back: _,
            bucket_backs,
        } = self;
        drop(bucket_backs);
        let mut at = front;
        while let Some(ptr) = at {
            let link = nodes.remove(ptr, memory).into_box();
            let next = link.next;
            to.push(link.ticket, link);
            at = next;
        }
        nodes.end();
    }

    /// Drops each item and frees each node.
    pub(crate) fn free(self, memory: Memory)
    where
        T: Drop,
        requires { IsChained self }
    {
        let Chain {
            mut nodes,
            front,
            back: _,
            bucket_backs,
        } = self;
        drop(bucket_backs);
        let mut at = front;
        while let Some(ptr) = at {
            let link = nodes.remove(ptr, memory).into_box();
            at = link.next;
            drop(link);
        }
        nodes.end();
    }
}
