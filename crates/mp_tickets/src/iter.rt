//! The iterator over a list.
ghost use Rattle.std.specs.Prelude.{length};
ghost use Rattle.std.specs.Iterator.{at_most};
ghost use Rattle.std.specs.Map.Iter.{TakesFirst};
ghost use Rattle.mp_tickets.specs.Tickets.{shown};

use crate::node::Link;
use crate::node_store::{NodePtr, NodeStore};
use std::marker::Model;

/// Visits the tickets with their items, in order. A contract sees the remaining ones.
#[derive(Drop)]
pub struct Iter<'a, T> {
    pub(crate) nodes: &'a NodeStore<Link<T>>,
    pub(crate) next: Option<NodePtr>,
}

impl<'a, T> Model for Iter<'a, T> {
    ghost use Rattle.std.specs.Prelude.{ℕ, List};
    ghost use Rattle.mp_tickets.specs.Inside.Links.{pairs};
    ghost use Rattle.mp_tickets.specs.Inside.Iter.{nodes_from, LeadsOn};

    ghost Value = { List (ℕ × T) };

    ghost view = { λ a. pairs (nodes_from a.next a.nodes.now.cells) };

    ghost invariant = { λ a. LeadsOn a.next a.nodes.now.cells };
}

impl<'a, T> Iterator for Iter<'a, T> {
    type Item = (u64, &'a T);

    ghost next_gives = { TakesFirst shown };

    ghost remaining = { λ s. at_most (length s) };

    fn next(&mut self) -> Option<(u64, &'a T)> {
        let link = self.nodes.get(self.next?);
        self.next = link.next;
        Some((link.ticket, &link.item))
    }
}
