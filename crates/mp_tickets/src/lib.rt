//! A list of items in strictly increasing order of their tickets, which finds an item by its ticket without iterating
//! over the list. Each item has a node of its own, which is allocated before the list changes, so that a change itself
//! takes no memory. `Tickets` is a strictly increasing list of tickets without items.
#![tactic(auto)]

mod chain;
mod iter;
mod list;
mod node;
mod node_store;
mod raw_box;
mod tickets;

pub use iter::Iter;
pub use list::TicketList;
pub use node::{Node, make_node};
pub use tickets::Tickets;
