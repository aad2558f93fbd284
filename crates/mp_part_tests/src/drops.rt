//! Ticket lists: each item is returned or dropped exactly once, whichever handle its node is from.
use crate::rows::Row;
use crate::tickets::put;
use mp_memory::Memory;
use mp_testing::Seen;
use mp_tickets::{Node, TicketList, make_node};
use std::alloc::Global;
use std::rc::Rc;

// A list of owners of one value.
type Owners = TicketList<Rc<u64>>;

fn owners(counted: &Rc<u64>) -> u64 {
    Rc::strong_count(counted) as u64
}

fn put_owner(memory: Memory, list: &mut Owners, ticket: u64, counted: &Rc<u64>) {
    if let Ok(owner) = counted.clone() {
        put(memory, list, ticket, owner);
    }
}

// How many owners there are after removing the item, and after dropping it.
fn unlink(list: &mut Owners, ticket: u64, counted: &Rc<u64>) -> [u64; 2] {
    let taken = list.unlink(ticket);
    let with = owners(counted);
    drop(taken);
    [with, owners(counted)]
}

// How many owners there are with four items, and after each removal. The second removal finds nothing.
fn take_out(list: &mut Owners, memory: Memory, other: Memory, counted: &Rc<u64>) -> [u64; 5] {
    put_owner(memory, list, 1, counted);
    put_owner(other, list, 2, counted);
    put_owner(memory, list, 1025, counted);
    put_owner(other, list, 1026, counted);
    let full = owners(counted);
    let [with, without] = unlink(list, 1025, counted);
    let [again_with, again_without] = unlink(list, 1025, counted);
    [full, with, without, again_with, again_without]
}

// The same, and how many there are after dropping the list.
fn taken_out(alloc: Global, memory: Memory, other: Memory) -> Option<Seen> {
    let Ok(counted) = Rc::new(alloc, 9u64) else {
        return None;
    };
    let Ok(mut list) = TicketList::new(memory) else {
        return None;
    };
    let [full, with, without, again_with, again] = take_out(&mut list, memory, other, &counted);
    drop(list);
    Some([full, with, without, again_with, again, owners(&counted)])
}

// A node with an owner.
fn node_of(memory: Memory, counted: &Rc<u64>) -> Option<Node<Rc<u64>>> {
    match counted.clone() {
        Ok(owner) => make_node(memory, owner).ok(),
        Err(_) => None,
    }
}

// How many owners there are with such a node, and after dropping it.
fn drop_node(memory: Memory, counted: &Rc<u64>) -> Option<[u64; 2]> {
    let Some(node) = node_of(memory, counted) else {
        return None;
    };
    let with = owners(counted);
    drop(node);
    Some([with, owners(counted)])
}

// The same when the item is taken out of its node, and its value.
fn take_inner(memory: Memory, counted: &Rc<u64>) -> Option<[u64; 2]> {
    let Some(node) = node_of(memory, counted) else {
        return None;
    };
    let item = node.into_inner();
    Some([owners(counted), *item])
}

fn nodes(alloc: Global, memory: Memory) -> Option<[u64; 5]> {
    let Ok(counted) = Rc::new(alloc, 9u64) else {
        return None;
    };
    let [with, without] = drop_node(memory, &counted)?;
    let [with_item, value] = take_inner(memory, &counted)?;
    Some([with, without, with_item, value, owners(&counted)])
}

/// How often items are dropped.
pub fn drops(alloc: Global, memory: Memory, other: Memory) -> [Row; 2] {
    [
        Row::seen(
            "items of two handles",
            taken_out(alloc, memory, other),
            [5, 5, 4, 4, 4, 1],
        ),
        Row::seen("items of nodes", nodes(alloc, memory), [2, 1, 2, 9, 1]),
    ]
}
