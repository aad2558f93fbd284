//! Ticket lists: adding a node that exists, and removing an item, don't allocate.
use crate::rows::{Row, without_growth};
use mp_memory::Memory;
use mp_testing::{Call, Seen, TrialFault, Trialled, under_each_refusal};
use mp_tickets::{Node, TicketList, make_node};

/// Adds the node under the ticket, if that is greater than all tickets in the list.
pub fn push<T: Drop>(list: &mut TicketList<T>, ticket: u64, node: Node<T>) {
    let last = match list.back() {
        Some((last, _item)) => last,
        None => 0,
    };
    if ticket > last {
        list.push_node(ticket, node);
    }
}

/// Adds the item under the ticket, if that is greater than all tickets in the list and no allocation fails.
pub fn put<T: Drop>(memory: Memory, list: &mut TicketList<T>, ticket: u64, item: T) {
    if let Ok(node) = make_node(memory, item) {
        push(list, ticket, node);
    }
}

/// A list with the tickets of one bucket. The item of each is its ticket times 100.
pub fn one_bucket(memory: Memory) -> Option<TicketList<u64>> {
    let Ok(mut list) = TicketList::new(memory) else {
        return None;
    };
    put(memory, &mut list, 1, 100);
    put(memory, &mut list, 1025, 102_500);
    put(memory, &mut list, 2049, 204_900);
    Some(list)
}

/// A list of the tickets from 1 on. Room is made for each before it is added. The item of each is its ticket times 10.
pub fn filled(memory: Memory, count: u64) -> Option<TicketList<u64>> {
    let Ok(mut list) = TicketList::new(memory) else {
        return None;
    };
    for ticket in 1..=count {
        if list.reserve().is_err() {
            return None;
        }
        put(memory, &mut list, ticket, ticket.wrapping_mul(10));
    }
    Some(list)
}

/// A ticket and its item, or zeros if there is none.
pub fn pair(entry: Option<(u64, &u64)>) -> [u64; 2] {
    match entry {
        Some((ticket, item)) => [ticket, *item],
        None => [0, 0],
    }
}

fn ends(list: &TicketList<u64>) -> Seen {
    let [front, first] = pair(list.front());
    let [back, last] = pair(list.back());
    let [next, second] = pair(list.iter_after(1).next());
    [front, first, back, last, next, second]
}

fn unlink(list: &mut TicketList<u64>) -> Seen {
    let found = list.get(2049).copied().unwrap_or(0);
    let unlinked = list.unlink(1025).unwrap_or(0);
    let [front, first] = pair(list.iter().next());
    let is_empty = u64::from(list.is_empty());
    [found, unlinked, front, first, list.len() as u64, is_empty]
}

// The first, the last and the second of a list to which a node was pushed.
fn pushed(memory: Memory) -> Option<Seen> {
    let Ok(node) = make_node(memory, 9) else {
        return None;
    };
    let mut list = one_bucket(memory)?;
    memory.refuse(1);
    push(&mut list, 3073, node);
    without_growth(memory, ends(&list))
}

// What is found, what is removed, the first, how many are left and whether none is.
fn unlinked(memory: Memory) -> Option<Seen> {
    let mut list = one_bucket(memory)?;
    memory.refuse(1);
    let seen = unlink(&mut list);
    without_growth(memory, seen)
}

#[derive(Drop)]
struct Reserving {
    memory: Memory,
    count: u64,
}

// The length, the items of the first ticket and of one in the middle, the last ticket, and what comes after 700.
fn look_at(list: &TicketList<u64>) -> Seen {
    let first = list.get(1).copied().unwrap_or(0);
    let middle = list.get(512).copied().unwrap_or(0);
    let [back, _] = pair(list.back());
    let [next, item] = pair(list.iter_after(700).next());
    [list.len() as u64, first, middle, back, next, item]
}

impl Call for Reserving {
    type Value = TicketList<u64>;

    fn make(&self) -> Option<TicketList<u64>> {
        filled(self.memory, self.count)
    }

    fn call(&self, list: &mut TicketList<u64>) -> Option<Seen> {
        if list.reserve().is_err() {
            return None;
        }
        Some(look_at(list))
    }

    fn look(&self, list: &TicketList<u64>) -> Seen {
        look_at(list)
    }
}

fn reserved(memory: Memory, count: u64) -> Result<Trialled, TrialFault> {
    under_each_refusal(&memory, &Reserving { memory, count })
}

/// Room for one more is made if there are as many items as buckets, and not otherwise.
pub fn rooms(memory: Memory) -> [Row; 3] {
    [
        Row::tried(
            "room behind 1,023 items",
            reserved(memory, 1023),
            [1023, 10, 5120, 1023, 701, 7010],
            0,
        ),
        Row::tried(
            "room behind 1,024 items",
            reserved(memory, 1024),
            [1024, 10, 5120, 1024, 701, 7010],
            1,
        ),
        Row::tried(
            "room behind 1,025 items",
            reserved(memory, 1025),
            [1025, 10, 5120, 1025, 701, 7010],
            0,
        ),
    ]
}

/// What doesn't allocate.
pub fn thrift(memory: Memory) -> [Row; 2] {
    [
        Row::seen(
            "a push to a list",
            pushed(memory),
            [1, 100, 3073, 9, 1025, 102_500],
        ),
        Row::seen(
            "an unlink",
            unlinked(memory),
            [204_900, 102_500, 1, 100, 2, 0],
        ),
    ]
}
