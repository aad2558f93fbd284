//! Which allocation of a handle fails.
use crate::rows::Row;
use mp_memory::{Memory, NoMemory};
use mp_testing::Seen;

// Of `growths` allocations, from 1: the last that fails and how many fail; the last before which a failure is armed and how many
// of these there are.
fn grow(memory: Memory, growths: u64) -> [u64; 4] {
    let [mut refused, mut refusals, mut waited, mut waits] = [0u64; 4];
    for growth in 1..=growths {
        if memory.waits() {
            waited = growth;
            waits = waits.wrapping_add(1);
        }
        if Box::new(memory, growth).is_err() {
            refused = growth;
            refusals = refusals.wrapping_add(1);
        }
    }
    [refused, refusals, waited, waits]
}

// The numbers for nineteen allocations, whether a failure is armed after them, and how many of eight more allocations fail.
fn grown(memory: Memory) -> Option<Seen> {
    let [refused, refusals, waited, waits] = grow(memory, 19);
    let waits_after = u64::from(memory.waits());
    let [_, later, _, _] = grow(memory, 8);
    Some([refused, refusals, waited, waits, waits_after, later])
}

// The allocations that are to fail, each armed after the one before, and the numbers.
const ARMED: [(&str, &[u64], Seen); 13] = [
    ("a new handle", &[], [0, 0, 0, 0, 0, 0]),
    ("growth 1", &[1], [1, 1, 1, 1, 0, 0]),
    ("growth 2", &[2], [2, 1, 2, 2, 0, 0]),
    ("growth 3", &[3], [3, 1, 3, 3, 0, 0]),
    ("growth 4", &[4], [4, 1, 4, 4, 0, 0]),
    ("growth 5", &[5], [5, 1, 5, 5, 0, 0]),
    ("growth 6", &[6], [6, 1, 6, 6, 0, 0]),
    ("growth 7", &[7], [7, 1, 7, 7, 0, 0]),
    ("growth 8", &[8], [8, 1, 8, 8, 0, 0]),
    ("none after 2", &[2, 0], [0, 0, 0, 0, 0, 0]),
    ("2^62 after 2", &[2, 1 << 62], [0, 0, 19, 19, 1, 0]),
    ("2^62 + 1 after 2", &[2, (1 << 62) + 1], [0, 0, 0, 0, 0, 0]),
    ("2^64 - 1 after 2", &[2, u64::MAX], [0, 0, 0, 0, 0, 0]),
];

fn armed(memory: Memory, growths: &[u64]) -> Option<Seen> {
    for nth in growths {
        memory.refuse(*nth);
    }
    grown(memory)
}

/// The numbers are, in order: the last allocation that fails and how many fail, then the last before which a failure is armed and
/// how many there are. Then whether a failure is armed afterwards, and how many more fail then.
pub fn armings(memory: Memory) -> [Row; 13] {
    ARMED.map(|(name, growths, wanted)| Row::seen(name, armed(memory, growths), wanted))
}

// The other handle allocates. Then the failure isn't armed in the copy either.
fn armed_by_a_copy(memory: Memory) -> Option<Seen> {
    let copy = memory;
    copy.refuse(3);
    let seen = grown(memory);
    if copy.waits() { None } else { seen }
}

fn boxed(memory: Memory) -> Result<u8, NoMemory> {
    Ok(*Box::new(memory, 1u8)?)
}

// How many allocations of the handle fail, whether a failure is armed in the other, and whether the other's own allocation then
// fails.
fn armed_apart(memory: Memory, other: Memory) -> Option<[u64; 3]> {
    other.refuse(1);
    let [_, refusals, _, _] = grow(memory, 8);
    let waits = u64::from(other.waits());
    Some([refusals, waits, u64::from(boxed(other).is_err())])
}

fn named(memory: Memory) -> Option<[u64; 1]> {
    let Ok(text) = format!(in memory; "{memory:?}") else {
        return None;
    };
    Some([u64::from(text.as_str() == "Metered")])
}

// Pushes the item, and again if that fails. Returns how often it failed, and how often that changed the length.
fn push(items: &mut Vec<u64, Memory>, item: u64) -> [u64; 2] {
    let before = items.len();
    if items.push(item).is_ok() {
        return [0, 0];
    }
    let is_changed = u64::from(items.len() != before);
    [1 + u64::from(items.push(item).is_err()), is_changed]
}

// A vector allocates a new block, and then larger ones.
fn push_all(items: &mut Vec<u64, Memory>) -> [u64; 2] {
    let [mut refusals, mut changes] = [0u64; 2];
    for item in 0..500 {
        let [refused, changed] = push(items, item);
        refusals = refusals.wrapping_add(refused);
        changes = changes.wrapping_add(changed);
    }
    [refusals, changes]
}

// How many of the items are at their own index.
fn in_place(items: &[u64]) -> u64 {
    let mut right = 0u64;
    for (at, item) in items.iter().enumerate() {
        right = right.wrapping_add(u64::from(*item == at as u64));
    }
    right
}

// How many of 500 pushes fail, how many of these changed the vector, how many items there are then, and how many are in place.
fn pushed(memory: Memory, nth: u64) -> Option<[u64; 4]> {
    let mut items = Vec::new(memory);
    memory.refuse(nth);
    let [refusals, changes] = push_all(&mut items);
    Some([refusals, changes, items.len() as u64, in_place(&items)])
}

// Shrinks a vector, then asks for more than there is.
fn shrink(memory: Memory, items: &mut Vec<u64, Memory>) -> [u64; 4] {
    memory.refuse(1);
    items.shrink_to_fit();
    let is_less = u64::from(items.capacity() < 100);
    let waits = u64::from(memory.waits());
    let is_refused = u64::from(items.reserve(1000).is_err());
    let is_same = u64::from(items.as_slice() == [7].as_slice());
    [is_less, waits, is_refused, is_same]
}

fn shrunk(memory: Memory) -> Option<[u64; 4]> {
    let Ok(mut items) = Vec::with_capacity(memory, 100) else {
        return None;
    };
    let _ = items.push(7u64);
    Some(shrink(memory, &mut items))
}

const PUSHES: [(&str, u64); 6] = [
    ("growth 1 of a vector", 1),
    ("growth 2 of a vector", 2),
    ("growth 3 of a vector", 3),
    ("growth 4 of a vector", 4),
    ("growth 5 of a vector", 5),
    ("growth 6 of a vector", 6),
];

/// Allocations of a vector. Each that fails succeeds the next time.
pub fn pushes(memory: Memory) -> [Row; 6] {
    PUSHES.map(|(name, nth)| Row::seen(name, pushed(memory, nth), [1, 0, 500, 500]))
}

/// A handle's copy, another handle, its name, and a vector that shrinks.
pub fn others(memory: Memory, other: Memory) -> [Row; 4] {
    [
        Row::seen("by a copy", armed_by_a_copy(memory), [3, 1, 3, 3, 0, 0]),
        Row::seen("another handle", armed_apart(memory, other), [0, 1, 1]),
        Row::seen("the name of a handle", named(memory), [1]),
        Row::seen("a vector that shrinks", shrunk(memory), [1, 1, 1, 1]),
    ]
}
