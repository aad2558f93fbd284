//! The cost of a search in a list of tickets: the same in a long list as in a short one.
use crate::rows::Row;
use crate::tickets::{filled, pair};
use mp_memory::Memory;
use mp_tickets::TicketList;
use std::rt::Clock;
use std::time::{Duration, Instant};

// How many items the lists have.
const SHORT: u64 = 500;

const LONG: u64 = 50_000;

// How many searches are made each time. The shortest of several times counts.
const SEARCHES: u64 = 1_000;

const TIMES: u64 = 9;

// A search may seem this many times as expensive as it is, since the machine does other things too.
const LEEWAY: u128 = 4;

#[derive(Clone, Copy)]
enum Search {
    // The item of one of the oldest tickets.
    Oldest,
    // What comes after one of the oldest tickets.
    AfterOldest,
    // What comes after a ticket that was removed.
    AfterGone,
}

fn seek(list: &TicketList<u64>, search: Search, number: u64) -> u64 {
    let low = number % 8;
    match search {
        Search::Oldest => list.get(low.wrapping_add(1)).copied().unwrap_or(0),
        Search::AfterOldest => pair(list.iter_after(low.wrapping_add(1)).next())[0],
        Search::AfterGone => pair(list.iter_after(low.wrapping_add(101)).next())[0],
    }
}

// How long the searches take, or `None` if one finds nothing.
fn time(clock: &impl Clock, list: &TicketList<u64>, search: Search) -> Option<Duration> {
    let start = Instant::now(clock).ok()?;
    let mut missed: u64 = 0;
    for number in 0..SEARCHES {
        if seek(list, search, number) == 0 {
            missed = missed.wrapping_add(1);
        }
    }
    let time = start.elapsed(clock).ok()?;
    if missed == 0 { Some(time) } else { None }
}

fn least(clock: &impl Clock, list: &TicketList<u64>, search: Search) -> Option<u128> {
    let mut least = u128::MAX;
    for _ in 0..TIMES {
        least = least.min(time(clock, list, search)?.as_nanos());
    }
    Some(least)
}

// A list without the tickets 101 to 110.
fn with_gap(memory: Memory, count: u64) -> Option<TicketList<u64>> {
    let mut list = filled(memory, count)?;
    for ticket in 101..111 {
        let _ = list.unlink(ticket);
    }
    Some(list)
}

// Whether the search takes about as long in the long list.
fn is_alike(
    clock: &impl Clock,
    short: &TicketList<u64>,
    long: &TicketList<u64>,
    search: Search,
) -> Option<u64> {
    let short = least(clock, short, search)?;
    let long = least(clock, long, search)?;
    Some(u64::from(long <= short.saturating_mul(LEEWAY)))
}

fn alike(clock: &impl Clock, memory: Memory) -> Option<[u64; 3]> {
    let short = with_gap(memory, SHORT)?;
    let long = with_gap(memory, LONG)?;
    Some([
        is_alike(clock, &short, &long, Search::Oldest)?,
        is_alike(clock, &short, &long, Search::AfterOldest)?,
        is_alike(clock, &short, &long, Search::AfterGone)?,
    ])
}

/// Searches in lists of 500 and of 50,000 items.
pub fn searches(clock: &impl Clock, memory: Memory) -> [Row; 1] {
    [Row::seen("searches in a long list", alike(clock, memory), [1, 1, 1])]
}
