//! What callers hear, as plain data.
use mp_history::PoolName;
use mp_memory::NoMemory;
use mp_mempool::{Receipt, Refusal, SnapshotFor};
use mp_testing::Seen;
use mp_testing::told::{Told, read_refusal, read_reply, with_digit};
use mp_versions::{Item, Run, Snapshot};

/// What a caller hears. Tickets are the digits of a number: 1 and 2 are 12, 0 is none, and `MANY` are more than 19.
#[derive(Clone, Copy)]
pub enum Heard {
    /// The place of the entry, and the reply.
    Entered(u64, Told),
    Refused(Told),
    Foreign,
    /// What would stay: the number of entries of the history, the tickets, and the bytes.
    Kept(u64, u64, u64),
    /// What is seen: the number of entries of the history, the number of transactions, and their tickets.
    Sees(u64, usize, u64),
    /// The place of the caller's last entry.
    Last(u64),
    /// The caller has made no entry.
    NoLast,
    /// Whether the refusal has happened.
    Met(bool),
    /// This many passes have seen nothing, and the index of each is its number.
    Fresh(usize),
    /// The pass at this index isn't like that.
    Unlike(usize),
    /// There is no answer.
    Done,
    /// There is no such caller or sample.
    Nobody,
}

/// More than 19 tickets.
pub const MANY: u64 = u64::MAX;

/// An allocation failed.
pub const NO_MEMORY: Heard = Heard::Refused(Told::NoMemory);

// The answer as numbers, with an entry at this place, or 0 without one.
fn told_from(told: Told, place: u64) -> Seen {
    let [kind, first, second, ..] = told.seen();
    [kind, first, second, place, 0, 0]
}

impl Heard {
    /// What is heard, as numbers. The first is its kind, and from the fifth on they are 0.
    pub fn seen(self) -> Seen {
        let [kind, first, second, third] = match self {
            Heard::Entered(place, told) => return told_from(told, place.saturating_add(1)),
            Heard::Refused(told) => return told_from(told, 0),
            Heard::Foreign => [20, 0, 0, 0],
            Heard::Kept(number, tickets, bytes) => [21, number, tickets, bytes],
            Heard::Sees(number, count, tickets) => [22, number, count as u64, tickets],
            Heard::Last(place) => [23, place, 0, 0],
            Heard::NoLast => [24, 0, 0, 0],
            Heard::Met(is_met) => [25, u64::from(is_met), 0, 0],
            Heard::Fresh(count) => [26, count as u64, 0, 0],
            Heard::Unlike(place) => [27, place as u64, 0, 0],
            Heard::Done => [28, 0, 0, 0],
            Heard::Nobody => [29, 0, 0, 0],
        };
        [kind, first, second, third, 0, 0]
    }
}

/// The answer to a change.
pub fn read_answer<N: PoolName>(answer: &Result<Receipt, Refusal<N>>) -> Heard {
    match answer {
        Ok(receipt) => Heard::Entered(receipt.place, read_reply(&receipt.entry.reply)),
        Err(Refusal::Pool(refusal)) => Heard::Refused(read_refusal(refusal)),
        Err(Refusal::Foreign(_)) => Heard::Foreign,
    }
}

fn digits_of(items: &[Item]) -> u64 {
    let mut digits = 0;
    for item in items {
        digits = with_digit(digits, item.ticket);
    }
    digits
}

/// The answer about what would stay.
pub fn read_kept(kept: &Result<SnapshotFor, NoMemory>) -> Heard {
    match kept {
        Ok(kept) => Heard::Kept(kept.number, digits_of(kept.items.as_slice()), kept.bytes),
        Err(NoMemory) => NO_MEMORY,
    }
}

fn digits_in(run: Run<'_>) -> u64 {
    let mut digits = 0;
    for item in run {
        digits = with_digit(digits, item.ticket);
    }
    digits
}

/// The content of the snapshot.
pub fn read_snapshot<N: PoolName>(snapshot: &Snapshot<'_, N>) -> Heard {
    Heard::Sees(
        snapshot.number(),
        snapshot.size().0,
        digits_in(snapshot.txs()),
    )
}
