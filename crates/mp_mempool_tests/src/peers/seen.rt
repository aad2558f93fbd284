//! Observed offers and blocks, as numbers.
use crate::mempool::count_owners;
use mp_history::PoolName;
use mp_seqpool::Command;
use mp_testing::Seen;
use mp_testing::commands::Samples;
use mp_testing::told::with_digit;
use mp_tx::TxId;
use mp_versions::{Item, PeerReader, Snapshot, forge};

// The number of samples that are submitted, from the first on: a list of all of them takes more than one allocation.
const SUBMITTED: usize = 6;

/// The total number of the transactions' owners.
pub fn owners(samples: &Samples) -> u64 {
    count_owners(samples.commands(0, SUBMITTED))
}

fn submits(command: &Command, id: &TxId) -> bool {
    match command {
        Command::Submit(tx) => tx.id() == id,
        _ => false,
    }
}

// The index of the item's transaction among the samples, from 1, or 0.
fn place_of(samples: &Samples, item: &Item) -> u64 {
    let id = item.tx.id();
    let commands = samples.commands(0, SUBMITTED);
    match commands.iter().position(|command| submits(command, id)) {
        Some(place) => (place as u64).saturating_add(1),
        None => 0,
    }
}

// The tickets as the digits of a number, and so the indices of the transactions: 1 and 2 are 12.
fn digits(samples: &Samples, items: &[Item]) -> (u64, u64) {
    let mut tickets = 0u64;
    let mut places = 0u64;
    for item in items {
        tickets = with_digit(tickets, item.ticket);
        places = with_digit(places, place_of(samples, item));
    }
    (tickets, places)
}

/// The offer: the tickets, the transactions, how many more owners they have, and the cursor. Returns `None` if an
/// allocation fails.
pub fn see_offer<N: PoolName>(
    samples: &Samples,
    reader: &mut PeerReader,
    snapshot: &Snapshot<'_, N>,
    count: u64,
    bytes: u64,
) -> Option<Seen> {
    let before = owners(samples);
    let Ok(items) = reader.offer(samples.memory, snapshot, count, bytes) else {
        return None;
    };
    let shared = owners(samples).wrapping_sub(before);
    let (tickets, places) = digits(samples, items.as_slice());
    Some([tickets, places, shared, reader.cursor(), 0, 0])
}

/// The block: the tickets, the transactions, how many more owners they have, the bytes, and the number of entries of
/// the history. Returns `None` if an allocation fails.
pub fn see_block<N: PoolName>(
    samples: &Samples,
    snapshot: &Snapshot<'_, N>,
    bytes: u64,
) -> Option<Seen> {
    let before = owners(samples);
    let Ok(block) = forge(samples.memory, snapshot, bytes) else {
        return None;
    };
    let shared = owners(samples).wrapping_sub(before);
    let (tickets, places) = digits(samples, block.items.as_slice());
    Some([tickets, places, shared, block.bytes, block.number, 0])
}
