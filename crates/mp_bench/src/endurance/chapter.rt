//! The record of one pool.

use mp_history::{Entry, PoolName};
use mp_memory::Memory;
use mp_mempool::Receipt;
use mp_seqpool::Reply;
use mp_tx::TxId;
use mp_versions::Snapshot;
use std::sync::{Mutex, Wait};

/// The content of a snapshot: the number of entries, the last ticket, and the transactions with their tickets.
pub struct View {
    pub number: u64,
    pub last: u64,
    pub held: Vec<(u64, TxId), Memory>,
}

impl Drop for View {
    fn drop(self) {
        let View {
            number: _,
            last: _,
            held: _,
        } = self;
    }
}

impl View {
    fn empty(memory: Memory) -> View {
        View {
            number: 0,
            last: 0,
            held: Vec::new(memory),
        }
    }

    /// Records the snapshot.
    pub fn take_down<N: PoolName>(&mut self, snapshot: &Snapshot<'_, N>) -> Option<()> {
        self.number = snapshot.number();
        self.last = snapshot.last();
        for item in snapshot.txs() {
            self.held.push((item.ticket, *item.tx.id())).ok()?;
        }
        Some(())
    }

    /// Whether a pool opens like this if it takes over these transactions and this last ticket.
    pub fn opens_with(&self, last: u64, held: &[(u64, TxId)]) -> bool {
        self.number == 0 && self.last == last && self.held.as_slice() == held
    }
}

/// The record of one pool: its content when it opened, its entries, and its content at the end.
pub struct Chapter {
    pub opening: View,
    pub entries: Vec<Entry, Memory>,
    pub closing: View,
}

impl Drop for Chapter {
    fn drop(self) {
        let Chapter {
            opening: _,
            entries: _,
            closing: _,
        } = self;
    }
}

// Whether the places are this one and those after it, `count` of them.
fn are_whole(receipts: &[Receipt], first: u64, count: u64) -> bool {
    for (number, receipt) in receipts.iter().enumerate() {
        if receipt.place != first.wrapping_add(number as u64) {
            return false;
        }
    }
    receipts.len() as u64 == count
}

// Moves all receipts into one list, in the order of their places.
fn gather(
    rt: &impl Wait,
    memory: Memory,
    all: &Mutex<Vec<Receipt, Memory>>,
) -> Option<Vec<Receipt, Memory>> {
    let mut receipts = Vec::new(memory);
    receipts.append(&mut all.lock(rt)).ok()?;
    receipts.sort_by_key(|receipt| receipt.place).ok()?;
    Some(receipts)
}

// The entries in the order of their places.
fn entries_of(memory: Memory, receipts: Vec<Receipt, Memory>) -> Option<Vec<Entry, Memory>> {
    let mut entries = Vec::new(memory);
    for receipt in receipts {
        entries.push(receipt.entry).ok()?;
    }
    Some(entries)
}

/// The part of the history that begins at this place and has this many entries, if the receipts have them all.
pub fn take_history(
    rt: &impl Wait,
    memory: Memory,
    receipts: &Mutex<Vec<Receipt, Memory>>,
    first: u64,
    count: u64,
) -> Option<Vec<Entry, Memory>> {
    let receipts = gather(rt, memory, receipts)?;
    if !are_whole(&receipts, first, count) {
        return None;
    }
    entries_of(memory, receipts)
}

/// Whether the given tickets are strictly increasing from this one on.
pub fn are_rising(entries: &[Entry], last: u64) -> bool {
    let mut last = last;
    for entry in entries {
        if let Reply::Accepted { ticket } = &entry.reply {
            if *ticket <= last {
                return false;
            }
            last = *ticket;
        }
    }
    true
}

impl Chapter {
    /// An empty record.
    pub fn empty(memory: Memory) -> Chapter {
        Chapter {
            opening: View::empty(memory),
            entries: Vec::new(memory),
            closing: View::empty(memory),
        }
    }
}
