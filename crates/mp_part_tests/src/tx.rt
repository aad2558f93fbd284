//! Transactions: what doesn't allocate. What does is tested by the lines of mp_vectors' `transaction.txt` and `decode.txt`.
use crate::rows::{Row, without_growth};
use mp_memory::Memory;
use mp_testing::{opening, output, transaction};
use mp_tx::{Tx, TxFault};

// Whether bytes have another fault than an allocation failure, without any allocation.
fn no_transaction(memory: Memory, bytes: &[u8]) -> Option<[u64; 1]> {
    memory.refuse(1);
    let is_other = match Tx::decode(memory, bytes) {
        Ok(_) | Err(TxFault::NoMemory) => false,
        Err(_) => true,
    };
    without_growth(memory, [u64::from(is_other)])
}

fn output_shared(memory: Memory) -> Option<[u64; 1]> {
    let Ok(paid) = output(memory, 4) else {
        return None;
    };
    memory.refuse(1);
    let Ok(share) = paid.share() else {
        return None;
    };
    without_growth(memory, [u64::from(share == paid)])
}

// How many bytes a transaction has, and how much room its encoding has.
fn encoded(memory: Memory) -> Option<[u64; 2]> {
    let Ok(tx) = transaction(memory, &[opening(0)], &[100]) else {
        return None;
    };
    let Ok(bytes) = tx.encode(memory) else {
        return None;
    };
    Some([bytes.len() as u64, bytes.capacity() as u64])
}

// Bytes that end before the first part, or count more parts than there are.
const CUT_OFF: [(&str, &[u8]); 5] = [
    ("no bytes", &[]),
    ("a version alone", &[1]),
    ("an unknown version", &[3]),
    ("a count of more", &[1, 1, 1]),
    ("no part", &[2, 0, 0, 0, 0]),
];

/// Bytes that are no transaction, whose decoding doesn't allocate.
pub fn cut_off(memory: Memory) -> [Row; 5] {
    CUT_OFF.map(|(name, bytes)| Row::seen(name, no_transaction(memory, bytes), [1]))
}

/// A share, which doesn't allocate, and an encoding, which allocates just its bytes.
pub fn rooms(memory: Memory) -> [Row; 2] {
    [
        Row::seen("a shared output", output_shared(memory), [1]),
        Row::seen("exact room for bytes", encoded(memory), [181, 181]),
    ]
}
