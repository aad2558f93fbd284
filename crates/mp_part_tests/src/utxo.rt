//! Overlays. One is made, a transaction is applied to it after making room, and both are read without allocating. Making room is
//! tested by the cases of `overlay.txt`.
use crate::rows::{Row, without_growth};
use mp_memory::Memory;
use mp_testing::{ledger, opening, output_of, transaction};
use mp_tx::{OutRef, Tx, TxId};
use mp_utxo::{Overlay, Utxo};
use std::sync::Arc;

fn may_spend(overlay: &Overlay, from: OutRef) -> u64 {
    u64::from(overlay.get(&from).is_some())
}

// Whether openings 0 and 1 may be spent, and outputs 0 and 1 of a transaction.
fn found(overlay: &Overlay, id: &TxId) -> [u64; 4] {
    [
        may_spend(overlay, opening(0)),
        may_spend(overlay, opening(1)),
        may_spend(overlay, output_of(id, 0)),
        may_spend(overlay, output_of(id, 1)),
    ]
}

// Makes room for the transaction, and applies it while the failure of the next allocation is armed.
fn apply(memory: Memory, overlay: &mut Overlay, tx: &Arc<Tx, Memory>) -> Option<()> {
    let Ok(copy) = Arc::try_clone(tx) else {
        return None;
    };
    memory.refuse(0);
    if overlay.reserve_for(tx).is_err() {
        return None;
    }
    memory.refuse(1);
    overlay.apply(1, copy);
    Some(())
}

// The same, and whether opening 0 is in the ledger below.
fn look(overlay: &Overlay, maker: &TxId) -> [u64; 5] {
    let [first, second, made, next] = found(overlay, maker);
    let below = u64::from(overlay.ledger().get(&opening(0)).is_some());
    [first, second, made, next, below]
}

// A new overlay, or one with a transaction that spends opening 0 and makes two outputs.
fn made(memory: Memory, is_applied: bool) -> Option<[u64; 5]> {
    let Ok(base) = ledger(memory, 2, 1000) else {
        return None;
    };
    let Ok(maker) = transaction(memory, &[opening(0)], &[60, 40]) else {
        return None;
    };
    memory.refuse(1);
    let Ok(mut overlay) = Overlay::over(memory, &base) else {
        return None;
    };
    if is_applied {
        apply(memory, &mut overlay, &maker)?;
    }
    without_growth(memory, look(&overlay, maker.id()))
}

/// What doesn't allocate. The numbers are whether openings 0 and 1 may be spent, and the outputs of the maker, and whether
/// opening 0 is in the ledger below.
pub fn thrift(memory: Memory) -> [Row; 2] {
    [
        Row::seen("a new overlay", made(memory, false), [1, 1, 0, 0, 1]),
        Row::seen("one applied", made(memory, true), [0, 1, 1, 1, 1]),
    ]
}
