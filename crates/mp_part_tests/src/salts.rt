//! Ledger states: a share doesn't allocate. A state, its shares and those after it hash by their salt.
use crate::ledger::{SALT, address_at, ledger_with, reference};
use crate::rows::{Row, without_growth};
use mp_memory::Memory;
use mp_tx::{Ledger, Salt};
use std::hash::{BuildHasher, Hasher};

// The tick, the block bytes, the address of an output, and whether its transaction has a second output.
fn look(ledger: &Ledger) -> [u64; 4] {
    let has_second = ledger.get(&reference(3, 1)).is_some();
    let address = address_at(ledger, reference(3, 0));
    [
        ledger.tick(),
        ledger.block_bytes(),
        address,
        u64::from(has_second),
    ]
}

fn shared(memory: Memory) -> Option<[u64; 4]> {
    let Some(ledger) = ledger_with(memory, 9) else {
        return None;
    };
    memory.refuse(1);
    let Ok(share) = ledger.share() else {
        return None;
    };
    without_growth(memory, look(&share))
}

// The hash of a word by a hasher of the salt.
fn hashed(salt: Salt) -> u64 {
    let mut hasher = salt.build_hasher();
    hasher.write_u64(1);
    hasher.finish()
}

fn has_salt(ledger: &Ledger) -> u64 {
    u64::from(hashed(ledger.salt()) == hashed(Salt::new(SALT)))
}

// Whether a ledger state of `outputs` outputs has its salt, and so a share of it and the state after a block. Then whether
// another salt hashes differently.
fn salts(memory: Memory, outputs: u8) -> Option<[u64; 4]> {
    let Some(ledger) = ledger_with(memory, outputs) else {
        return None;
    };
    let Ok(share) = ledger.share() else {
        return None;
    };
    let Ok(after) = ledger.after(memory, 7, 2, &[reference(3, 0)], Vec::new(memory)) else {
        return None;
    };
    let differs = hashed(Salt::new(0)) != hashed(Salt::new(SALT));
    Some([
        has_salt(&ledger),
        has_salt(&share),
        has_salt(&after),
        u64::from(differs),
    ])
}

/// A share of a ledger state, and its salts: if the block becomes a layer, and if its table is built again.
pub fn ledgers(memory: Memory) -> [Row; 3] {
    [
        Row::seen("a shared ledger", shared(memory), [6, 1, 3, 0]),
        Row::seen("salts of a layer", salts(memory, 9), [1, 1, 1, 1]),
        Row::seen("salts of a table", salts(memory, 7), [1, 1, 1, 1]),
    ]
}
