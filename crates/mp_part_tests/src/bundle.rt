//! Bundles and sums: a share doesn't allocate, and a sum doesn't for coin.
use crate::rows::{Row, without_growth};
use mp_bundle::{Bundle, BundleFault, COIN, Given, PolicyId, Sum};
use mp_memory::{Memory, NoMemory};

const POLICY: PolicyId = [3; 32];

fn put_entries(memory: Memory, given: &mut Vec<Given, Memory>, tokens: u8) -> Result<(), NoMemory> {
    given.push((COIN, Vec::new(memory), 3))?;
    for token in 0..tokens {
        let name = [token].to_vec(memory)?;
        given.push((POLICY, name, i64::from(token) + 1))?;
    }
    Ok(())
}

// Three of coin, and entries of `tokens` tokens under one policy. Of the token named by the byte n there are n + 1.
fn entries_of(memory: Memory, tokens: u8) -> Result<Vec<Given, Memory>, NoMemory> {
    let mut given = Vec::new(memory);
    put_entries(memory, &mut given, tokens)?;
    Ok(given)
}

fn bundle_of(memory: Memory, tokens: u8) -> Result<Bundle, BundleFault> {
    Bundle::of_entries(memory, entries_of(memory, tokens)?)
}

// How many tokens there are in addition to coin, and how many of the ninth.
fn look(bundle: &Bundle) -> [u64; 2] {
    let quantity = bundle.quantity(&POLICY, b"\x08");
    [bundle.others().len() as u64, quantity.unsigned_abs()]
}

fn look_at_share(bundle: &Bundle) -> [u64; 2] {
    match bundle.share() {
        Ok(shared) => look(&shared),
        Err(_) => [0, 0],
    }
}

fn shared(memory: Memory) -> Option<[u64; 2]> {
    let Ok(bundle) = bundle_of(memory, 9) else {
        return None;
    };
    memory.refuse(1);
    without_growth(memory, look_at_share(&bundle))
}

fn add(sum: &mut Sum, bundle: &Bundle) -> Result<(), NoMemory> {
    if sum.added() < 1 << 32 {
        sum.add(bundle)
    } else {
        Ok(())
    }
}

// How many bundles were added, and the total of coin.
fn look_at_sum(sum: &Sum) -> [u64; 2] {
    let coin = u64::try_from(sum.total(&COIN, b"")).unwrap_or(0);
    [sum.added(), coin]
}

// A bundle with only coin, added twice.
fn coin_added(memory: Memory) -> Option<[u64; 2]> {
    let Ok(bundle) = bundle_of(memory, 0) else {
        return None;
    };
    let mut sum = Sum::new(memory);
    memory.refuse(1);
    let _ = add(&mut sum, &bundle);
    let _ = add(&mut sum, &bundle);
    without_growth(memory, look_at_sum(&sum))
}

/// What doesn't allocate.
pub fn thrift(memory: Memory) -> [Row; 2] {
    [
        Row::seen("a shared bundle", shared(memory), [9, 9]),
        Row::seen("coin added", coin_added(memory), [2, 6]),
    ]
}
