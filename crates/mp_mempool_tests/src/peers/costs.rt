//! The cost of an offer: about the same in a large pool as in a small one.
ghost use Rattle.std.specs.Prelude.{◌≡◌};
ghost use Rattle.mp_history.specs.PoolName.{head_of};
ghost use Rattle.mp_testing.specs.Names.{any};

use mp_history::{NewName, PoolName};
use mp_memory::Memory;
use mp_mempool::{Config, Mempool, Pass};
use mp_testing::{ACCEPTS_ALL, AcceptsAll, ledger, opening, transaction};
use mp_tx::Ledger;
use mp_versions::{PeerReader, Snapshot};
use std::marker::Brand;
use std::rt::Clock;
use std::sync::{Arc, Wait};
use std::time::Instant;

const CONFIG: Config = Config {
    limit: 1 << 32,
    last: 0,
};

// How many transactions are in the pool.
const FEW: u16 = 200;

const MANY: u16 = 20_000;

const BLOCK_BYTES: u64 = 10_000_000;

// How many offers are made each time. The shortest of several times counts.
const OFFERS: u64 = 200;

const TIMES: u64 = 9;

// An offer may seem this many times as expensive as it is, since the machine does other things too.
const LEEWAY: u128 = 12;

// Submits transactions that spend these openings.
fn fill<N: PoolName>(
    rt: &impl Wait,
    memory: Memory,
    mempool: &Mempool<N, AcceptsAll>,
    pass: &mut Pass<N>,
    from: u16,
    to: u16,
) -> Option<()> {
    for index in from..to {
        let tx = transaction(memory, &[opening(index)], &[100]).ok()?;
        mempool.submit(rt, pass, &tx).ok()?;
    }
    Some(())
}

// How long it takes to offer the transaction after this ticket, or `None` if an offer is another one.
fn time<N: PoolName>(
    clock: &impl Clock,
    memory: Memory,
    snapshot: &Snapshot<'_, N>,
    after: u64,
) -> Option<u128> {
    let start = Instant::now(clock).ok()?;
    let mut offered: u64 = 0;
    for _ in 0..OFFERS {
        let mut peer = PeerReader::after(after);
        let items = peer.offer(memory, snapshot, 1, u64::MAX).ok()?;
        if items.as_slice().len() == 1 && peer.cursor() == after.wrapping_add(1) {
            offered = offered.wrapping_add(1);
        }
    }
    let time = start.elapsed(clock).ok()?;
    if offered == OFFERS {
        Some(time.as_nanos())
    } else {
        None
    }
}

fn least<N: PoolName>(
    clock: &impl Clock,
    memory: Memory,
    snapshot: &Snapshot<'_, N>,
    after: u64,
) -> Option<u128> {
    let mut least = u128::MAX;
    for _ in 0..TIMES {
        least = least.min(time(clock, memory, snapshot, after)?);
    }
    Some(least)
}

// The times for the first transaction, one in the middle, and the last one.
fn times<N: PoolName>(
    clock: &impl Clock,
    memory: Memory,
    snapshot: &Snapshot<'_, N>,
) -> Option<[u128; 3]> {
    let last = snapshot.last();
    Some([
        least(clock, memory, snapshot, 0)?,
        least(clock, memory, snapshot, last / 2)?,
        least(clock, memory, snapshot, last.checked_sub(1)?)?,
    ])
}

// How many of the three offers take at most `LEEWAY` times as long in the large pool.
fn alike<N: PoolName>(
    rt: &(impl Wait + Clock),
    memory: Memory,
    mempool: &Mempool<N, AcceptsAll>,
    pass: &mut Pass<N>,
) -> Option<u64> {
    fill(rt, memory, mempool, pass, 0, FEW)?;
    let few = times(rt, memory, &pass.snapshot())?;
    fill(rt, memory, mempool, pass, FEW, MANY)?;
    let many = times(rt, memory, &pass.snapshot())?;
    let mut alike: u64 = 0;
    for (few, many) in few.iter().zip(&many) {
        if *many <= few.saturating_mul(LEEWAY) {
            alike = alike.wrapping_add(1);
        }
    }
    Some(alike)
}

fn of_name<N: PoolName>(
    rt: &(impl Wait + Clock),
    name: NewName,
    memory: Memory,
    ledger: &Ledger,
    verifier: &Arc<AcceptsAll, Memory>,
) -> Option<u64>
    requires name { name ≡ head_of N.book N.root }
    requires callers { N.callers ≡ 1 }
    requires accepts { N.accepts ≡ any }
{
    match Mempool::<N, _>::open(rt, memory, name, CONFIG, ledger, verifier, 1) {
        Ok((mempool, _, mut passes)) => alike(rt, memory, &mempool, passes.first_mut()?),
        Err(_) => None,
    }
}

/// How many offers cost about the same in a pool of 20,000 as in one of 200, or `None` if a call fails.
pub fn alike_offers(rt: &(impl Wait + Clock), memory: Memory) -> Option<u64> {
    let ledger = ledger(memory, MANY, BLOCK_BYTES).ok()?;
    let verifier = Arc::new(memory, ACCEPTS_ALL).ok()?;
    of_name::<Brand>(rt, NewName::new(), memory, &ledger, &verifier)
}
