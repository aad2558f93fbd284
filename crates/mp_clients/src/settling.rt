//! What conversations know of the pool's whole history.

ghost use Rattle.std.specs.Prelude.{◌≡◌, true, false, All, Any};
ghost use Rattle.mp_history.specs.Log.{Begins, IsLegalLog};
ghost use Rattle.mp_clients.specs.Service.{HasSeenOf, KnowsAllOf, LacksOneOf};

use crate::service::Finished;
use mp_history::{Front, PoolName};
use mp_mempool::Mempool;
use mp_mempool::write::Locked;
use mp_rules::Verifier;
use mp_serve::Device;
use std::sync::Wait;

/// The history of the pool up to now.
#[derive(Drop)]
pub struct Settled<N: PoolName> {
    pub front: Front<N>,
    /// Whether each conversation knows all its entries there.
    pub is_known: bool,
}

// Whether each conversation knows all its entries in the history.
fn know_all<N: PoolName, D: Device>(locked: &mut Locked<N>, done: &[Finished<N, D>]) -> bool
    ensures same { locked.new ≡ locked.old }
    ensures seen { All (HasSeenOf locked.old.log) done.now }
    ensures known { result ≡ true → All (KnowsAllOf locked.old.log) done.now }
    ensures foreign { result ≡ false → Any (LacksOneOf locked.old.log) done.now }
{
    let mut is_known = true;
    for finished in done {
        let knows = locked.is_known_to(finished.conversation.client.pass());
        is_known = is_known && knows;
    }
    is_known
}

// The history under the lock, of which the front and what conversations have seen are prefixes.
fn settle_in<N: PoolName, D: Device>(
    locked: &mut Locked<N>,
    front: &Front<N>,
    done: &[Finished<N, D>],
) -> Settled<N>
    ensures legal { IsLegalLog N.accepts N.callers result.front }
    ensures begins { Begins front.now result.front }
    ensures seen { All (HasSeenOf result.front) done.now }
    ensures known { result.is_known ≡ true → All (KnowsAllOf result.front) done.now }
    ensures foreign { result.is_known ≡ false → Any (LacksOneOf result.front) done.now }
{
    locked.covers(front);
    let is_known = know_all(locked, done);
    let front = locked.front();
    Settled { front, is_known }
}

/// The history up to now, of which the front and what conversations have seen are prefixes. The call may wait for other callers.
pub fn settle<N: PoolName, V: Verifier, D: Device>(
    rt: &impl Wait,
    pool: &Mempool<N, V>,
    front: &Front<N>,
    done: &[Finished<N, D>],
) -> Settled<N>
    ensures legal { IsLegalLog N.accepts N.callers result.front }
    ensures begins { Begins front.now result.front }
    ensures seen { All (HasSeenOf result.front) done.now }
    ensures known { result.is_known ≡ true → All (KnowsAllOf result.front) done.now }
    ensures foreign { result.is_known ≡ false → Any (LacksOneOf result.front) done.now }
{
    let mut locked = pool.lock(rt);
    settle_in(&mut locked, front, done)
}
