//! Reading a pool for peers and for blocks. The cases are offers while transactions come and go, and limits that let
//! nothing through. They also count the transactions' owners while an offer or a block exists, and let each allocation
//! fail.
ghost use Rattle.std.specs.Prelude.{◌≡◌};
ghost use Rattle.mp_history.specs.PoolName.{head_of};
ghost use Rattle.mp_testing.specs.Names.{any};

mod asks;
pub mod costs;
mod growths;
mod rows;
mod seen;

use crate::peers::asks::make;
use crate::peers::rows::ROWS;
use mp_history::{NewName, PoolName};
use mp_memory::Memory;
use mp_mempool::{Config, Mempool, Pass, Reader};
use mp_testing::commands::{ALL, Samples};
use mp_testing::{ACCEPTS_ALL, AcceptsAll, count};
use mp_tx::Ledger;
use mp_versions::PeerReader;
use std::io;
use std::marker::Brand;
use std::sync::{Arc, Wait};

const CONFIG: Config = Config {
    limit: 1_000,
    last: 0,
};

// Makes the call of each row in turn, and counts the rows that hold.
fn play<N: PoolName>(
    rt: &(impl Wait + Print),
    mempool: &Mempool<N, AcceptsAll>,
    reader: &Reader<N, AcceptsAll>,
    passes: &mut [Pass<N>],
    samples: &Samples,
) -> io::Result<u64> {
    let Some(pass) = passes.first_mut() else {
        return Ok(0);
    };
    let mut peer = PeerReader::new();
    let mut held = 0u64;
    for (name, ask, wanted) in &ROWS {
        let found = make(rt, mempool, reader, pass, &mut peer, samples, *ask);
        held = held.wrapping_add(count(rt, name, found, *wanted)?);
    }
    Ok(held)
}

// The number of rows that hold on a new pool with one caller.
fn of_name<N: PoolName>(
    rt: &(impl Wait + Print),
    name: NewName,
    samples: &Samples,
    ledger: &Ledger,
    verifier: &Arc<AcceptsAll, Memory>,
) -> io::Result<u64>
    requires name { name ≡ head_of N.book N.root }
    requires callers { N.callers ≡ 1 }
    requires accepts { N.accepts ≡ any }
{
    let memory = samples.memory;
    match Mempool::<N, _>::open(rt, memory, name, CONFIG, ledger, verifier, 1) {
        Ok((mempool, reader, mut passes)) => play(rt, &mempool, &reader, &mut passes, samples),
        Err(_) => Ok(0),
    }
}

/// The number of cases that hold.
pub fn held(rt: &(impl Wait + Print), samples: &Samples) -> io::Result<u64> {
    let Some(ledger) = samples.ledger(ALL) else {
        return Ok(0);
    };
    let Ok(verifier) = Arc::new(samples.memory, ACCEPTS_ALL) else {
        return Ok(0);
    };
    of_name::<Brand>(rt, NewName::new(), samples, ledger, &verifier)
}
