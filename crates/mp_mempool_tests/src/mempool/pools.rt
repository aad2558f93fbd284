//! Pools on which tables of calls are played.
ghost use Rattle.std.specs.Prelude.{◌≡◌};
ghost use Rattle.mp_history.specs.PoolName.{head_of};
ghost use Rattle.mp_testing.specs.Names.{any};

use crate::mempool::calls::{Call, Parts, Passes, make};
use crate::mempool::heard::Heard;
use mp_history::{NewName, PoolName};
use mp_memory::{Memory, NoMemory};
use mp_mempool::{Config, Mempool, OpenRefusal, Opened, Reader};
use mp_testing::commands::{ALL, Samples};
use mp_testing::{ACCEPTS_ALL, AcceptsAll, Seen};
use mp_tx::Ledger;
use std::marker::Brand;
use std::sync::{Arc, Wait};

/// A limit that no table reaches.
pub const LONG: u64 = 1_000_000;

/// A trial gives up on a call with this many allocations.
pub const MAX_GROWTHS: u64 = 1_000;

/// A line of a table: the number of a caller, its action, and what it should hear.
pub type Line = (usize, Call, Heard);

/// The result of a table.
#[derive(Clone, Copy)]
pub enum Played {
    /// Every caller hears what the table says.
    AsTold,
    /// The first line, from 0, whose caller hears something else, and what it hears.
    Otherwise(usize, Heard),
    /// The pool isn't opened.
    NotOpened(OpenRefusal),
    /// There is no ledger state to open on.
    NoLedger,
}

impl Played {
    /// The result as numbers.
    pub fn seen(self) -> Seen {
        match self {
            Played::AsTold => [0; 6],
            Played::Otherwise(line, heard) => {
                let [kind, first, second, third, ..] = heard.seen();
                [1, line as u64, kind, first, second, third]
            }
            Played::NotOpened(refusal) => [2, refusal.number(), 0, 0, 0, 0],
            Played::NoLedger => [3, 0, 0, 0, 0, 0],
        }
    }

    /// Whether every caller hears what the table says.
    pub fn is_as_told(self) -> bool {
        matches!(self, Played::AsTold)
    }
}

/// The result of the table on the pool.
pub fn play_on<N: PoolName>(
    rt: &impl Wait,
    parts: &Parts<'_, N>,
    passes: &mut Passes<N>,
    samples: &Samples,
    lines: &[Line],
) -> Played {
    for (number, (caller, call, wanted)) in lines.iter().enumerate() {
        let heard = make(rt, parts, passes, samples, *caller, *call);
        if heard.seen() != wanted.seen() {
            return Played::Otherwise(number, heard);
        }
    }
    Played::AsTold
}

/// A verifier that accepts each signature, for pools to share.
pub fn accepts_all(memory: Memory) -> Result<Arc<AcceptsAll, Memory>, NoMemory> {
    Ok(Arc::new(memory, ACCEPTS_ALL)?)
}

fn of_name<N: PoolName>(
    rt: &impl Wait,
    name: NewName,
    samples: &Samples,
    ledger: &Ledger,
    verifier: &Arc<AcceptsAll, Memory>,
    callers: u32,
    limit: u64,
    lines: &[Line],
) -> Played
    requires name { name ≡ head_of N.book N.root }
    requires callers { N.callers ≡ callers }
    requires accepts { N.accepts ≡ any }
{
    let config = Config { limit, last: 0 };
    let memory = samples.memory;
    match Mempool::<N, _>::open(rt, memory, name, config, ledger, verifier, callers) {
        Ok((mempool, reader, mut passes)) => {
            let parts = Parts {
                mempool: &mempool,
                reader: &reader,
            };
            play_on(rt, &parts, &mut passes, samples, lines)
        }
        Err(refusal) => Played::NotOpened(refusal),
    }
}

/// The result of the table on a new pool with this many callers and this limit.
pub fn play(rt: &impl Wait, samples: &Samples, callers: u32, limit: u64, lines: &[Line]) -> Played {
    let Some(ledger) = samples.ledger(ALL) else {
        return Played::NoLedger;
    };
    let Ok(verifier) = accepts_all(samples.memory) else {
        return Played::NotOpened(OpenRefusal::NoMemory);
    };
    let name = NewName::new();
    of_name::<Brand>(rt, name, samples, ledger, &verifier, callers, limit, lines)
}

/// What comes of the table on the pool that this reader reads.
pub fn play_with<N: PoolName>(
    rt: &impl Wait,
    mempool: &Mempool<N, AcceptsAll>,
    reader: &Reader<N, AcceptsAll>,
    passes: &mut Passes<N>,
    samples: &Samples,
    lines: &[Line],
) -> Played {
    play_on(rt, &Parts { mempool, reader }, passes, samples, lines)
}

/// A pool of two callers, on which the table was played.
pub fn open_two<N: PoolName>(
    rt: &impl Wait,
    name: NewName,
    samples: &Samples,
    limit: u64,
    lines: &[Line],
) -> Option<Opened<N, AcceptsAll>>
    requires name { name ≡ head_of N.book N.root }
    requires callers { N.callers ≡ 2 }
    requires accepts { N.accepts ≡ any }
{
    let ledger = samples.ledger(ALL)?;
    let config = Config { limit, last: 0 };
    let verifier = accepts_all(samples.memory).ok()?;
    match Mempool::<N, _>::open(rt, samples.memory, name, config, ledger, &verifier, 2) {
        Ok((mempool, reader, mut passes)) => {
            if play_with(rt, &mempool, &reader, &mut passes, samples, lines).is_as_told() {
                Some((mempool, reader, passes))
            } else {
                None
            }
        }
        Err(_) => None,
    }
}
