//! The results of audits.
ghost use Rattle.std.specs.Prelude.{◌≤◌, ◌^◌};
ghost use Rattle.mp_seqpool.specs.PoolLaws.{IsLawful};
ghost use Rattle.mp_testing.specs.Names.{any};

use crate::commands::Samples;
use crate::told::{Told, read_fault};
use crate::verifier::ACCEPTS_ALL;
use mp_history::{AuditFault, Entry, audit, audit_successor};
use mp_seqpool::{Config, SeqPool};
use mp_tx::Ledger;

fn tell_ended(ended: Result<SeqPool, AuditFault>) -> Told {
    match ended {
        Ok(pool) => Told::Legal(pool.len(), pool.last_ticket()),
        Err(fault) => read_fault(fault),
    }
}

fn tell_upon(
    samples: &Samples,
    ledger: &Ledger,
    config: Config,
    callers: u32,
    entries: &[Entry],
) -> Told {
    tell_ended(audit(
        samples.memory,
        config,
        ledger,
        callers,
        entries,
        &ACCEPTS_ALL,
    ))
}

/// The result of an audit of the entries, on the ledger state of the sample.
pub fn tell(
    samples: &Samples,
    ledger: usize,
    config: Config,
    callers: u32,
    entries: &[Entry],
) -> Told {
    match samples.ledger(ledger) {
        Some(ledger) => tell_upon(samples, ledger, config, callers, entries),
        None => Told::Otherwise,
    }
}

// The result of an audit of a history that begins with the pool's content.
fn tell_later(pool: SeqPool, limit: u64, callers: u32, entries: &[Entry]) -> Told
    requires least { 1 ≤ limit }
    requires greatest { limit ≤ 2 ^ 32 }
    requires lawful { IsLawful any pool.pool }
{
    tell_ended(audit_successor(pool, limit, callers, entries, &ACCEPTS_ALL))
}

/// The result of an audit of the first entries, or of the others if the first are legal: these are the history of a successor
/// with this limit.
pub fn tell_handover(
    samples: &Samples,
    ledger: &Ledger,
    config: Config,
    callers: u32,
    entries: [&[Entry]; 2],
    limit: u64,
) -> Told
    requires least { 1 ≤ limit }
    requires greatest { limit ≤ 2 ^ 32 }
{
    let [first, later] = entries;
    match audit(samples.memory, config, ledger, callers, first, &ACCEPTS_ALL) {
        Ok(pool) => tell_later(pool, limit, callers, later),
        Err(fault) => read_fault(fault),
    }
}
