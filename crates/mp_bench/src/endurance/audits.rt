//! Audits of the history of a pool and of its successor.
ghost use Rattle.std.specs.Prelude.{IfOk};
ghost use Rattle.mp_seqpool.specs.PoolLaws.{IsLawful};
ghost use Rattle.mp_bench.specs.Signatures.{any};

use super::Endurance;
use super::chapter::{Chapter, View, are_rising};
use super::fault::EnduranceFault;
use super::pools::{LIMIT, Plan, Tale};
use crate::verifier::Spinning;
use mp_history::{Entry, audit, audit_successor};
use mp_seqpool::{Config, SeqPool};
use mp_tx::TxId;

fn has(pool: &SeqPool, held: &[(u64, TxId)]) -> bool {
    for ((ticket, item), known) in pool.contents().zip(held) {
        if (ticket, *item.tx.id()) != *known {
            return false;
        }
    }
    pool.len() == held.len()
}

// Whether the pool is as the snapshot saw it.
fn is_as_seen(pool: &SeqPool, view: &View) -> bool {
    pool.changes() == view.number && pool.last_ticket() == view.last && has(pool, &view.held)
}

// Whether the tickets of a history are strictly increasing from this one on, and it leads to what was seen last.
fn look_at(pool: &SeqPool, chapter: &Chapter, last: u64) -> Result<(), EnduranceFault> {
    if !are_rising(&chapter.entries, last) {
        return Err(EnduranceFault::OldTicket);
    }
    if !is_as_seen(pool, &chapter.closing) {
        return Err(EnduranceFault::OtherEnd);
    }
    Ok(())
}

// The pool after the history, if it is legal.
fn audit_first(
    endurance: &Endurance,
    plan: Plan,
    entries: &[Entry],
) -> Result<SeqPool, EnduranceFault>
    ensures { IfOk result (λ pool. IsLawful any pool.pool) }
{
    let config = Config {
        limit: LIMIT,
        last: plan.last,
    };
    match audit(
        endurance.memory,
        config,
        &endurance.ledger,
        endurance.callers,
        entries,
        &Spinning::new(),
    ) {
        Ok(pool) => Ok(pool),
        Err(fault) => Err(EnduranceFault::Illegal(fault)),
    }
}

// The successor after its history, which begins with the content of the pool that handed over, if it is legal.
fn audit_second(
    endurance: &Endurance,
    pool: SeqPool,
    entries: &[Entry],
) -> Result<SeqPool, EnduranceFault>
    requires { IsLawful any pool.pool }
{
    match audit_successor(pool, LIMIT, endurance.callers, entries, &Spinning::new()) {
        Ok(pool) => Ok(pool),
        Err(fault) => Err(EnduranceFault::Illegal(fault)),
    }
}

// Whether each pool opened as it should: the first one empty, and its successor with the content of the first.
fn opened_well(plan: Plan, tale: &Tale) -> bool {
    let end = &tale.before.closing;
    tale.before.opening.opens_with(plan.last, &[])
        && tale.after.opening.opens_with(end.last, &end.held)
}

/// Audits both histories, and compares where each begins and ends with what was seen there.
pub fn audit_tale(endurance: &Endurance, plan: Plan, tale: &Tale) -> Result<(), EnduranceFault> {
    if !opened_well(plan, tale) {
        return Err(EnduranceFault::OtherOpening);
    }
    let Tale { before, after } = tale;
    let pool = audit_first(endurance, plan, &before.entries)?;
    look_at(&pool, before, plan.last)?;
    let successor = audit_second(endurance, pool, &after.entries)?;
    look_at(&successor, after, before.closing.last)
}
