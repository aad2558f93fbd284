//! The part of each caller, in a thread of its own.
use crate::ledger::opening;
use crate::payment::pay_on;
use anyhow::{Result, bail};
use mp_history::{Entry, PoolName};
use mp_memory::Memory;
use mp_mempool::{Mempool, Pass, Receipt};
use mp_rules::Verifier;
use mp_tx::{Key, Sig, TxId};
use std::sync::Wait;
use std::thread::{Threads, map_vec};

/// A verifier that accepts no signature. No transaction here is signed.
#[derive(Clone, Copy)]
pub struct RefusesAll;

impl Verifier for RefusesAll {
    ghost use Rattle.mp_example.specs.Names.{nobody};

    ghost accepts = { λ _. nobody };

    fn verify(&self, _key: &Key, _id: &TxId, _sig: &Sig) -> bool {
        false
    }
}

/// A caller's pass, and its receipts.
#[derive(Drop)]
pub struct Caller<N: PoolName> {
    pub pass: Pass<N>,
    pub receipts: Vec<Receipt, Memory>,
}

// Each transaction spends an opening output that no other one spends.
fn submit_two<N: PoolName>(
    rt: &impl Wait,
    memory: Memory,
    mempool: &Mempool<N, RefusesAll>,
    mut pass: Pass<N>,
) -> Result<Caller<N>> {
    let mut receipts = Vec::new(memory);
    let first = u16::try_from(pass.caller()).unwrap_or(0).saturating_mul(2);
    for index in [first, first.saturating_add(1)] {
        let tx = pay_on(memory, opening(index))?;
        match mempool.submit(rt, &mut pass, &tx) {
            Ok(receipt) => receipts.push(receipt)?,
            Err(refusal) => bail!("{refusal}"),
        }
    }
    Ok(Caller { pass, receipts })
}

/// Each caller submits two transactions in a thread of its own.
pub fn submit_all<N: PoolName + Send + Sync, R: Threads + Wait + Sync>(
    rt: &R,
    memory: Memory,
    mempool: &Mempool<N, RefusesAll>,
    passes: Vec<Pass<N>, Memory>,
) -> Result<Vec<Caller<N>, Memory>> {
    let mut callers = Vec::new(memory);
    for caller in map_vec(rt, passes, &|pass| submit_two(rt, memory, mempool, pass))? {
        let caller = caller?;
        callers.push(caller)?;
    }
    Ok(callers)
}

// All receipts, in the order of their places.
fn receipts_of<N: PoolName>(
    memory: Memory,
    callers: &mut [Caller<N>],
) -> Result<Vec<Receipt, Memory>> {
    let mut receipts = Vec::new(memory);
    for caller in callers {
        receipts.append(&mut caller.receipts)?;
    }
    receipts.sort_by_key(|receipt| receipt.place)?;
    Ok(receipts)
}

/// The history: the entries in the receipts of all callers, in the order of their places.
pub fn history_of<N: PoolName>(
    memory: Memory,
    callers: &mut [Caller<N>],
) -> Result<Vec<Entry, Memory>> {
    let mut entries = Vec::new(memory);
    for receipt in receipts_of(memory, callers)? {
        entries.push(receipt.entry)?;
    }
    Ok(entries)
}

/// The passes of the callers, in the same order.
pub fn passes_of<N: PoolName>(
    memory: Memory,
    callers: Vec<Caller<N>, Memory>,
) -> Result<Vec<Pass<N>, Memory>> {
    let mut passes = Vec::new(memory);
    for caller in callers {
        passes.push(caller.pass)?;
    }
    Ok(passes)
}
