//! Four threads share one pool. Each submits two transactions. Then a block is filled from the pool's content, and the
//! pool adopts the ledger state after that block. An audit checks the pool's history, and the pool hands over to a
//! successor. The output doesn't depend on the order of the threads.
#![tactic(auto)]

ghost use Rattle.std.specs.Prelude.{◌≡◌};
ghost use Rattle.mp_history.specs.PoolName.{head_of};
ghost use Rattle.mp_example.specs.Names.{nobody};

mod block;
mod callers;
mod ledger;
mod payment;

use anyhow::{Result, bail};
use block::fill;
use callers::{RefusesAll, history_of, passes_of, submit_all};
use ledger::{BLOCK_BYTES, ledger_after, opening_ledger};
use mp_history::{Entry, NewName, PoolName, audit};
use mp_memory::Memory;
use mp_mempool::{Config, Mempool, Pass, Reader, Receipt};
use mp_seqpool::Reply;
use mp_tx::Ledger;
use std::marker::Brand;
use std::sync::{Arc, Wait};
use std::thread::Threads;

const CALLERS: u32 = 4;

// At most 1,000 changes, and the first ticket is 1.
const CONFIG: Config = Config {
    limit: 1_000,
    last: 0,
};

// Fills a block from the newest snapshot, and the pool adopts the ledger state after it.
fn make_block<N: PoolName>(
    rt: &(impl Wait + Print),
    memory: Memory,
    mempool: &Mempool<N, RefusesAll>,
    reader: &Reader<N, RefusesAll>,
    pass: &mut Pass<N>,
) -> Result<Receipt> {
    reader.refresh(pass);
    let snapshot = pass.snapshot();
    let (count, bytes) = snapshot.size();
    println!(rt; "pool {count} transactions {bytes} bytes")?;
    let block = fill(memory, snapshot.take(BLOCK_BYTES))?;
    println!(rt;
        "block {} transactions {} bytes",
        block.txs.len(),
        block.bytes
    )?;
    adopt(rt, mempool, pass, &ledger_after(memory, &block)?)
}

fn adopt<N: PoolName>(
    rt: &(impl Wait + Print),
    mempool: &Mempool<N, RefusesAll>,
    pass: &mut Pass<N>,
    ledger: &Ledger,
) -> Result<Receipt> {
    let receipt = match mempool.sync(rt, pass, ledger) {
        Ok(receipt) => receipt,
        Err(refusal) => bail!("{refusal}"),
    };
    if let Reply::Synced { kept, dropped } = &receipt.entry.reply {
        let (kept, dropped) = (kept.as_slice().len(), dropped.as_slice().len());
        println!(rt; "kept {kept} dropped {dropped}")?;
    }
    Ok(receipt)
}

// Prints the result of the audit of the history.
fn print_audit(rt: &impl Print, memory: Memory, ledger: &Ledger, entries: &[Entry]) -> Result<()> {
    let config = mp_seqpool::Config {
        limit: CONFIG.limit,
        last: CONFIG.last,
    };
    let pool = audit(memory, config, ledger, CALLERS, entries, &RefusesAll)?;
    let (count, last) = (entries.len(), pool.last_ticket());
    println!(rt; "audit legal {count} entries last ticket {last}")?;
    Ok(())
}

// Runs the callers, and returns their passes.
fn share<N: PoolName + Send + Sync, R: Threads + Wait + Print + Sync>(
    rt: &R,
    memory: Memory,
    mempool: &Mempool<N, RefusesAll>,
    reader: &Reader<N, RefusesAll>,
    passes: Vec<Pass<N>, Memory>,
    ledger: &Ledger,
) -> Result<Vec<Pass<N>, Memory>> {
    let mut callers = submit_all(rt, memory, mempool, passes)?;
    let Some(first) = callers.first_mut() else {
        bail!("no caller");
    };
    let receipt = make_block(rt, memory, mempool, reader, &mut first.pass)?;
    first.receipts.push(receipt)?;
    let history = history_of(memory, &mut callers)?;
    print_audit(rt, memory, ledger, &history)?;
    passes_of(memory, callers)
}

// A host does this before its pool's history is full, or for another number of callers. The successor has a name of its own, and its
// callers get new passes.
fn hand_over<N: PoolName, M: PoolName>(
    rt: &(impl Wait + Print),
    memory: Memory,
    name: NewName,
    mempool: Mempool<N, RefusesAll>,
    passes: Vec<Pass<N>, Memory>,
) -> Result<()>
    requires name { name ≡ head_of M.book M.root }
    requires callers { M.callers ≡ 4 }
    requires accepts { M.accepts ≡ N.accepts }
{
    let limit = CONFIG.limit;
    match mempool.into_successor::<M>(rt, memory, name, passes, limit, CALLERS) {
        Ok((_successor, reader, mut passes)) => print_opening(rt, &reader, &mut passes),
        Err((refusal, _, _)) => bail!("{refusal}"),
    }
}

// What the first caller of a successor sees.
fn print_opening<M: PoolName>(
    rt: &impl Print,
    reader: &Reader<M, RefusesAll>,
    passes: &mut [Pass<M>],
) -> Result<()> {
    let Some(first) = passes.first_mut() else {
        bail!("no caller");
    };
    reader.refresh(first);
    let snapshot = first.snapshot();
    let (count, entries, last) = (snapshot.size().0, snapshot.number(), snapshot.last());
    println!(rt; "successor {count} transactions {entries} entries last ticket {last}")?;
    Ok(())
}

// `N` is the pool's name, a type that keeps the parts of one pool apart from those of another. Each call that opens a
// pool states three things in its proof: the new name, the number of callers, and which signatures the verifier
// accepts. `main` passes `Brand`, and `proofs/main/Invariants.antt` states these for it. `open` passes it for the
// successor.
fn open<N: PoolName + Send + Sync, R: Threads + Wait + Print + Sync>(
    rt: &R,
    memory: Memory,
    name: NewName,
    ledger: &Ledger,
) -> Result<()>
    requires name { name ≡ head_of N.book N.root }
    requires callers { N.callers ≡ 4 }
    requires accepts { N.accepts ≡ nobody }
{
    let verifier = Arc::new(memory, RefusesAll)?;
    match Mempool::<N, _>::open(rt, memory, name, CONFIG, ledger, &verifier, CALLERS) {
        Ok((mempool, reader, passes)) => {
            let passes = share(rt, memory, &mempool, &reader, passes, ledger)?;
            hand_over::<N, Brand>(rt, memory, NewName::new(), mempool, passes)
        }
        Err(refusal) => bail!("{refusal}"),
    }
}

fn main(rt: HostRuntime) -> Result<()> {
    let memory = Memory::new(rt.alloc())?;
    let ledger = opening_ledger(memory)?;
    open::<Brand, _>(&rt, memory, NewName::new(), &ledger)
}
