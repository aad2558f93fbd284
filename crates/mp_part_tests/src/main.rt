//! Tests the parts of the product for what no contract says: allocations that fail, devices that fail, threads and drops, and
//! cases of the rules from files. It prints each case that fails, and for each part and file how many held.
#![tactic(auto)]

mod bundle;
mod costs;
mod drops;
mod handle;
mod ledger;
mod lines;
mod name_costs;
mod names;
mod output;
mod rows;
mod rules;
mod salts;
mod script;
mod text;
mod threads;
mod tickets;
mod tx;
mod utxo;
mod vectors;
mod ways;

use anyhow::Result;
use mp_memory::Memory;
use rows::tell;
use std::alloc::Global;
use std::io;
use std::rt::Clock;
use std::thread::Threads;
use vectors::{Kind, check_file};

fn try_memory(rt: &(impl Print + Threads), memory: Memory, other: Memory) -> io::Result<()> {
    tell(rt, "armings", &handle::armings(memory))?;
    tell(rt, "pushes", &handle::pushes(memory))?;
    tell(rt, "handles", &handle::others(memory, other))?;
    tell(rt, "trials", &ways::growths(memory))?;
    tell(rt, "faults of trials", &ways::faults(memory))?;
    tell(rt, "handles of threads", &threads::handles(rt, memory))
}

fn try_tickets(
    rt: &(impl Print + Threads + Clock),
    alloc: Global,
    memory: Memory,
    other: Memory,
) -> io::Result<()> {
    tell(rt, "tickets", &tickets::thrift(memory))?;
    tell(rt, "rooms of tickets", &tickets::rooms(memory))?;
    tell(rt, "costs of tickets", &costs::searches(rt, memory))?;
    tell(rt, "drops", &drops::drops(alloc, memory, other))?;
    tell(rt, "tickets of threads", &threads::lists(rt, memory))
}

fn try_transactions(rt: &impl Print, memory: Memory) -> io::Result<()> {
    tell(rt, "bundles", &bundle::thrift(memory))?;
    tell(rt, "data and scripts", &script::decodings(memory))?;
    tell(rt, "shares of both", &script::shares(memory))?;
    tell(rt, "bytes cut off", &tx::cut_off(memory))?;
    tell(rt, "rooms", &tx::rooms(memory))?;
    tell(rt, "ledger states", &salts::ledgers(memory))?;
    tell(rt, "blocks", &ledger::blocks(memory))?;
    tell(rt, "overlays", &utxo::thrift(memory))?;
    tell(rt, "signatures", &rules::countings(memory))
}

fn try_text(rt: &(impl Print + Clock), alloc: Global, memory: Memory) -> io::Result<()> {
    tell(rt, "inputs", &text::inputs(memory))?;
    tell(rt, "lengths of inputs", &text::lengths(memory))?;
    tell(rt, "limits of inputs", &text::limits(memory))?;
    tell(rt, "lengths of lines", &lines::lengths(memory, alloc))?;
    tell(rt, "limits of lines", &lines::limits(memory, alloc))?;
    tell(rt, "outputs", &output::outputs(alloc))?;
    tell(rt, "lengths of outputs", &output::lengths(alloc))?;
    tell(rt, "names", &names::stories(memory))?;
    tell(rt, "growths of names", &names::growths(memory))?;
    tell(rt, "many names", &names::many(memory))?;
    tell(rt, "costs of names", &name_costs::steps(rt, memory))
}

fn main(rt: HostRuntime) -> Result<()> {
    let alloc = rt.alloc();
    let memory = Memory::new(alloc)?;
    let other = Memory::new(alloc)?;
    try_memory(&rt, memory, other)?;
    try_tickets(&rt, alloc, memory, other)?;
    try_transactions(&rt, memory)?;
    try_text(&rt, alloc, memory)?;
    for kind in Kind::ALL {
        check_file(&rt, memory, kind)?;
    }
    Ok(())
}
