//! Tests runs of scenarios, conversations and races for what no contract says: allocations and devices that fail, and that races
//! end. Also that two workers run at once, and reports that were worked out by hand. It prints each case that fails, and for each
//! part how many held.
#![tactic(auto)]

mod cases;
mod clients;
mod devices;
mod histories;
mod holding;
mod long;
mod meeting;
mod picture;
mod replays;
mod reports;
mod runs;
mod serving;
mod streams;
mod talks;
mod texts;
mod ways;

use mp_memory::Memory;
use std::alloc::Global;
use std::io;
use std::sync::Wait;
use std::thread::Threads;

fn check_all<R: Print + Threads + Wait + Sync>(
    host: &HostRuntime,
    rt: &R,
    memory: Memory,
    alloc: Global,
) -> io::Result<()> {
    println!(rt; "runs {}", runs::held(rt, memory, alloc)?)?;
    println!(rt; "talks {}", talks::held(rt, memory, alloc)?)?;
    println!(rt; "reports {}", reports::held(rt, memory)?)?;
    println!(rt; "pictures {}", picture::held(rt, memory)?)?;
    println!(rt; "long {}", long::held(rt, memory)?)?;
    println!(rt; "meetings {}", meeting::held(rt, memory)?)?;
    println!(rt; "devices {}", devices::held(rt, memory, alloc)?)?;
    println!(rt; "serving {}", serving::held(rt, memory, alloc)?)?;
    println!(rt; "clients {}", clients::held(rt, memory, alloc)?)?;
    println!(rt; "histories {}", histories::held(host, rt, memory, alloc)?)?;
    println!(rt; "replays {}", replays::held(rt, memory)?)?;
    println!(rt; "texts {}", texts::held(rt, alloc)?)?;
    Ok(())
}

fn main(rt: HostRuntime) -> io::Result<()> {
    match Memory::new(rt.alloc()) {
        Ok(memory) => check_all(&rt, &rt, memory, rt.alloc()),
        Err(_) => println!(rt; "no memory"),
    }
}
