//! The numbers and texts of faults.
use mp_history::AuditFault;
use mp_race::RaceFault;
use std::alloc::Global;
use std::io;

// Of runs.
const RUNS: [(mp_session::RunFault, u64, &str); 4] = [
    (mp_session::RunFault::NoMemory, 1, "fault: no memory"),
    (mp_session::RunFault::BadLine(7), 2, "fault: bad line 7"),
    (mp_session::RunFault::ReadFault, 3, "fault: read"),
    (mp_session::RunFault::WriteFault, 4, "fault: write"),
];

// Of races.
const RACES: [(RaceFault, u64, &str); 8] = [
    (RaceFault::NoMemory, 1, "fault: no memory"),
    (RaceFault::BadLine(7), 2, "fault: bad line 7"),
    (RaceFault::ReadFault, 3, "fault: read"),
    (RaceFault::WriteFault, 4, "fault: write"),
    (
        RaceFault::Audit(AuditFault::NoMemory),
        5,
        "fault: no memory",
    ),
    (
        RaceFault::Audit(AuditFault::WrongReply(3)),
        5,
        "fault: audit 3",
    ),
    (
        RaceFault::Audit(AuditFault::StrangeCaller(4)),
        5,
        "fault: audit 4",
    ),
    (RaceFault::MissingEntry(9), 6, "fault: missing entry 9"),
];

fn is_text<F: ToString>(alloc: Global, fault: &F, text: &str) -> bool {
    match fault.to_string(alloc) {
        Ok(told) => told.as_str() == text,
        Err(_) => false,
    }
}

fn count(rt: &impl Print, holds: bool, text: &str) -> io::Result<u64> {
    if holds {
        return Ok(1);
    }
    println!(rt; "a fault isn't told as '{text}'")?;
    Ok(0)
}

fn held_of_runs(rt: &impl Print, alloc: Global) -> io::Result<u64> {
    let mut held: u64 = 0;
    for (fault, number, text) in RUNS {
        let holds = fault.number() == number && is_text(alloc, &fault, text);
        held = held.saturating_add(count(rt, holds, text)?);
    }
    Ok(held)
}

fn held_of_races(rt: &impl Print, alloc: Global) -> io::Result<u64> {
    let mut held: u64 = 0;
    for (fault, number, text) in RACES {
        let holds = fault.number() == number && is_text(alloc, &fault, text);
        held = held.saturating_add(count(rt, holds, text)?);
    }
    Ok(held)
}

/// How many cases hold.
pub fn held(rt: &impl Print, alloc: Global) -> io::Result<u64> {
    let runs = held_of_runs(rt, alloc)?;
    let races = held_of_races(rt, alloc)?;
    Ok(runs.saturating_add(races))
}
