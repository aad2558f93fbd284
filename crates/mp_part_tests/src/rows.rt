//! Cases as rows: what was found, and what was expected.
use mp_memory::Memory;
use mp_testing::{Seen, TrialFault, Trialled};
use std::io;

/// The result of a case.
type Outcome = Result<Trialled, TrialFault>;

/// A case that was tried.
#[derive(Clone, Copy)]
pub struct Row {
    name: &'static str,
    found: Outcome,
    wanted: Outcome,
}

// The numbers, then zeros.
fn padded<const N: usize>(numbers: [u64; N]) -> Seen {
    let mut seen = [0; 6];
    for (place, number) in seen.iter_mut().zip(&numbers) {
        *place = *number;
    }
    seen
}

impl Row {
    /// A row of what was seen, if the case could be made, and of what was expected: at most six numbers.
    pub fn seen<const N: usize>(
        name: &'static str,
        seen: Option<[u64; N]>,
        wanted: [u64; N],
    ) -> Row {
        let found = match seen {
            Some(seen) => Ok(Trialled {
                answer: padded(seen),
                growths: 0,
            }),
            None => Err(TrialFault::NotMade),
        };
        Row::tried(name, found, wanted, 0)
    }

    /// A row of the result of a trial, and of the expected first numbers of the answer and number of allocations.
    pub fn tried<const N: usize>(
        name: &'static str,
        found: Outcome,
        answer: [u64; N],
        growths: u64,
    ) -> Row {
        let answer = padded(answer);
        Row {
            name,
            found,
            wanted: Ok(Trialled { answer, growths }),
        }
    }

    /// A row of the result of a trial, and of the expected fault.
    pub fn faulty(name: &'static str, found: Outcome, fault: TrialFault) -> Row {
        Row {
            name,
            found,
            wanted: Err(fault),
        }
    }
}

// Returns 1 if the row holds. Otherwise it prints the row and returns 0.
fn count(rt: &impl Print, row: &Row) -> io::Result<u64> {
    let Row {
        name,
        found,
        wanted,
    } = row;
    if found == wanted {
        return Ok(1);
    }
    println!(rt; "{name}: found {found:?}, wanted {wanted:?}")?;
    Ok(0)
}

/// Prints the rows that don't hold, and then how many do.
pub fn tell(rt: &impl Print, what: &str, rows: &[Row]) -> io::Result<()> {
    let mut held = 0u64;
    for row in rows {
        held = held.wrapping_add(count(rt, row)?);
    }
    println!(rt; "{what} {held}")
}

/// What was seen, unless an allocation failed in the meantime. Afterwards no failure is armed.
pub fn without_growth<const N: usize>(memory: Memory, seen: [u64; N]) -> Option<[u64; N]> {
    let waits = memory.waits();
    memory.refuse(0);
    if waits { Some(seen) } else { None }
}
