//! Each case is repeated for each of its allocations. If that fails, the case must end with an allocation failure.

use crate::kind::Kind;
use crate::wrong::{Result, Wrong};
use mp_memory::Memory;
use mp_testing::{Ending, Failures, fail_first};

// Cases of hundreds of parts allocate more often. The later allocations are like the first ones.
const MOST_REFUSED: u64 = 200;

fn run_case(memory: Memory, kind: Kind, given: &str, wanted: &str, nth: u64) -> Ending {
    memory.refuse(nth);
    match kind.holds(memory, given, wanted) {
        Ok(holds) => Ending::of(holds, false),
        Err(wrong) => Ending::of(false, wrong.is_no_memory()),
    }
}

/// Fails unless the case ends with an allocation failure when its first allocation fails, its second, and so on up to the 200th.
/// A case with fewer allocations must then give the expected result.
pub fn check(memory: Memory, kind: Kind, given: &str, wanted: &str) -> Result<()> {
    match fail_first(
        &memory,
        MOST_REFUSED,
        |nth| run_case(memory, kind, given, wanted, nth),
    ) {
        Some(Failures { unnoticed: 0, .. }) => Ok(()),
        _ => Err(Wrong("a refused growth isn't told")),
    }
}
