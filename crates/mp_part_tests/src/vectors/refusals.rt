//! Each case is repeated for each of its allocations. If that fails, the case must end with an allocation failure.

use crate::vectors::kind::Kind;
use crate::vectors::names::Names;
use crate::vectors::wrong::{Result, Wrong};
use mp_testing::{Ending, Failures, fail_first};

// Cases of hundreds of parts allocate more often. The later allocations are like the first ones.
const MOST_REFUSED: u64 = 200;

fn run_case(kind: Kind, names: &Names, given: &str, wanted: &str, nth: u64) -> Ending {
    names.memory().refuse(nth);
    match kind.check_case(names, given, wanted) {
        Ok(()) => Ending::Usual,
        Err(Wrong::NoMemory) => Ending::NoMemory,
        Err(_) => Ending::Wrong,
    }
}

/// Fails unless the case ends with an allocation failure when its first allocation fails, its second, and so on up to the 200th.
/// A case with fewer allocations must then give the expected result.
pub fn check(kind: Kind, names: &Names, given: &str, wanted: &str) -> Result<()> {
    let memory = names.memory();
    match fail_first(
        &memory,
        MOST_REFUSED,
        |nth| run_case(kind, names, given, wanted, nth),
    ) {
        Some(Failures { unnoticed: 0, .. }) => Ok(()),
        _ => Err(Wrong::Because("a refused growth isn't told")),
    }
}
