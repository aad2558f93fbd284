//! Runs whose allocations fail in turn. Unlike a trial of a call, a run may end as usual although an allocation failed.
use crate::trial::{MAX_GROWTHS, Refusals};

/// How a run ends.
#[derive(Clone, Copy, Debug, PartialEq, Eq)]
pub enum Ending {
    /// As it does if no allocation fails.
    Usual,
    /// With the report of an allocation failure.
    NoMemory,
    /// In another way.
    Wrong,
}

impl Ending {
    /// `Usual` if the first is true, else `NoMemory` if the second is, else `Wrong`.
    pub fn of(is_usual: bool, is_no_memory: bool) -> Ending {
        if is_usual {
            Ending::Usual
        } else if is_no_memory {
            Ending::NoMemory
        } else {
            Ending::Wrong
        }
    }
}

/// The allocations that failed, each in a run of its own.
#[derive(Clone, Copy, Debug, PartialEq, Eq)]
pub struct Failures {
    /// How many there are.
    pub all: u64,
    /// In how many of the runs the failure made no difference.
    pub unnoticed: u64,
}

/// Runs it once for each of its first `most` allocations, which then fails. `run` gets the number of the allocation, arms the
/// refusal and says how the run ended. No refusal is armed afterwards.
///
/// Returns `None` if a run ends in a wrong way, or reports an allocation failure although none happened.
pub fn fail_first<R: Refusals, F: FnMut(u64) -> Ending>(
    memory: &R,
    most: u64,
    mut run: F,
) -> Option<Failures>
    requires { F.IsAlwaysCallable run }
{
    let mut unnoticed: u64 = 0;
    for all in 0..most {
        let ending = run(all + 1);
        let is_met = !memory.waits();
        memory.refuse(0);
        match ending {
            Ending::Usual if is_met => unnoticed = unnoticed.saturating_add(1),
            Ending::Usual => return Some(Failures { all, unnoticed }),
            Ending::NoMemory if is_met => {}
            _ => return None,
        }
    }
    Some(Failures {
        all: most,
        unnoticed,
    })
}

/// `fail_first` for all allocations. It also returns `None` if there are `MAX_GROWTHS` or more.
pub fn fail_each<R: Refusals, F: FnMut(u64) -> Ending>(memory: &R, run: F) -> Option<Failures>
    requires { F.IsAlwaysCallable run }
{
    let failures = fail_first(memory, MAX_GROWTHS, run)?;
    if failures.all < MAX_GROWTHS {
        Some(failures)
    } else {
        None
    }
}
