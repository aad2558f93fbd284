//! Each call with each allocation failing: it changes nothing if an allocation fails, and the same call is then
//! answered.
use crate::mempool::calls::Call;
use crate::mempool::heard::{Heard, NO_MEMORY};
use crate::mempool::pools::{LONG, Line, Played, play};
use mp_testing::commands::{
    ALL, CHAINED, EVEN, MERGED, PART, REMOVE_SECOND, RIVAL, SIGNED, Samples,
};
use mp_testing::told::Told;
use mp_testing::{Ending, Seen, count, fail_each};
use std::io;
use std::sync::Wait;

// Both transactions that are in the pool before the call.
const BOTH: Heard = Heard::Sees(2, 2, 12);

// A call on a pool with two transactions, its answer, and the answer to a submit of sample 0 after it. The first signed
// sample has the same id as sample 0.
type Case = (Call, Heard, Heard);

const SUBMIT: Call = Call::Ask(0);

const NEXT: Heard = Heard::Entered(3, Told::Accepted(3));

// Each case, and whether the call is answered although some allocations fail. Only a submit of a signed transaction is:
// the check before the lock may run out of memory.
static ROWS: [(&str, Case, bool); 5] = [
    (
        "a submit at refused growths",
        (
            SUBMIT,
            Heard::Entered(2, Told::Accepted(3)),
            Heard::Refused(Told::AlreadyInPool(3)),
        ),
        false,
    ),
    (
        "a signed submit at refused growths",
        (
            Call::Ask(SIGNED),
            Heard::Entered(2, Told::Accepted(3)),
            Heard::Refused(Told::AlreadyInPool(3)),
        ),
        true,
    ),
    (
        "a remove at refused growths",
        (
            Call::Ask(REMOVE_SECOND),
            Heard::Entered(2, Told::Removed(1, 2)),
            NEXT,
        ),
        false,
    ),
    (
        "a sync at refused growths",
        (
            Call::Ask(PART),
            Heard::Entered(2, Told::Synced(0, 12)),
            NEXT,
        ),
        false,
    ),
    (
        "a snapshot for a state at refused growths",
        (
            Call::SnapshotFor(ALL),
            Heard::Kept(2, 12, 362),
            Heard::Entered(2, Told::Accepted(3)),
        ),
        false,
    ),
];

// The call is answered although that allocation fails, or because there is no such allocation.
fn answered(rt: &impl Wait, samples: &Samples, case: Case, nth: u64) -> Played {
    let (call, wanted, _) = case;
    let lines: [Line; 4] = [
        (0, Call::Ask(1), Heard::Entered(0, Told::Accepted(1))),
        (0, Call::Ask(CHAINED), Heard::Entered(1, Told::Accepted(2))),
        (0, Call::Refuse(nth), Heard::Done),
        (0, call, wanted),
    ];
    play(rt, samples, 2, LONG, &lines)
}

// The call is refused, both callers see what was there before it, and then it is answered, and so is the next change.
fn refused(rt: &impl Wait, samples: &Samples, case: Case, nth: u64) -> Played {
    let (call, wanted, next) = case;
    let lines: [Line; 10] = [
        (0, Call::Ask(1), Heard::Entered(0, Told::Accepted(1))),
        (0, Call::Ask(CHAINED), Heard::Entered(1, Told::Accepted(2))),
        (0, Call::Refuse(nth), Heard::Done),
        (0, call, NO_MEMORY),
        (0, Call::Met, Heard::Met(true)),
        (0, Call::Seen, BOTH),
        (0, Call::Last, Heard::Last(1)),
        (1, Call::Snapshot, BOTH),
        (0, call, wanted),
        (0, SUBMIT, next),
    ];
    play(rt, samples, 2, LONG, &lines)
}

fn try_growth(rt: &impl Wait, samples: &Samples, case: Case, nth: u64) -> Ending {
    if answered(rt, samples, case, nth).is_as_told() {
        return Ending::Usual;
    }
    Ending::of(false, refused(rt, samples, case, nth).is_as_told())
}

// How many calls are refused, up to the expected five, and whether some are answered although an allocation fails. Returns
// `None` if a trial goes wrong.
fn try_all(rt: &impl Wait, samples: &Samples, case: Case) -> Option<Seen> {
    let failures = fail_each(&samples.memory, |nth| try_growth(rt, samples, case, nth))?;
    let refused = failures.all.saturating_sub(failures.unnoticed);
    Some([refused.min(5), failures.unnoticed.min(1), 0, 0, 0, 0])
}

// A submit that spends both outputs of another, which is in the pool.
fn spend_both(rt: &impl Wait, samples: &Samples, parent: usize, child: usize, nth: u64) -> Ending {
    let lines: [Line; 3] = [
        (0, Call::Ask(parent), Heard::Entered(0, Told::Accepted(1))),
        (0, Call::Refuse(nth), Heard::Done),
        (0, Call::Ask(child), Heard::Entered(1, Told::Accepted(2))),
    ];
    match play(rt, samples, 1, LONG, &lines) {
        Played::AsTold => Ending::Usual,
        Played::Otherwise(2, _) => Ending::NoMemory,
        _ => Ending::Wrong,
    }
}

// The number of its allocations. 0 if it goes wrong.
fn growths_of(rt: &impl Wait, samples: &Samples, parent: usize, child: usize) -> u64 {
    match fail_each(
        &samples.memory,
        |nth| spend_both(rt, samples, parent, child, nth),
    ) {
        Some(failures) => failures.all,
        None => 0,
    }
}

// The check before the lock finds each named output, in order, so scripts don't run again under the lock. It makes no
// difference whether the two outputs differ.
fn see_scripts(rt: &impl Wait, samples: &Samples) -> Seen {
    let differing = growths_of(rt, samples, RIVAL, MERGED);
    let even = growths_of(rt, samples, EVEN, EVEN + 1);
    [
        differing.wrapping_sub(even),
        u64::from(differing > 0),
        0,
        0,
        0,
        0,
    ]
}

/// The number of cases that hold.
pub fn held_growths(rt: &(impl Print + Wait), samples: &Samples) -> io::Result<u64> {
    let mut held = 0u64;
    for (name, case, is_answered) in &ROWS {
        let seen = try_all(rt, samples, *case);
        let wanted = [5, u64::from(*is_answered), 0, 0, 0, 0];
        held = held.wrapping_add(count(rt, name, seen, wanted)?);
    }
    let scripts = see_scripts(rt, samples);
    held = held.wrapping_add(count(
        rt,
        "scripts that run once",
        Some(scripts),
        [0, 1, 0, 0, 0, 0],
    )?);
    Ok(held)
}
