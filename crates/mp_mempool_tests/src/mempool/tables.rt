//! What callers hear, what they see of each other's changes, and what a dropped pool releases.
use crate::mempool::calls::Call;
use crate::mempool::heard::Heard;
use crate::mempool::pools::{LONG, Line, play};
use mp_seqpool::Command;
use mp_testing::commands::{ALL, CHAINED, NOTHING, PART, REMOVE_SECOND, RIVAL, SUBMITS, Samples};
use mp_testing::told::Told;
use mp_testing::{Seen, count};
use std::io;
use std::sync::{Arc, Wait};

// The pool has a limit of four changes. The second caller has seen the reason of its refusal.
const ANSWERS: [Line; 8] = [
    (0, Call::Ask(1), Heard::Entered(0, Told::Accepted(1))),
    (1, Call::Ask(RIVAL), Heard::Refused(Told::InputMissing(0))),
    (1, Call::Seen, Heard::Sees(1, 1, 1)),
    (0, Call::Ask(1), Heard::Refused(Told::AlreadyInPool(1))),
    (
        1,
        Call::Ask(REMOVE_SECOND),
        Heard::Entered(1, Told::Removed(1, 0)),
    ),
    (0, Call::Ask(0), Heard::Entered(2, Told::Accepted(2))),
    (1, Call::Ask(ALL), Heard::Entered(3, Told::Synced(2, 0))),
    (0, Call::Ask(1), Heard::Refused(Told::HistoryFull)),
];

// The first caller makes two changes. The second learns the first change from it, tries another ledger state, which
// changes nothing, and makes the third change. The third reads after each change, and learns nothing from others. The
// fourth doesn't read, so the first can't learn from it. At the end the fourth reads and the first learns, while the
// next allocation would fail: neither makes one.
const SIGHT: [Line; 19] = [
    (0, Call::Ask(1), Heard::Entered(0, Told::Accepted(1))),
    (0, Call::Snapshot, Heard::Sees(1, 1, 1)),
    (1, Call::Learn(0), Heard::Done),
    (1, Call::Seen, Heard::Sees(1, 1, 1)),
    (2, Call::Snapshot, Heard::Sees(1, 1, 1)),
    (0, Call::Ask(0), Heard::Entered(1, Told::Accepted(2))),
    (2, Call::Snapshot, Heard::Sees(2, 2, 12)),
    (1, Call::Seen, Heard::Sees(1, 1, 1)),
    (1, Call::SnapshotFor(PART), Heard::Kept(2, 2, 181)),
    (1, Call::Snapshot, Heard::Sees(2, 2, 12)),
    (1, Call::Ask(2), Heard::Entered(2, Told::Accepted(3))),
    (2, Call::Snapshot, Heard::Sees(3, 3, 123)),
    (0, Call::Learn(3), Heard::Done),
    (0, Call::Seen, Heard::Sees(2, 2, 12)),
    (0, Call::Refuse(1), Heard::Done),
    (3, Call::Snapshot, Heard::Sees(3, 3, 123)),
    (0, Call::Learn(3), Heard::Done),
    (0, Call::Seen, Heard::Sees(3, 3, 123)),
    (0, Call::Met, Heard::Met(false)),
];

// Two transactions go, one of them because it depends on the other, and one stays.
const DROPPED: [Line; 6] = [
    (0, Call::Ask(1), Heard::Entered(0, Told::Accepted(1))),
    (1, Call::Ask(CHAINED), Heard::Entered(1, Told::Accepted(2))),
    (0, Call::Ask(0), Heard::Entered(2, Told::Accepted(3))),
    (
        1,
        Call::Ask(REMOVE_SECOND),
        Heard::Entered(3, Told::Removed(1, 2)),
    ),
    (2, Call::Snapshot, Heard::Sees(4, 1, 3)),
    (0, Call::Ask(PART), Heard::Entered(4, Told::Synced(3, 0))),
];

// A remove of nothing is a change like any other, even in an empty pool.
const NOTHING_REMOVED: [Line; 5] = [
    (
        0,
        Call::Ask(NOTHING),
        Heard::Entered(0, Told::Removed(0, 0)),
    ),
    (
        1,
        Call::Ask(NOTHING),
        Heard::Entered(1, Told::Removed(0, 0)),
    ),
    (0, Call::Ask(1), Heard::Entered(2, Told::Accepted(1))),
    (
        1,
        Call::Ask(NOTHING),
        Heard::Entered(3, Told::Removed(0, 0)),
    ),
    (1, Call::Seen, Heard::Sees(4, 1, 1)),
];

/// The total number of owners of the submitted transactions.
pub fn count_owners(commands: &[Command]) -> u64 {
    let mut owners: usize = 0;
    for command in commands {
        if let Command::Submit(tx) = command {
            owners = owners.saturating_add(Arc::strong_count(tx));
        }
    }
    owners as u64
}

// The number of owners of the transactions before the pool is opened and after it is dropped, and whether the table
// holds.
fn see_dropped(rt: &impl Wait, samples: &Samples) -> Seen {
    let commands = samples.commands(0, SUBMITS);
    let before = count_owners(commands);
    let played = play(rt, samples, 3, LONG, &DROPPED);
    [
        before,
        count_owners(commands),
        u64::from(played.is_as_told()),
        0,
        0,
        0,
    ]
}

/// The number of cases that hold.
pub fn held_tables(rt: &(impl Print + Wait), samples: &Samples) -> io::Result<u64> {
    let played = play(rt, samples, 2, 4, &ANSWERS).seen();
    let answers = count(rt, "places and refusals", Some(played), [0; 6])?;
    let played = play(rt, samples, 4, LONG, &SIGHT).seen();
    let sight = count(rt, "a change is seen by all", Some(played), [0; 6])?;
    let played = play(rt, samples, 2, LONG, &NOTHING_REMOVED).seen();
    let nothing = count(rt, "a remove of nothing", Some(played), [0; 6])?;
    let owned = SUBMITS as u64;
    let seen = see_dropped(rt, samples);
    let dropped = count(rt, "a dropped pool", Some(seen), [owned, owned, 1, 0, 0, 0])?;
    Ok(
        answers
            .wrapping_add(sight)
            .wrapping_add(nothing)
            .wrapping_add(dropped),
    )
}
