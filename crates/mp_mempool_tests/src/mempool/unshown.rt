//! A version for which the board has no memory: its change is made, and others see it after the next change.
use crate::mempool::calls::Call;
use crate::mempool::heard::{Heard, MANY};
use crate::mempool::pools::{LONG, Line, MAX_GROWTHS, Played, play};
use mp_testing::commands::Samples;
use mp_testing::count;
use mp_testing::told::Told;
use std::io;
use std::sync::Wait;

// What the second caller does next, and what the third sees after it.
type Next = [Line; 2];

// A submit that is refused publishes the version that waits.
const REFUSED: Next = [
    (1, Call::Ask(1), Heard::Refused(Told::AlreadyInPool(1))),
    (2, Call::Snapshot, Heard::Sees(32, 32, MANY)),
];

// A submit that is accepted publishes the version after it.
const ACCEPTED: Next = [
    (1, Call::Ask(0), Heard::Entered(32, Told::Accepted(33))),
    (2, Call::Snapshot, Heard::Sees(33, 33, MANY)),
];

// The board has room for 32 versions, one of which is the opening. It makes room for more at the 28th submit, or at the
// 32nd if that fails. These allocations of the two submits fail. Then the first caller sees its change and the third
// doesn't, until the second caller gives a command.
fn lines(early: u64, late: u64, next: Next) -> [Line; 12] {
    let [asked, seen] = next;
    [
        (
            0,
            Call::AskAll(1, 28),
            Heard::Entered(26, Told::Accepted(27)),
        ),
        (0, Call::Refuse(early), Heard::Done),
        (0, Call::Ask(28), Heard::Entered(27, Told::Accepted(28))),
        (0, Call::Met, Heard::Met(true)),
        (
            0,
            Call::AskAll(29, 32),
            Heard::Entered(30, Told::Accepted(31)),
        ),
        (0, Call::Refuse(late), Heard::Done),
        (0, Call::Ask(32), Heard::Entered(31, Told::Accepted(32))),
        (0, Call::Met, Heard::Met(true)),
        (0, Call::Snapshot, Heard::Sees(32, 32, MANY)),
        (2, Call::Snapshot, Heard::Sees(31, 31, MANY)),
        asked,
        seen,
    ]
}

fn try_growths(rt: &impl Wait, samples: &Samples, early: u64, late: u64, next: Next) -> Played {
    play(rt, samples, 3, LONG, &lines(early, late, next))
}

// Whether allocation `nth` isn't reached: of the 28th submit, or of the 32nd if `early` isn't 0.
fn is_unmet(rt: &impl Wait, samples: &Samples, early: u64, nth: u64) -> bool {
    if early == 0 {
        let played = try_growths(rt, samples, nth, 1, REFUSED);
        return matches!(played, Played::Otherwise(3, Heard::Met(false)));
    }
    let played = try_growths(rt, samples, early, nth, REFUSED);
    matches!(played, Played::Otherwise(7, Heard::Met(false)))
}

// The number of the last allocation of the 28th submit, or of the 32nd if `early` isn't 0. 0 if there is none.
fn last_growth(rt: &impl Wait, samples: &Samples, early: u64) -> u64 {
    for nth in 1..MAX_GROWTHS {
        if is_unmet(rt, samples, early, nth) {
            return nth - 1;
        }
    }
    0
}

/// The number of cases that hold: whatever comes next, the lines hold if the last allocations of both submits fail.
pub fn held_unshown(rt: &(impl Print + Wait), samples: &Samples) -> io::Result<u64> {
    let early = last_growth(rt, samples, 0);
    let late = last_growth(rt, samples, early);
    let seen = try_growths(rt, samples, early, late, REFUSED).seen();
    let refused = count(rt, "unshown before a refusal", Some(seen), [0; 6])?;
    let seen = try_growths(rt, samples, early, late, ACCEPTED).seen();
    let accepted = count(rt, "unshown before a change", Some(seen), [0; 6])?;
    Ok(refused.wrapping_add(accepted))
}
