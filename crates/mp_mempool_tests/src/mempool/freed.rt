//! What a pool releases while it lives: transactions that have left it, once its callers have read.
ghost use Rattle.std.specs.Prelude.{◌≡◌};
ghost use Rattle.mp_history.specs.PoolName.{head_of};
ghost use Rattle.mp_testing.specs.Names.{any};

use crate::mempool::calls::Call;
use crate::mempool::heard::Heard;
use crate::mempool::pools::{LONG, Line, open_two, play_with};
use crate::mempool::tables::count_owners;
use mp_history::{NewName, PoolName};
use mp_testing::commands::{CHAINED, NOTHING, REMOVE_SECOND, SUBMITS, Samples};
use mp_testing::told::Told;
use mp_testing::{Seen, count};
use std::io;
use std::marker::Brand;
use std::sync::Wait;

// Two transactions come and go. Then there are more changes than two boards have room for.
const GONE: [Line; 4] = [
    (0, Call::Ask(1), Heard::Entered(0, Told::Accepted(1))),
    (1, Call::Ask(CHAINED), Heard::Entered(1, Told::Accepted(2))),
    (
        1,
        Call::Ask(REMOVE_SECOND),
        Heard::Entered(2, Told::Removed(1, 2)),
    ),
    (
        0,
        Call::AskOften(NOTHING, 130),
        Heard::Entered(132, Told::Removed(0, 0)),
    ),
];

const FIRST_LOOKS: [Line; 1] = [(0, Call::Snapshot, Heard::Sees(133, 0, 0))];

const SECOND_LOOKS: [Line; 1] = [(1, Call::Snapshot, Heard::Sees(133, 0, 0))];

// How many owners more the transactions have that have left: before the callers look, while the second one has not looked, and when
// both have.
fn see<N: PoolName>(rt: &impl Wait, name: NewName, samples: &Samples) -> Option<Seen>
    requires name { name ≡ head_of N.book N.root }
    requires callers { N.callers ≡ 2 }
    requires accepts { N.accepts ≡ any }
{
    let commands = samples.commands(0, SUBMITS);
    let before = count_owners(commands);
    let (mempool, reader, mut passes) = open_two::<N>(rt, name, samples, LONG, &GONE)?;
    let kept = count_owners(commands) > before;
    let first = play_with(rt, &mempool, &reader, &mut passes, samples, &FIRST_LOOKS);
    let idle = count_owners(commands) > before;
    let second = play_with(rt, &mempool, &reader, &mut passes, samples, &SECOND_LOOKS);
    let freed = count_owners(commands) == before;
    Some([
        u64::from(kept),
        u64::from(idle),
        u64::from(freed),
        u64::from(first.is_as_told() && second.is_as_told()),
        0,
        0,
    ])
}

/// How many cases hold.
pub fn held_freed(rt: &(impl Print + Wait), samples: &Samples) -> io::Result<u64> {
    let seen = see::<Brand>(rt, NewName::new(), samples);
    count(rt, "what has left is freed", seen, [1, 1, 1, 1, 0, 0])
}
