//! A pool that hands over to a successor, or fails to and is then as before.
ghost use Rattle.std.specs.Prelude.{◌≡◌};
ghost use Rattle.mp_history.specs.PoolName.{head_of};
ghost use Rattle.mp_testing.specs.Names.{any};

use crate::mempool::calls::{Call, Passes};
use crate::mempool::heard::Heard;
use crate::mempool::pools::{LONG, Line, MAX_GROWTHS, Played, open_two, play_with};
use crate::mempool::tables::count_owners;
use mp_history::{NewName, PoolName};
use mp_memory::Memory;
use mp_mempool::{Opened, Pass, SuccessorRefusal};
use mp_testing::commands::{CHAINED, REMOVE_SECOND, SUBMITS, Samples};
use mp_testing::told::Told;
use mp_testing::{AcceptsAll, Seen, count};
use mp_versions::Shown;
use std::io;
use std::marker::Brand;
use std::sync::Wait;

// Which passes the handover gets, and in what order.
#[derive(Clone, Copy)]
enum Order {
    Whole,
    Turned,
    WithoutLast,
    None,
}

// A handover: the passes, the limit, the number of callers, and the allocation that fails, if one does.
#[derive(Clone, Copy)]
struct Case {
    order: Order,
    limit: u64,
    heirs: u32,
    refused: u64,
}

const GOOD: Case = Case {
    order: Order::Whole,
    limit: 2,
    heirs: 1,
    refused: 0,
};

// The pool has two callers, and a limit of two changes.
const BEFORE: [Line; 3] = [
    (0, Call::Ask(1), Heard::Entered(0, Told::Accepted(1))),
    (1, Call::Ask(CHAINED), Heard::Entered(1, Told::Accepted(2))),
    (0, Call::Ask(0), Heard::Refused(Told::HistoryFull)),
];

// If the pool hasn't handed over, it is as before.
const AS_BEFORE: [Line; 4] = [
    (0, Call::Last, Heard::Last(0)),
    (1, Call::Last, Heard::Last(1)),
    (1, Call::Snapshot, Heard::Sees(2, 2, 12)),
    (1, Call::Ask(0), Heard::Refused(Told::HistoryFull)),
];

// The successor has the pool's content. It continues with the next ticket, and with the place 0.
const AFTER: [Line; 6] = [
    (0, Call::Passes, Heard::Fresh(1)),
    (0, Call::Snapshot, Heard::Sees(0, 2, 12)),
    (0, Call::Ask(1), Heard::Refused(Told::AlreadyInPool(1))),
    (0, Call::Ask(0), Heard::Entered(0, Told::Accepted(3))),
    (
        0,
        Call::Ask(REMOVE_SECOND),
        Heard::Entered(1, Told::Removed(1, 2)),
    ),
    (0, Call::Ask(2), Heard::Refused(Told::HistoryFull)),
];

// Takes out the passes that the handover doesn't get.
fn arrange<N: PoolName>(memory: Memory, passes: &mut Passes<N>, order: Order) -> Passes<N> {
    let mut kept = Vec::new(memory);
    match order {
        Order::Whole => {}
        Order::Turned => passes.reverse(),
        Order::WithoutLast => {
            if let Some(last) = passes.pop() {
                let _full = kept.push(last);
            }
        }
        Order::None => {
            let _full = kept.append(passes);
        }
    }
    kept
}

fn arrange_back<N: PoolName>(passes: &mut Passes<N>, kept: &mut Passes<N>, order: Order) {
    if let Order::Turned = order {
        passes.reverse();
    }
    let _full = passes.append(kept);
}

fn place_of<N: PoolName>(refusal: &SuccessorRefusal<N>) -> u64 {
    match refusal {
        SuccessorRefusal::BadPasses(place) => *place as u64,
        _ => 0,
    }
}

// The result of a table, with the result of the handover: the number of the refusal, or 0, and its place.
fn with_played(number: u64, place: u64, played: Played) -> Seen {
    let [kind, line, heard, ..] = played.seen();
    [number, place, kind, line, heard, 0]
}

// The result of a handover to a successor with this name, and of the pool after it.
fn see<N: PoolName, M: PoolName>(
    rt: &impl Wait,
    name: NewName,
    samples: &Samples,
    opened: Opened<N, AcceptsAll>,
    mut kept: Passes<N>,
    case: Case,
) -> Seen
    requires name { name ≡ head_of M.book M.root }
    requires callers { M.callers ≡ case.heirs }
    requires accepts { M.accepts ≡ N.accepts }
{
    let memory = samples.memory;
    let (mempool, reader, passes) = opened;
    memory.refuse(case.refused);
    let handed = mempool.into_successor::<M>(rt, memory, name, passes, case.limit, case.heirs);
    memory.refuse(0);
    match handed {
        Ok((heir, reader, mut passes)) => {
            let played = play_with(rt, &heir, &reader, &mut passes, samples, &AFTER);
            with_played(0, 0, played)
        }
        Err((refusal, mempool, mut passes)) => {
            arrange_back(&mut passes, &mut kept, case.order);
            let played = play_with(rt, &mempool, &reader, &mut passes, samples, &AS_BEFORE);
            with_played(refusal.number(), place_of(&refusal), played)
        }
    }
}

// The results of the handover, and whether the allocation was refused.
fn try_case<N: PoolName>(
    rt: &impl Wait,
    name: NewName,
    samples: &Samples,
    case: Case,
) -> Option<Seen>
    requires name { name ≡ head_of N.book N.root }
    requires callers { N.callers ≡ 2 }
    requires accepts { N.accepts ≡ any }
{
    let (mempool, reader, mut passes) = open_two::<N>(rt, name, samples, 2, &BEFORE)?;
    let kept = arrange(samples.memory, &mut passes, case.order);
    let heir = NewName::new();
    let opened = (mempool, reader, passes);
    Some(see::<N, Brand>(rt, heir, samples, opened, kept, case))
}

fn see_case(rt: &impl Wait, samples: &Samples, case: Case) -> Option<Seen> {
    try_case::<Brand>(rt, NewName::new(), samples, case)
}

const NO_SUCCESSOR: Seen = [1, 0, 0, 0, 0, 0];

// The number of allocations of a handover, up to the expected five. Each fails once, and then nothing has changed.
fn see_growths(rt: &impl Wait, samples: &Samples) -> Option<Seen> {
    for nth in 1..MAX_GROWTHS {
        let seen = see_case(
            rt,
            samples,
            Case {
                refused: nth,
                ..GOOD
            },
        )?;
        if seen == [0; 6] {
            return Some([(nth - 1).min(5), 0, 0, 0, 0, 0]);
        }
        if seen != NO_SUCCESSOR {
            return None;
        }
    }
    None
}

// Two transactions come, the first caller sees one of them, and both go.
const COME: [Line; 2] = [
    (0, Call::Ask(1), Heard::Entered(0, Told::Accepted(1))),
    (1, Call::Ask(CHAINED), Heard::Entered(1, Told::Accepted(2))),
];

const GO: [Line; 1] = [(
    1,
    Call::Ask(REMOVE_SECOND),
    Heard::Entered(2, Told::Removed(1, 2)),
)];

fn share_first<N: PoolName>(passes: &[Pass<N>]) -> Option<Shown<N>> {
    passes.first()?.shown().share().ok()
}

// How many more owners the transactions have while somebody has a version of the pool that handed over, and after it is
// dropped.
fn count_held<N: PoolName, M: PoolName>(
    rt: &impl Wait,
    name: NewName,
    samples: &Samples,
    opened: Opened<N, AcceptsAll>,
    shown: Shown<N>,
    before: u64,
) -> Seen
    requires name { name ≡ head_of M.book M.root }
    requires callers { M.callers ≡ 1 }
    requires accepts { M.accepts ≡ N.accepts }
{
    let commands = samples.commands(0, SUBMITS);
    let (mempool, reader, passes) = opened;
    drop(reader);
    let handed = mempool.into_successor::<M>(rt, samples.memory, name, passes, 2, 1);
    let held = count_owners(commands).wrapping_sub(before);
    drop(shown);
    let freed = count_owners(commands).wrapping_sub(before);
    [u64::from(handed.is_ok()), held, freed, 0, 0, 0]
}

fn see_held<N: PoolName>(rt: &impl Wait, name: NewName, samples: &Samples) -> Option<Seen>
    requires name { name ≡ head_of N.book N.root }
    requires callers { N.callers ≡ 2 }
    requires accepts { N.accepts ≡ any }
{
    let before = count_owners(samples.commands(0, SUBMITS));
    let (mempool, reader, mut passes) = open_two::<N>(rt, name, samples, LONG, &COME)?;
    let shown = share_first(&passes)?;
    if !play_with(rt, &mempool, &reader, &mut passes, samples, &GO).is_as_told() {
        return None;
    }
    let opened = (mempool, reader, passes);
    let heir = NewName::new();
    Some(count_held::<N, Brand>(rt, heir, samples, opened, shown, before))
}

fn see_freed(rt: &impl Wait, samples: &Samples) -> Option<Seen> {
    see_held::<Brand>(rt, NewName::new(), samples)
}

// The passes, with the number of the refusal and its place.
static ROWS: [(&str, Order, u64, u32, u64, u64); 10] = [
    ("a successor", Order::Whole, 2, 1, 0, 0),
    ("no passes", Order::None, 2, 1, 2, 0),
    ("passes turned", Order::Turned, 2, 1, 2, 0),
    ("a pass too few", Order::WithoutLast, 2, 1, 2, 1),
    ("a successor of nobody", Order::Whole, 2, 0, 3, 0),
    ("a successor of 1,025", Order::Whole, 2, 1_025, 3, 0),
    ("a successor without a change", Order::Whole, 0, 1, 4, 0),
    (
        "a successor of 2^32 and 1 changes",
        Order::Whole,
        (1 << 32) + 1,
        1,
        4,
        0,
    ),
    ("nobody and no change", Order::Whole, 0, 0, 3, 0),
    ("no passes, nobody and no change", Order::None, 0, 0, 2, 0),
];

/// The number of cases that hold.
pub fn held_successors(rt: &(impl Print + Wait), samples: &Samples) -> io::Result<u64> {
    let growths = see_growths(rt, samples);
    let mut held = count(
        rt,
        "a handover at refused growths",
        growths,
        [5, 0, 0, 0, 0, 0],
    )?;
    let freed = see_freed(rt, samples);
    let freed = count(rt, "versions after a handover", freed, [1, 1, 0, 0, 0, 0])?;
    held = held.wrapping_add(freed);
    for (name, order, limit, heirs, number, place) in &ROWS {
        let case = Case {
            order: *order,
            limit: *limit,
            heirs: *heirs,
            refused: 0,
        };
        let seen = see_case(rt, samples, case);
        held = held.wrapping_add(count(rt, name, seen, [*number, *place, 0, 0, 0, 0])?);
    }
    Ok(held)
}
