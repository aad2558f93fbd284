//! The sequential pool, and a version of all its items, with each allocation failing: the pool doesn't change, and the
//! same call then answers.
use crate::trials::{Trial, count_trial};
use mp_memory::NoMemory;
use mp_seqpool::{Command, SeqPool, play};
use mp_testing::commands::{AFTER_FIRST, GUARDED, OF_120, REMOVE_FIRST, Samples, THREE};
use mp_testing::told::{Told, read_answer, read_pool};
use mp_testing::{ACCEPTS_ALL, CONFIG, Call, Seen, under_each_refusal};
use mp_versions::Version;
use std::io;

// The call on a pool with the three transactions.
#[derive(Clone, Copy)]
enum Way {
    // Makes another pool like that.
    Play,
    // Makes the version of the pool.
    Show,
    // Executes the command of the sample, as one step.
    Step(usize),
}

#[derive(Drop)]
struct Calling<'a> {
    samples: &'a Samples,
    way: Way,
}

fn play_three(samples: &Samples) -> Option<SeqPool> {
    let ledger = samples.ledger(OF_120)?;
    let commands = samples.commands(THREE, THREE + 3);
    match play(samples.memory, CONFIG, ledger, commands, &ACCEPTS_ALL) {
        Ok(played) => Some(played.pool),
        Err(NoMemory) => None,
    }
}

// The answer, and the state of the pool after it.
fn step(pool: &mut SeqPool, command: &Command) -> Option<Seen> {
    let told = match pool.step(command, &ACCEPTS_ALL) {
        Ok(answer) => read_answer(&answer),
        Err(NoMemory) => Told::NoMemory,
    };
    let [kind, first, second, ..] = told.answered()?;
    let [tickets, bytes, last, ..] = read_pool(pool);
    Some([kind, first, second, tickets, bytes, last])
}

// The number of transactions, their bytes, the last ticket, and the number of changes.
fn look_at_version(version: &Version) -> Seen {
    [
        version.len() as u64,
        version.bytes(),
        version.last_ticket(),
        version.number(),
        0,
        0,
    ]
}

impl Call for Calling<'_> {
    type Value = SeqPool;

    fn make(&self) -> Option<SeqPool> {
        play_three(self.samples)
    }

    fn call(&self, pool: &mut SeqPool) -> Option<Seen> {
        let samples = self.samples;
        match self.way {
            Way::Play => Some(read_pool(&play_three(samples)?)),
            Way::Show => Some(look_at_version(&Version::of(samples.memory, pool).ok()?)),
            Way::Step(number) => step(pool, samples.command(number)?),
        }
    }

    fn look(&self, pool: &SeqPool) -> Seen {
        read_pool(pool)
    }
}

// The call, its expected result, and the least number of its allocations. The answer to a submit is 1 and its ticket.
// To a remove it is 2, the tickets that were named, and those that went with them. To a sync it is 3, the tickets that
// stay, and those that don't. Then come the pool's tickets, its bytes and the last ticket.
static ROWS: [(&str, Way, Seen, u64); 5] = [
    ("a pool of three", Way::Play, [123, 543, 3, 3, 0, 0], 6),
    ("a version of a pool", Way::Show, [3, 543, 3, 3, 0, 0], 3),
    (
        "a submit as a step",
        Way::Step(GUARDED),
        [1, 4, 0, 1234, 817, 4],
        1,
    ),
    (
        "a remove as a step",
        Way::Step(REMOVE_FIRST),
        [2, 1, 2, 3, 181, 3],
        6,
    ),
    (
        "a sync as a step",
        Way::Step(AFTER_FIRST),
        [3, 2, 13, 2, 181, 3],
        6,
    ),
];

fn try_way(samples: &Samples, way: Way) -> Trial {
    under_each_refusal(&samples.memory, &Calling { samples, way })
}

/// The number of cases that hold.
pub fn held(rt: &impl Print, samples: &Samples) -> io::Result<u64> {
    let mut held = 0u64;
    for (name, way, wanted, least) in &ROWS {
        let trial = try_way(samples, *way);
        held = held.wrapping_add(count_trial(rt, name, trial, *wanted, *least)?);
    }
    Ok(held)
}
