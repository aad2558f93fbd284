//! Replays of the histories of served pools, with failed allocations.

use crate::talks::MOST_NAMES;
use mp_memory::Memory;
use mp_replay::{ReplayFault, replay};
use mp_serve::Conversation;
use mp_signatures::{Scheme, Signatures};
use mp_testing::{Ending, Failures, fail_each};
use mp_tx::Salt;
use std::io;

// How a replay ends: without a fault, or with its kind and its line.
type Ended = Result<(), (Kind, u64)>;

#[derive(Clone, Copy, Debug, PartialEq, Eq)]
enum Kind {
    NoMemory,
    BadLine,
    NoAnswer,
    WrongAnswer,
    WrongPlace,
    BadCaller,
}

type Case = (&'static [u8], Ended);

// A change of each kind, by three callers.
const LEGAL: &[u8] = b"block 400\nok\nlast 6\nok\n\
    utxo 0000000000000000000000000000000000000000000000000000000000000000#0 4bf5122f344554c53bde2ebb\
    8cd2b7e3d1600ad631c385a5d7cce23c7785459a3e4479e6b5a0a3bed1440325ca4bb09327a1dfb39c28bdd59de53a68\
    7ade010500010000000000000000000000000000000000000000000000000000000000000000000000000000000064\n\
    ok\n\
    give 0100010000000000000000000000000000000000000000000000000000000000000000000000010100030300000\
    00303000000014bf5122f344554c53bde2ebb8cd2b7e3d1600ad631c385a5d7cce23c7785459a3e4479e6b5a0a3bed14\
    40325ca4bb09327a1dfb39c28bdd59de53a687ade0105000100000000000000000000000000000000000000000000000\
    000000000000000000000000000000000640000000000000000ffffffffffffffff000000000000\n\
    entry 0 3 accepted 7 f8f11283a19134b80b18f90f8ab47ef21a315808b705b442408dadb4fffe20b1\n\
    remove #f8f11283a19134b80b18f90f8ab47ef21a315808b705b442408dadb4fffe20b1\n\
    entry 1 0 removed 7 dropped\n\
    stage 010001000000000000000000000000000000000000000000000000000000000000000000000001010003030000\
    000303000000014bf5122f344554c53bde2ebb8cd2b7e3d1600ad631c385a5d7cce23c7785459a3e4479e6b5a0a3bed1\
    440325ca4bb09327a1dfb39c28bdd59de53a687ade010500010000000000000000000000000000000000000000000000\
    0000000000000000000000000000000000640000000000000000ffffffffffffffff000000000000\nstaged 1\n\
    adopt 1\nentry 2 0 kept dropped\nback 1\nentry 3 63 kept dropped\n\
    stage utxo 1111111111111111111111111111111111111111111111111111111111111111#0 4bf5122f344554c53b\
    de2ebb8cd2b7e3d1600ad631c385a5d7cce23c7785459a3e4479e6b5a0a3bed1440325ca4bb09327a1dfb39c28bdd59d\
    e53a687ade01050001000000000000000000000000000000000000000000000000000000000000000000000000000000\
    0005\nstaged 1\nsync 4 staged\nentry 4 0 kept dropped\n";

const CASES: [Case; 7] = [
    (LEGAL, Ok(())),
    (b"", Ok(())),
    (
        b"block 400\nok\ngive 00\nundecodable version\nnonsense\nok\n",
        Err((Kind::BadLine, 5)),
    ),
    (
        b"back 0\nentry 0 0 kept dropped\nback 0\n",
        Err((Kind::NoAnswer, 3)),
    ),
    (
        b"back 0\nentry 0 0 kept dropped\nback 0\nentry 1 5 removed dropped\n",
        Err((Kind::WrongAnswer, 4)),
    ),
    (
        b"back 0\nentry 1 0 kept dropped\n",
        Err((Kind::WrongPlace, 2)),
    ),
    (
        b"back 0\nentry 0 64 kept dropped\n",
        Err((Kind::BadCaller, 2)),
    ),
];

// The least number of allocations of the first of them.
const FEWEST: u64 = 20;

const NO_MEMORY: Ended = Err((Kind::NoMemory, 0));

fn ended(fault: ReplayFault<'_>) -> Ended {
    match fault {
        ReplayFault::NoMemory => NO_MEMORY,
        ReplayFault::BadLine(number, _) => Err((Kind::BadLine, number)),
        ReplayFault::NoAnswer(number) => Err((Kind::NoAnswer, number)),
        ReplayFault::WrongAnswer(number) => Err((Kind::WrongAnswer, number)),
        ReplayFault::WrongPlace(number) => Err((Kind::WrongPlace, number)),
        ReplayFault::BadCaller(number) => Err((Kind::BadCaller, number)),
    }
}

fn replay_text(memory: Memory, text: &[u8]) -> Ended {
    let Ok(signatures) = Signatures::new(memory, Scheme::Trial) else {
        return NO_MEMORY;
    };
    match Conversation::new(memory, signatures, Salt::new(7), MOST_NAMES) {
        Ok(mut conversation) => match replay(memory, &mut conversation, text) {
            Ok(()) => Ok(()),
            Err(fault) => ended(fault),
        },
        Err(_) => NO_MEMORY,
    }
}

fn run_case(memory: Memory, case: Case, nth: u64) -> Ending {
    let (text, wanted) = case;
    memory.refuse(nth);
    let seen = replay_text(memory, text);
    Ending::of(seen == wanted, seen == NO_MEMORY)
}

/// How many cases hold.
pub fn held(rt: &impl Print, memory: Memory) -> io::Result<u64> {
    let mut held: u64 = 0;
    for case in CASES {
        let failures = fail_each(&memory, |nth| run_case(memory, case, nth));
        let are_many = match failures {
            Some(Failures { all, .. }) => FEWEST <= all || case.0 != LEGAL,
            None => false,
        };
        if are_many {
            held = held.saturating_add(1);
        } else {
            let what = "a replay at refused growths";
            println!(rt; "{what}: found {failures:?}, wanted {:?}", case.1)?;
        }
    }
    Ok(held)
}
