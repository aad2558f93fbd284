//! Conversations with failed allocations. A line whose allocation fails is repeated.

use mp_memory::{Memory, NoMemory};
use mp_names::LineFault;
use mp_serve::Conversation;
use mp_signatures::{Scheme, Signatures};
use mp_testing::{Ending, count, fail_each};
use mp_tx::Salt;
use std::alloc::Global;
use std::io;

/// How many names may be declared.
pub const MOST_NAMES: u64 = 65_536;

/// Lines and their answers, in which `bad` is short for that to a bad line.
#[derive(Clone, Copy)]
pub struct Talk {
    pub name: &'static str,
    pub lines: &'static [&'static [u8]],
    pub answers: &'static [u8],
}

// Every line that changes something, then lines that show the change.
const CHANGES: Talk = Talk {
    name: "changes in a conversation at refused growths",
    lines: &[
        b"block 400",
        b"limit 2",
        b"script five 054002000000000000000520",
        b"data five 010000000000000005",
        b"out g0 100@five",
        b"out g1 7",
        b"tx a in=g0:five/unit/five out=100",
        b"tx b in=g1 out=7",
        b"check a",
        b"submit a",
        b"submit a",
        b"submit b",
        b"remove b",
        b"sync 6 block=300 g0 g1",
        b"submit b",
        b"stats",
        b"snapshot",
    ],
    answers: b"ok\nok\nok\nok\nok\nok\nok\nok\naccepted 1\naccepted 1\nrefused already 1\n\
        accepted 2\nremoved 2 dropped\nkept 1 dropped\naccepted 3\nstats 2 379 221 3 1 already 1\n\
        snapshot 2 379 3 1:a 3:b\n",
};

/// The bytes of a transaction are read again under another name, with nothing to distinguish it from the first. On a ledger state
/// with only `a.0`, `a` isn't valid.
pub const READS: Talk = Talk {
    name: "reads in a conversation at refused growths",
    lines: &[
        b"out g0 100",
        b"tx a in=g0 out=100",
        b"show a",
        b"bytes b 010001000000000000000000000000000000000000000000000000000000000000000000000001010003030000000303\
            000000014bf5122f344554c53bde2ebb8cd2b7e3d1600ad631c385a5d7cce23c7785459a3e4479e6b5a0a3bed1440325\
            ca4bb09327a1dfb39c28bdd59de53a687ade010500010000000000000000000000000000000000000000000000000000\
            0000000000000000000000000000640000000000000000ffffffffffffffff000000000000",
        b"bytes x 00",
        b"bytes y",
        b"tx z in=g0 in=g0 out=100",
        b"submit a",
        b"after 0",
        b"lookup 1",
        b"lookup 2",
        b"has b",
        b"take 180",
        b"forge 181",
        b"offer 9 1000",
        b"offer 9 1000",
        b"for 0 a.0",
        b"for 0 g0",
    ],
    answers: b"ok\nok\ntx 181 f8f11283a19134b80b18f90f8ab47ef21a315808b705b442408dadb4fffe20b1 \
        010001000000000000000000000000000000000000000000000000000000000000000000000001010003030000000303\
        000000014bf5122f344554c53bde2ebb8cd2b7e3d1600ad631c385a5d7cce23c7785459a3e4479e6b5a0a3bed1440325\
        ca4bb09327a1dfb39c28bdd59de53a687ade010500010000000000000000000000000000000000000000000000000000\
        0000000000000000000000000000640000000000000000ffffffffffffffff000000000000\
        \ntx 181 f8f11283a19134b80b18f90f8ab47ef21a315808b705b442408dadb4fffe20b1\n\
        undecodable version\nbad\nbad\naccepted 1\nafter 1:a\nlookup a\nlookup none\nhas yes\ntake 0 0\n\
        block 1 181 1:a\noffer 1:a\noffer\nfor\nfor 1:a\n",
};

/// Blocks, one of which has a transaction whose input is missing, and the way back.
pub const BLOCKS: Talk = Talk {
    name: "blocks in a conversation at refused growths",
    lines: &[
        b"block 400",
        b"utxo 1111111111111111111111111111111111111111111111111111111111111111#0 \
            4bf5122f344554c53bde2ebb8cd2b7e3d1600ad631c385a5d7cce23c7785459a3e4479e6b5a0a3bed1440325ca4bb093\
            27a1dfb39c28bdd59de53a687ade01050001000000000000000000000000000000000000000000000000000000000000\
            0000000000000000000009",
        b"out g0 100",
        b"out g1 7",
        b"tx a in=g0 out=100",
        b"tx b in=a.0 out=60 out=40",
        b"tx c in=g1 out=7",
        b"submit a",
        b"submit c",
        b"adopt 1 b",
        b"adopt 1 block=300 a b",
        b"back 2",
        b"back 1",
        b"submit a",
        b"forget b a nobody",
        b"submit b",
        b"stats",
    ],
    answers: b"ok\nok\nok\nok\nok\nok\nok\naccepted 1\naccepted 2\nrefused adopt b missing 0\nkept 2 dropped 1\n\
        refused back 1\nkept 2 dropped\naccepted 3\nforgotten 1\nbad\nstats 2 362 438 3 5 adopt 1 back 1\n",
};

/// A spoilt signature and two names for one id. The pool accepts the bytes under the second name.
pub const REPORTS: Talk = Talk {
    name: "reports in a conversation at refused growths",
    lines: &[
        b"out g0 100",
        b"tx a in=g0 out=100 badsign=7",
        b"tx b in=g0 out=100 sign=7",
        b"tx c in=g0 out=100 sign=7",
        b"submit a",
        b"submit b",
        b"forge 1000",
        b"adopt 1 a",
        b"forget a b c",
        b"show c",
        b"adopt 1 b",
        b"back 1",
        b"forget b",
        b"stats",
    ],
    answers: b"ok\nok\nok\nok\nrefused signature 7\naccepted 1\nblock 1 277 1:b\nrefused adopt b signature 7\nforgotten 2\nbad\n\
        kept dropped 1\nkept dropped\nforgotten 1\nstats 0 0 1000000 1 3 signature 1 adopt 1\n",
};

/// Bytes without a name, and words of ids.
pub const GIVEN: Talk = Talk {
    name: "bytes without a name at refused growths",
    lines: &[
        b"out g0 100",
        b"give 00",
        b"show #f8f11283a19134b80b18f90f8ab47ef21a315808b705b442408dadb4fffe20b1",
        b"give 010001000000000000000000000000000000000000000000000000000000000000000000000001010003030000000303\
            000000014bf5122f344554c53bde2ebb8cd2b7e3d1600ad631c385a5d7cce23c7785459a3e4479e6b5a0a3bed1440325\
            ca4bb09327a1dfb39c28bdd59de53a687ade010500010000000000000000000000000000000000000000000000000000\
            0000000000000000000000000000640000000000000000ffffffffffffffff000000000000",
        b"give 010001000000000000000000000000000000000000000000000000000000000000000000000001010003030000000303\
            000000014bf5122f344554c53bde2ebb8cd2b7e3d1600ad631c385a5d7cce23c7785459a3e4479e6b5a0a3bed1440325\
            ca4bb09327a1dfb39c28bdd59de53a687ade010500010000000000000000000000000000000000000000000000000000\
            0000000000000000000000000000640000000000000000ffffffffffffffff000000000000",
        b"snapshot",
        b"ids",
        b"lookup 1",
        b"names",
        b"show #f8f11283a19134b80b18f90f8ab47ef21a315808b705b442408dadb4fffe20b1",
        b"check #f8f11283a19134b80b18f90f8ab47ef21a315808b705b442408dadb4fffe20b1",
        b"adopt 1 #f8f11283a19134b80b18f90f8ab47ef21a315808b705b442408dadb4fffe20b1",
        b"give 010001000000000000000000000000000000000000000000000000000000000000000000000001010003030000000303\
            000000014bf5122f344554c53bde2ebb8cd2b7e3d1600ad631c385a5d7cce23c7785459a3e4479e6b5a0a3bed1440325\
            ca4bb09327a1dfb39c28bdd59de53a687ade010500010000000000000000000000000000000000000000000000000000\
            0000000000000000000000000000640000000000000000ffffffffffffffff000000000000",
        b"back 1",
        b"remove #f8f11283a19134b80b18f90f8ab47ef21a315808b705b442408dadb4fffe20b1",
        b"has #f8f11283a19134b80b18f90f8ab47ef21a315808b705b442408dadb4fffe20b1",
        b"stats",
        b"reset",
        b"snapshot",
    ],
    answers: b"ok\nundecodable version\nbad\naccepted 1 f8f11283a19134b80b18f90f8ab47ef21a315808b705b442408dadb4fffe20b1\n\
        refused already 1 f8f11283a19134b80b18f90f8ab47ef21a315808b705b442408dadb4fffe20b1\n\
        snapshot 1 181 1 1:f8f11283a19134b80b18f90f8ab47ef21a315808b705b442408dadb4fffe20b1\nok\n\
        lookup f8f11283a19134b80b18f90f8ab47ef21a315808b705b442408dadb4fffe20b1\nok\n\
        tx 181 f8f11283a19134b80b18f90f8ab47ef21a315808b705b442408dadb4fffe20b1 \
        010001000000000000000000000000000000000000000000000000000000000000000000000001010003030000000303\
        000000014bf5122f344554c53bde2ebb8cd2b7e3d1600ad631c385a5d7cce23c7785459a3e4479e6b5a0a3bed1440325\
        ca4bb09327a1dfb39c28bdd59de53a687ade010500010000000000000000000000000000000000000000000000000000\
        0000000000000000000000000000640000000000000000ffffffffffffffff000000000000\
        \nrefused already 1\nkept dropped 1\n\
        refused missing 0 f8f11283a19134b80b18f90f8ab47ef21a315808b705b442408dadb4fffe20b1\n\
        kept dropped\nremoved dropped\nhas no\nstats 0 0 1000000 1 4 already 1 missing 1\nok\nsnapshot 0 0 1\n",
};

// The transaction that spends output 0 of the id of zeros and pays 100, staged or given by its bytes.
const STAGE: &[u8] =
    b"stage 010001000000000000000000000000000000000000000000000000000000000000000000000001010003030000000303\
    000000014bf5122f344554c53bde2ebb8cd2b7e3d1600ad631c385a5d7cce23c7785459a3e4479e6b5a0a3bed1440325\
    ca4bb09327a1dfb39c28bdd59de53a687ade010500010000000000000000000000000000000000000000000000000000\
    0000000000000000000000000000640000000000000000ffffffffffffffff000000000000";

const GIVE: &[u8] =
    b"give 010001000000000000000000000000000000000000000000000000000000000000000000000001010003030000000303\
    000000014bf5122f344554c53bde2ebb8cd2b7e3d1600ad631c385a5d7cce23c7785459a3e4479e6b5a0a3bed1440325\
    ca4bb09327a1dfb39c28bdd59de53a687ade010500010000000000000000000000000000000000000000000000000000\
    0000000000000000000000000000640000000000000000ffffffffffffffff000000000000";

// That output, and another.
const STAGE_SPENT: &[u8] =
    b"stage utxo 0000000000000000000000000000000000000000000000000000000000000000#0 \
    4bf5122f344554c53bde2ebb8cd2b7e3d1600ad631c385a5d7cce23c7785459a3e4479e6b5a0a3bed1440325ca4bb093\
    27a1dfb39c28bdd59de53a687ade01050001000000000000000000000000000000000000000000000000000000000000\
    0000000000000000000064";

const STAGE_OUTPUT: &[u8] =
    b"stage utxo 1111111111111111111111111111111111111111111111111111111111111111#0 \
    4bf5122f344554c53bde2ebb8cd2b7e3d1600ad631c385a5d7cce23c7785459a3e4479e6b5a0a3bed1440325ca4bb093\
    27a1dfb39c28bdd59de53a687ade01050001000000000000000000000000000000000000000000000000000000000000\
    0000000000000000000009";

/// Blocks and ledger states of what is staged: adopted, refused and forgotten.
pub const STAGED: Talk = Talk {
    name: "what is staged at refused growths",
    lines: &[
        b"out g0 100",
        STAGE,
        b"stage 00",
        b"adopt 1",
        GIVE,
        b"adopt 1",
        STAGE,
        b"adopt 2",
        b"unstage",
        b"back 2",
        GIVE,
        b"stage #f8f11283a19134b80b18f90f8ab47ef21a315808b705b442408dadb4fffe20b1",
        STAGE_OUTPUT,
        STAGE_OUTPUT,
        b"adopt 3 block=300",
        b"sync 3 staged",
        STAGE_SPENT,
        b"sync 4 staged",
        GIVE,
        STAGE,
        b"reset",
        b"adopt 5",
        b"stats",
    ],
    answers: b"ok\nstaged 1\nundecodable version\nkept dropped\n\
        refused missing 0 f8f11283a19134b80b18f90f8ab47ef21a315808b705b442408dadb4fffe20b1\nkept dropped\nstaged 1\n\
        refused adopt f8f11283a19134b80b18f90f8ab47ef21a315808b705b442408dadb4fffe20b1 missing 0\nok\nkept dropped\n\
        accepted 1 f8f11283a19134b80b18f90f8ab47ef21a315808b705b442408dadb4fffe20b1\nstaged 1\nstaged 1\nbad\nkept dropped 1\n\
        kept dropped\nstaged 1\nkept dropped\n\
        accepted 2 f8f11283a19134b80b18f90f8ab47ef21a315808b705b442408dadb4fffe20b1\nstaged 1\nok\nkept 2 dropped\n\
        stats 1 181 999819 2 9 missing 1 adopt 1\n",
};

const TALKS: [Talk; 6] = [CHANGES, READS, BLOCKS, REPORTS, GIVEN, STAGED];

// The least number of allocations of these conversations.
const FEWEST: u64 = 20;

fn begin(memory: Memory) -> Result<Conversation, NoMemory> {
    let signatures = Signatures::new(memory, Scheme::Trial)?;
    match Conversation::new(memory, signatures.share()?, Salt::new(7), MOST_NAMES) {
        Ok(conversation) => Ok(conversation),
        Err(_) => Conversation::new(memory, signatures, Salt::new(7), MOST_NAMES),
    }
}

// Adds the answer to the line, which is repeated if an allocation fails.
fn say(
    conversation: &mut Conversation,
    memory: Memory,
    line: &[u8],
    told: &mut Vec<u8, Global>,
) -> Option<()> {
    let answer = match conversation.hear(memory, line) {
        Err(LineFault::NoMemory) => conversation.hear(memory, line),
        answer => answer,
    };
    match answer {
        Ok(answer) => told.extend_from_slice(answer.text()).ok(),
        Err(LineFault::Bad(_)) => told.extend_from_slice(b"bad\n").ok(),
        Err(LineFault::NoMemory) => None,
    }
}

fn hold(memory: Memory, alloc: Global, talk: Talk) -> Option<Vec<u8, Global>> {
    let mut told = Vec::new(alloc);
    let Ok(mut conversation) = begin(memory) else {
        return None;
    };
    for line in talk.lines {
        say(&mut conversation, memory, line, &mut told)?;
    }
    Some(told)
}

// What failed is repeated, so all answers are as usual.
fn run_talk(memory: Memory, alloc: Global, talk: Talk, nth: u64) -> Ending {
    memory.refuse(nth);
    match hold(memory, alloc, talk) {
        Some(told) => Ending::of(told.as_slice() == talk.answers, false),
        None => Ending::Wrong,
    }
}

fn has_many(memory: Memory, alloc: Global, talk: Talk) -> bool {
    match fail_each(&memory, |nth| run_talk(memory, alloc, talk, nth)) {
        Some(failures) => FEWEST <= failures.all,
        None => false,
    }
}

/// How many cases hold.
pub fn held(rt: &impl Print, memory: Memory, alloc: Global) -> io::Result<u64> {
    let mut held: u64 = 0;
    for talk in TALKS {
        let seen = [u64::from(has_many(memory, alloc, talk)), 0, 0, 0, 0, 0];
        held = held.saturating_add(count(rt, talk.name, Some(seen), [1, 0, 0, 0, 0, 0])?);
    }
    Ok(held)
}
