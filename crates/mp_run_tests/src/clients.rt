//! Conversations over one pool: an operator's alone, with devices and allocations that fail, and with two clients' at once.
ghost use Rattle.std.specs.Prelude.{◌≡◌, length, All, IfSome};
ghost use Rattle.mp_serve.specs.declared.device.Turn.TheVariants.{Listens};

use crate::holding::{Ended, Held, LOST, hold};
use crate::streams::{Bytes, Fails, NEVER, held_failures, streams, written};
use crate::talks::{BLOCKS, GIVEN, READS, REPORTS, STAGED, Talk};
use crate::ways::{Holder, Way, converse};
use mp_clients::Close;
use mp_memory::Memory;
use mp_serve::{Device, Turn};
use mp_testing::{Ending, FailingReader, MAX_GROWTHS, Seen, count};
use mp_text::{LineRead, ReadFault, WriteFault};
use std::alloc::Global;
use std::fs::File;
use std::sync::Wait;
use std::thread::Threads;
use std::{io, str};

// Lines and their answers.
#[derive(Clone, Copy)]
struct Row {
    name: &'static str,
    lines: &'static [u8],
    answers: &'static [u8],
}

// Plain transactions have 181 bytes, with a second output 288, and with a signature 277.
const ROWS: [Row; 4] = [
    Row {
        name: "an operator before and after the pool opens",
        lines: b"block 400\nlimit 1000\nreset\nblock 5\nout g0 100\nout g1 7\ntx a in=g0 out=100\ntx b in=a.0 out=60 out=40\n\
            tx c in=g1 out=7 sign=5\nremove\nsubmit nobody\nforget nobody\n\n# stats\nshow a\nbytes x 03\nstats\n\
            out g2 5\ntick 3\n\
            utxo 1111111111111111111111111111111111111111111111111111111111111111#0 4bf5122f344554c53bde2ebb8cd2b7e3d160\
            0ad631c385a5d7cce23c7785459a3e4479e6b5a0a3bed1440325ca4bb09327a1dfb39c28bdd59de53a687ade01050001000000000000\
            0000000000000000000000000000000000000000000000000000000000000000000009\n\
            submit a\nsubmit a\ncheck b\nsubmit b\nsubmit c\nstats\nsnapshot\nafter 1\nlookup 2\nlookup 4\nhas b\n\
            take 500\nforge 468\noffer 2 1000\noffer 9 277\noffer 9 1000\nfor 0 a.0\nfor 0 g0 g1\nremove b b\n\
            sync 1 a.0 g1\nsubmit a\nsubmit b\nback 1\nsubmit a\nback 0\nadopt 2 a\nadopt 3 a\nback 3\nstats\n\
            forget a c g0 nobody\nshow a\nreset\nshow c\n\
            bytes a 0100010000000000000000000000000000000000000000000000000000000000000000000000010100030300000003030000\
            00014bf5122f344554c53bde2ebb8cd2b7e3d1600ad631c385a5d7cce23c7785459a3e4479e6b5a0a3bed1440325ca4bb09327a1dfb3\
            9c28bdd59de53a687ade0105000100000000000000000000000000000000000000000000000000000000000000000000000000000000\
            640000000000000000ffffffffffffffff000000000000\n\
            check a\nback 1\nsubmit a\nids\nlookup 6\nnames\nlookup 6\nstats\n",
        answers: b"ok\nok\nbad 3: a reset stands below the first command\nbad 4: 'block' was set before\nok\nok\nok\nok\nok\n\
            bad 10: too few words, expected 'remove TX ..'\nbad 11: no transaction 'nobody'\nforgotten 0\nok\nok\n\
            tx 181 f8f11283a19134b80b18f90f8ab47ef21a315808b705b442408dadb4fffe20b1 010001000000000000000000000000000000\
            000000000000000000000000000000000000000001010003030000000303000000014bf5122f344554c53bde2ebb8cd2b7e3d1600ad6\
            31c385a5d7cce23c7785459a3e4479e6b5a0a3bed1440325ca4bb09327a1dfb39c28bdd59de53a687ade010500010000000000000000\
            0000000000000000000000000000000000000000000000000000000000000000640000000000000000ffffffffffffffff0000000000\
            00\n\
            undecodable version\nstats 0 0 800 0 0\nbad 18: an output stands above the first command\n\
            bad 19: a setting stands above the first command\nbad 20: an output stands above the first command\n\
            accepted 1\nrefused already 1\naccepted 2\naccepted 2\naccepted 3\nstats 3 746 54 3 3 already 1\n\
            snapshot 3 746 3 1:a 2:b 3:c\nafter 2:b 3:c\nlookup b\nlookup none\nhas yes\ntake 2 469 1:a 2:b\n\
            block 1 181 1:a\noffer 1:a 2:b\noffer 3:c\noffer\nfor 2:b\nfor 1:a 2:b 3:c\nremoved 2 dropped\n\
            kept 3 dropped 1\nrefused missing 0\naccepted 4\nkept 3 dropped 4\naccepted 5\nkept 3 5 dropped\n\
            kept 3 dropped 5\nrefused adopt a missing 0\nrefused back 1\n\
            stats 1 277 523 5 10 already 1 missing 1 adopt 1 back 1\nforgotten 2\nbad 51: no transaction 'a'\nok\n\
            bad 1: no transaction 'c'\ntx 181 f8f11283a19134b80b18f90f8ab47ef21a315808b705b442408dadb4fffe20b1\n\
            refused missing 0\nkept 3 dropped\naccepted 6\nok\n\
            lookup f8f11283a19134b80b18f90f8ab47ef21a315808b705b442408dadb4fffe20b1\nok\nlookup a\n\
            stats 2 458 342 6 12 already 1 missing 1 adopt 1 back 1\n",
    },
    Row {
        name: "an operator's bytes and ids",
        lines: b"out g0 100\ngive 00\nout g1 7\nshow #f8f11283a19134b80b18f90f8ab47ef21a315808b705b442408dadb4fffe20b1\n\
            give 0100010000000000000000000000000000000000000000000000000000000000000000000000010100030300000003030000000\
            14bf5122f344554c53bde2ebb8cd2b7e3d1600ad631c385a5d7cce23c7785459a3e4479e6b5a0a3bed1440325ca4bb09327a1dfb39c2\
            8bdd59de53a687ade0105000100000000000000000000000000000000000000000000000000000000000000000000000000000000640\
            000000000000000ffffffffffffffff000000000000\n\
            give 0100010000000000000000000000000000000000000000000000000000000000000000000000010100030300000003030000000\
            14bf5122f344554c53bde2ebb8cd2b7e3d1600ad631c385a5d7cce23c7785459a3e4479e6b5a0a3bed1440325ca4bb09327a1dfb39c2\
            8bdd59de53a687ade0105000100000000000000000000000000000000000000000000000000000000000000000000000000000000640\
            000000000000000ffffffffffffffff000000000000\n\
            snapshot\noffer 9 1000\noffer 9 1000\n\
            show #f8f11283a19134b80b18f90f8ab47ef21a315808b705b442408dadb4fffe20b1\n\
            check #f8f11283a19134b80b18f90f8ab47ef21a315808b705b442408dadb4fffe20b1\n\
            has #f8f11283a19134b80b18f90f8ab47ef21a315808b705b442408dadb4fffe20b1\n\
            adopt 1 #f8f11283a19134b80b18f90f8ab47ef21a315808b705b442408dadb4fffe20b1\n\
            adopt 1 #f8f11283a19134b80b18f90f8ab47ef21a315808b705b442408dadb4fffe20b1\n\
            give 0100010000000000000000000000000000000000000000000000000000000000000000000000010100030300000003030000000\
            14bf5122f344554c53bde2ebb8cd2b7e3d1600ad631c385a5d7cce23c7785459a3e4479e6b5a0a3bed1440325ca4bb09327a1dfb39c2\
            8bdd59de53a687ade0105000100000000000000000000000000000000000000000000000000000000000000000000000000000000640\
            000000000000000ffffffffffffffff000000000000\n\
            back 1\n\
            bytes a 0100010000000000000000000000000000000000000000000000000000000000000000000000010100030300000003030000\
            00014bf5122f344554c53bde2ebb8cd2b7e3d1600ad631c385a5d7cce23c7785459a3e4479e6b5a0a3bed1440325ca4bb09327a1dfb3\
            9c28bdd59de53a687ade0105000100000000000000000000000000000000000000000000000000000000000000000000000000000000\
            640000000000000000ffffffffffffffff000000000000\n\
            submit a\nlookup 2\noffer 9 1000\nreset\noffer 9 1000\n\
            remove #f8f11283a19134b80b18f90f8ab47ef21a315808b705b442408dadb4fffe20b1\n\
            remove #f8f11283a19134b80b18f90f8ab47ef21a315808b705b442408dadb4fffe20b1\n\
            has #f8f11283a19134b80b18f90f8ab47ef21a315808b705b442408dadb4fffe20b1\nbytes\nstats\n",
        answers: b"ok\nundecodable version\nbad 3: an output stands above the first command\n\
            bad 4: no transaction #f8f11283a19134b80b18f90f8ab47ef21a315808b705b442408dadb4fffe20b1 in the pool\n\
            accepted 1 f8f11283a19134b80b18f90f8ab47ef21a315808b705b442408dadb4fffe20b1\n\
            refused already 1 f8f11283a19134b80b18f90f8ab47ef21a315808b705b442408dadb4fffe20b1\n\
            snapshot 1 181 1 1:f8f11283a19134b80b18f90f8ab47ef21a315808b705b442408dadb4fffe20b1\n\
            offer 1:f8f11283a19134b80b18f90f8ab47ef21a315808b705b442408dadb4fffe20b1\noffer\n\
            tx 181 f8f11283a19134b80b18f90f8ab47ef21a315808b705b442408dadb4fffe20b1 010001000000000000000000000000000000\
            000000000000000000000000000000000000000001010003030000000303000000014bf5122f344554c53bde2ebb8cd2b7e3d1600ad6\
            31c385a5d7cce23c7785459a3e4479e6b5a0a3bed1440325ca4bb09327a1dfb39c28bdd59de53a687ade010500010000000000000000\
            0000000000000000000000000000000000000000000000000000000000000000640000000000000000ffffffffffffffff0000000000\
            00\n\
            refused already 1\nhas yes\nkept dropped 1\n\
            bad 14: no transaction #f8f11283a19134b80b18f90f8ab47ef21a315808b705b442408dadb4fffe20b1 in the pool\n\
            refused missing 0 f8f11283a19134b80b18f90f8ab47ef21a315808b705b442408dadb4fffe20b1\nkept dropped\n\
            tx 181 f8f11283a19134b80b18f90f8ab47ef21a315808b705b442408dadb4fffe20b1\naccepted 2\nlookup a\noffer 2:a\n\
            ok\noffer 2:f8f11283a19134b80b18f90f8ab47ef21a315808b705b442408dadb4fffe20b1\nremoved 2 dropped\n\
            removed dropped\nhas no\nbad 5: too few words, expected 'bytes NAME HEX'\n\
            stats 0 0 1000000 2 6 already 1 missing 1\n",
    },
    Row {
        name: "an operator at the limit of changes",
        lines: b"limit 2\nout g0 100\nout g1 7\ntx a in=g0 out=100\ntx b in=g1 out=7\nsubmit a\ncheck b\nsubmit b\ncheck b\n\
            submit a\nremove a\nsync 0\nadopt 0\nadopt 1 a\nback 0\nback 1\nhas a\nstats\n",
        answers: b"ok\nok\nok\nok\nok\naccepted 1\naccepted 2\naccepted 2\nrefused history\nrefused history\nrefused history\n\
            refused history\nrefused history\nrefused history\nrefused history\nrefused back 0\nhas yes\n\
            stats 2 362 999638 2 2 history 6 back 1\n",
    },
    Row {
        name: "an operator whose pool doesn't open",
        lines: b"out g0 100\nshow a",
        answers: b"ok\nbad 2: no transaction 'a'\n",
    },
];

// How the only conversation ended, and its device.
fn only_one<D: Device + Drop>(held: Held<D>) -> Option<Ended<D>> {
    let mut all = held?;
    all.pop()
}

/// How the conversation of an operator without clients ends, and what is written. The device reads and writes a given number of
/// bytes at once.
pub fn hold_operator<R: Threads + Wait + Sync>(
    rt: &R,
    memory: Memory,
    alloc: Global,
    lines: FailingReader,
    at_once: usize,
    fails: Fails,
) -> (u64, Vec<u8, Global>) {
    let Some(device) = streams(alloc, lines, at_once, fails) else {
        return (1, Vec::new(alloc));
    };
    let held = hold(rt, memory, alloc, None, device, Vec::new(memory), 0);
    match only_one(held) {
        Some(Ended { fault, device }) => (fault, written(device)),
        None => (1, Vec::new(alloc)),
    }
}

// Whether the conversation ended like this. Else prints what is written.
fn is_written(
    rt: &impl Print,
    name: &str,
    seen: (u64, &[u8]),
    wanted: (u64, &[u8]),
) -> io::Result<bool> {
    if seen == wanted {
        return Ok(true);
    }
    let (fault, bytes) = seen;
    let text = str::from_utf8(bytes).unwrap_or("bytes");
    println!(rt; "{name}: found fault {fault} after\n{text}")?;
    Ok(false)
}

fn held_rows<R: Print + Threads + Wait + Sync>(rt: &R, holder: Holder) -> io::Result<u64> {
    let mut held: u64 = 0;
    for row in ROWS {
        let (fault, told) = converse(rt, holder, FailingReader::of(row.lines), 4096, NEVER);
        if is_written(rt, row.name, (fault, &told), (0, row.answers))? {
            held = held.saturating_add(1);
        }
    }
    Ok(held)
}

const NO_MEMORY: &[u8] = b"fault: no memory\n";

// Lines in memory. One whose allocation fails is repeated. Of the answer to a bad line only its first word is kept, as the
// repeated lines count.
#[derive(Drop)]
struct Patient {
    lines: &'static [&'static [u8]],
    // The place of the oldest line that isn't answered.
    next: usize,
    told: Vec<u8, Global>,
    turn: Turn,
    // Whether an answer couldn't be kept.
    is_lost: bool,
    is_closed: bool,
}

// The answer to the oldest line.
fn keep(patient: &mut Patient, text: &[u8]) -> Option<()>
    ensures { patient.new.turn ≡ patient.old.turn }
{
    if text == NO_MEMORY {
        return Some(());
    }
    patient.next = patient.next.checked_add(1)?;
    let kept = if text.starts_with(b"bad ") {
        b"bad\n"
    } else {
        text
    };
    patient.told.extend_from_slice(kept).ok()
}

impl Device for Patient {
    ghost use Rattle.std.specs.Prelude.{None};

    ghost input = { λ _. None };

    ghost output = { λ _. None };

    ghost turn = { λ p. p.turn };

    fn read_line(
        &mut self,
        line: &mut Vec<u8, Memory>,
        limit: usize,
    ) -> Result<LineRead, ReadFault> {
        let Some(oldest) = self.lines.get(self.next) else {
            return Ok(LineRead::End);
        };
        self.turn = Turn::Owes;
        line.clear();
        if oldest.len() > limit {
            return Ok(LineRead::TooLong);
        }
        match line.extend_from_slice(oldest) {
            Ok(()) => Ok(LineRead::Whole),
            Err(_) => Ok(LineRead::Lost),
        }
    }

    fn write(&mut self, text: &[u8]) -> Result<(), WriteFault> {
        if keep(self, text).is_none() {
            self.is_lost = true;
        }
        self.turn = Turn::Holds;
        Ok(())
    }

    fn flush(&mut self) -> Result<(), WriteFault> {
        self.turn = Turn::Listens;
        Ok(())
    }
}

impl Close for Patient {
    fn close(&mut self) {
        self.is_closed = true;
    }
}

/// The answers with changes fit the room that is made before the change.
pub const CHANGES: Talk = Talk {
    name: "changes over a shared pool at refused growths",
    lines: &[
        b"block 400",
        b"script five 054002000000000000000520",
        b"data five 010000000000000005",
        b"out g0 100@five",
        b"out g1 7",
        b"tx a in=g0:five/unit/five out=100",
        b"tx b in=g1 out=7",
        b"check a",
        b"submit a",
        b"submit a",
        b"submit b",
        b"remove b",
        b"sync 6 block=300 g0 g1",
        b"submit b",
        b"stats",
        b"snapshot",
    ],
    answers: b"ok\nok\nok\nok\nok\nok\nok\naccepted 1\naccepted 1\nrefused already 1\naccepted 2\nremoved 2 dropped\n\
        kept 1 dropped\naccepted 3\nstats 2 379 221 3 5 already 1\nsnapshot 2 379 3 1:a 3:b\n",
};

// Four of the answers with changes have more than 32 bytes.
const LONG: Talk = Talk {
    name: "long answers over a shared pool at refused growths",
    lines: &[
        b"last 1000000000",
        b"out g0 100",
        b"tx a in=g0 out=100",
        b"tx b in=a.0 out=100",
        b"tx c in=b.0 out=100",
        b"submit a",
        b"submit b",
        b"submit c",
        b"remove a",
        b"submit a",
        b"submit b",
        b"submit c",
        b"sync 2 g0",
        b"back 1",
        b"adopt 3 a",
        b"stats",
    ],
    answers: b"ok\nok\nok\nok\nok\naccepted 1000000001\naccepted 1000000002\naccepted 1000000003\n\
        removed 1000000001 dropped 1000000002 1000000003\naccepted 1000000004\naccepted 1000000005\n\
        accepted 1000000006\nkept 1000000004 1000000005 1000000006 dropped\n\
        kept 1000000004 1000000005 1000000006 dropped\nkept 1000000005 1000000006 dropped 1000000004\n\
        stats 2 362 999638 1000000006 10\n",
};

// Conversations, and at how many of their lines an answer may be lost. A submit under another name than the first of its id
// stores that name.
const GROWING: [(Talk, u64); 7] = [
    (CHANGES, 0),
    (LONG, 4),
    (READS, 0),
    (BLOCKS, 0),
    (REPORTS, 1),
    (GIVEN, 0),
    (STAGED, 0),
];

/// The least number of allocations of these conversations.
pub const FEWEST: u64 = 20;

// The greatest number of allocations outside of answers: when all conversations go on, and when they come back.
const MOST_OUTSIDE: u64 = 3;

/// The fault's number and what is written; none if an allocation failed outside of the answers.
pub type Told = Option<(u64, Vec<u8, Global>)>;

// No fault has this number: the device was left open, or couldn't keep an answer.
const NOT_HELD: u64 = 100;

/// How the conversation of these lines ended, and the answers. Its device must have been closed. The pool's history is written to
/// the file, if there is one. The allocation with the number `nth` fails.
pub fn hold_patiently<R: Threads + Wait + Sync>(
    rt: &R,
    memory: Memory,
    alloc: Global,
    history: Option<File>,
    lines: &'static [&'static [u8]],
    nth: u64,
) -> Told {
    let device = Patient {
        lines,
        next: 0,
        told: Vec::new(alloc),
        turn: Turn::Listens,
        is_lost: false,
        is_closed: false,
    };
    let held = hold(rt, memory, alloc, history, device, Vec::new(memory), nth);
    let Ended { fault, device } = only_one(held)?;
    let Patient {
        lines: _,
        next: _,
        told,
        turn: _,
        is_lost,
        is_closed,
    } = device;
    if is_closed && !is_lost {
        Some((fault, told))
    } else {
        Some((NOT_HELD, told))
    }
}

// Whether these are the answers before a line whose answer is lost.
fn is_front(told: &[u8], answers: &[u8]) -> bool {
    told.len() < answers.len()
        && answers.starts_with(told)
        && (told.is_empty() || told.ends_with(b"\n"))
}

// These must be the answers, or those before a line whose answer is lost.
fn ending(answers: &[u8], told: &Told) -> Ending {
    match told {
        Some((0, told)) => Ending::of(told.as_slice() == answers, false),
        Some((LOST, told)) => Ending::of(false, is_front(told, answers)),
        Some(_) => Ending::Wrong,
        None => Ending::NoMemory,
    }
}

/// The conversations so far in which an allocation failed.
#[derive(Clone, Copy)]
pub struct Failed {
    /// How many of the allocations were outside of the answers.
    pub outside: u64,
    /// At how many lines the answer was lost.
    pub lost: u64,
    // What was written before the last of these.
    before: Option<usize>,
}

/// No conversation yet.
pub const NONE_FAILED: Failed = Failed {
    outside: 0,
    lost: 0,
    before: None,
};

// One more conversation.
fn after(failed: Failed, told: &Told) -> Failed {
    let Some((fault, told)) = told else {
        let outside = failed.outside.saturating_add(1);
        return Failed { outside, ..failed };
    };
    let before = Some(told.len());
    if *fault == 0 || failed.before == before {
        return failed;
    }
    Failed {
        outside: failed.outside,
        lost: failed.lost.saturating_add(1),
        before,
    }
}

/// How one more conversation ended. It is counted if an allocation failed.
pub fn count_in(failed: &mut Failed, answers: &[u8], told: &Told) -> Ending {
    *failed = after(*failed, told);
    ending(answers, told)
}

// Each allocation fails once: whether there are many, at how many lines the answer is lost, and whether few are outside of the
// answers. None if an answer isn't right.
fn see_growths<R: Threads + Wait + Sync>(
    rt: &R,
    memory: Memory,
    alloc: Global,
    talk: Talk,
) -> Option<Seen> {
    let mut failed = NONE_FAILED;
    for nth in 1..MAX_GROWTHS {
        let told = hold_patiently(rt, memory, alloc, None, talk.lines, nth);
        let is_met = !memory.waits();
        memory.refuse(0);
        let is_right = match count_in(&mut failed, talk.answers, &told) {
            Ending::Usual => true,
            Ending::NoMemory => is_met,
            Ending::Wrong => false,
        };
        if !is_right {
            return None;
        }
        if !is_met {
            let are_many = u64::from(FEWEST < nth);
            let are_few = u64::from(failed.outside <= MOST_OUTSIDE);
            return Some([are_many, failed.lost, are_few, 0, 0, 0]);
        }
    }
    None
}

fn held_growths<R: Print + Threads + Wait + Sync>(
    rt: &R,
    memory: Memory,
    alloc: Global,
) -> io::Result<u64> {
    let mut held: u64 = 0;
    for (talk, lost) in GROWING {
        let seen = see_growths(rt, memory, alloc, talk);
        let wanted = [1, lost, 1, 0, 0, 0];
        held = held.saturating_add(count(rt, talk.name, seen, wanted)?);
    }
    Ok(held)
}

// The operator's lines. Only its first read opens the pool. It makes no change.
const OPERATOR: &[u8] =
    b"block 400\nout g0 100\nout g1 7\ntx a in=g0 out=100\ntx b in=a.0 out=100\ntx s in=g1 out=7 badsign=7\n\
    lookup 2\nout late 5\nadopt 1 b\nback 1\nsubmit s\ntake 0\nshow a\nsubmit nobody\nreset\nshow a\nids\n\
    offer 0 1000\n";

const OPERATOR_ANSWERS: &[u8] =
    b"ok\nok\nok\nok\nok\nok\nlookup none\nbad 8: an output stands above the first command\n\
    refused adopt b missing 0\nrefused back 0\nrefused signature 7\ntake 0 0\n\
    tx 181 f8f11283a19134b80b18f90f8ab47ef21a315808b705b442408dadb4fffe20b1 010001000000000000000000000000000000\
    000000000000000000000000000000000000000001010003030000000303000000014bf5122f344554c53bde2ebb8cd2b7e3d1600ad6\
    31c385a5d7cce23c7785459a3e4479e6b5a0a3bed1440325ca4bb09327a1dfb39c28bdd59de53a687ade010500010000000000000000\
    0000000000000000000000000000000000000000000000000000000000000000640000000000000000ffffffffffffffff0000000000\
    00\n\
    bad 14: no transaction 'nobody'\nok\nbad 1: no transaction 'a'\nok\noffer\n";

// The lines of a client that makes the only change.
const WRITER: &[u8] =
    b"bytes a 0100010000000000000000000000000000000000000000000000000000000000000000000000010100030300000003030000\
    00014bf5122f344554c53bde2ebb8cd2b7e3d1600ad631c385a5d7cce23c7785459a3e4479e6b5a0a3bed1440325ca4bb09327a1dfb3\
    9c28bdd59de53a687ade0105000100000000000000000000000000000000000000000000000000000000000000000000000000000000\
    640000000000000000ffffffffffffffff000000000000\n\
    submit a\nsubmit a\nstats\nsnapshot\noffer 9 1000\noffer 9 1000\nremove a\nadopt 1 a\n\
    give 0100010000000000000000000000000000000000000000000000000000000000000000000000010100030300000003030000000\
    14bf5122f344554c53bde2ebb8cd2b7e3d1600ad631c385a5d7cce23c7785459a3e4479e6b5a0a3bed1440325ca4bb09327a1dfb39c2\
    8bdd59de53a687ade0105000100000000000000000000000000000000000000000000000000000000000000000000000000000000640\
    000000000000000ffffffffffffffff000000000000\n\
    check a\nids\nlookup 1\nnames\nforget a\n\
    show #f8f11283a19134b80b18f90f8ab47ef21a315808b705b442408dadb4fffe20b1\nreset\noffer 9 1000\nback 0\nstats\n\
    block 9\n";

const WRITER_ANSWERS: &[u8] =
    b"tx 181 f8f11283a19134b80b18f90f8ab47ef21a315808b705b442408dadb4fffe20b1\naccepted 1\nrefused already 1\n\
    stats 1 181 619 1 1 already 1\nsnapshot 1 181 1 1:a\noffer 1:a\noffer\n\
    bad 8: only the operator may ask this\nbad 9: only the operator may ask this\n\
    refused already 1 f8f11283a19134b80b18f90f8ab47ef21a315808b705b442408dadb4fffe20b1\nrefused already 1\nok\n\
    lookup f8f11283a19134b80b18f90f8ab47ef21a315808b705b442408dadb4fffe20b1\nok\nforgotten 0\n\
    tx 181 f8f11283a19134b80b18f90f8ab47ef21a315808b705b442408dadb4fffe20b1 010001000000000000000000000000000000\
    000000000000000000000000000000000000000001010003030000000303000000014bf5122f344554c53bde2ebb8cd2b7e3d1600ad6\
    31c385a5d7cce23c7785459a3e4479e6b5a0a3bed1440325ca4bb09327a1dfb39c28bdd59de53a687ade010500010000000000000000\
    0000000000000000000000000000000000000000000000000000000000000000640000000000000000ffffffffffffffff0000000000\
    00\n\
    ok\noffer 1:f8f11283a19134b80b18f90f8ab47ef21a315808b705b442408dadb4fffe20b1\n\
    bad 2: only the operator may ask this\nstats 1 181 619 1 1 already 2\n\
    bad 4: a setting stands above the first command\n";

// The lines of a client that changes nothing.
const READER: &[u8] = b"block 300\nout g2 5\n\
    utxo 1111111111111111111111111111111111111111111111111111111111111111#0 4bf5122f344554c53bde2ebb8cd2b7e3d160\
    0ad631c385a5d7cce23c7785459a3e4479e6b5a0a3bed1440325ca4bb09327a1dfb39c28bdd59de53a687ade01050001000000000000\
    0000000000000000000000000000000000000000000000000000000000000000000009\n\
    remove #f8f11283a19134b80b18f90f8ab47ef21a315808b705b442408dadb4fffe20b1\nsync 1\nadopt 1\nback 0\n\
    script five 054002000000000000000520\ndata five 010000000000000005\ntx z in=g0 out=5\nbytes c 03\ngive 00\n\
    submit c\n\
    bytes k 0100010000000000000000000000000000000000000000000000000000000000000000000700010100030300000003030000\
    00014bf5122f344554c53bde2ebb8cd2b7e3d1600ad631c385a5d7cce23c7785459a3e4479e6b5a0a3bed1440325ca4bb09327a1dfb3\
    9c28bdd59de53a687ade0105000100000000000000000000000000000000000000000000000000000000000000000000000000000000\
    050000000000000000ffffffffffffffff000000000000\n\
    check k\nsubmit k\n\
    give 0100010000000000000000000000000000000000000000000000000000000000000000000700010100030300000003030000000\
    14bf5122f344554c53bde2ebb8cd2b7e3d1600ad631c385a5d7cce23c7785459a3e4479e6b5a0a3bed1440325ca4bb09327a1dfb39c2\
    8bdd59de53a687ade0105000100000000000000000000000000000000000000000000000000000000000000000000000000000000050\
    000000000000000ffffffffffffffff000000000000\n\
    lookup 9\nhas #6e6d73443f323fcd8eecdb8632983802ced21dc9fa1bbc6cfb1ff671626b3ad2\noffer 0 0\ntake 0\n\
    forge 0\nafter 9\nshow #6e6d73443f323fcd8eecdb8632983802ced21dc9fa1bbc6cfb1ff671626b3ad2\nforget k\nreset\n\
    nonsense\nshow k\nids\nnames\n";

const READER_ANSWERS: &[u8] =
    b"bad 1: a setting stands above the first command\nbad 2: an output stands above the first command\n\
    bad 3: an output stands above the first command\nbad 4: only the operator may ask this\n\
    bad 5: only the operator may ask this\nbad 6: only the operator may ask this\n\
    bad 7: only the operator may ask this\nok\nok\nbad 10: no output 'g0'\nundecodable version\n\
    undecodable version\nbad 13: no transaction 'c'\n\
    tx 181 6e6d73443f323fcd8eecdb8632983802ced21dc9fa1bbc6cfb1ff671626b3ad2\nrefused missing 0\n\
    refused missing 0\nrefused missing 0 6e6d73443f323fcd8eecdb8632983802ced21dc9fa1bbc6cfb1ff671626b3ad2\n\
    lookup none\nhas no\noffer\ntake 0 0\nblock 0 0\nafter\n\
    bad 24: no transaction #6e6d73443f323fcd8eecdb8632983802ced21dc9fa1bbc6cfb1ff671626b3ad2 in the pool\n\
    forgotten 1\nok\nbad 1: no line begins with 'nonsense'\nbad 2: no transaction 'k'\nok\nok\n";

// The answers to the first two of these lines, which have 19 bytes.
const TWO_ANSWERS: &[u8] = b"bad 1: a setting stands above the first command\n\
    bad 2: an output stands above the first command\n";

// How often all go on at once.
const ROUNDS: u64 = 8;

// What fails in the second client's conversation, its fault, and what is written. The others don't notice it.
const FAILS: [(Fails, u64, &[u8]); 2] = [
    (Fails { read: 20, ..NEVER }, 3, TWO_ANSWERS),
    (Fails { flush: 2, ..NEVER }, 4, TWO_ANSWERS),
];

// The devices of the clients.
fn clients(memory: Memory, alloc: Global, fails: Fails) -> Option<Vec<Bytes, Memory>>
    ensures listen { IfSome result (λ all. All (λ s. s.turn ≡ Listens) all.items) }
    ensures len { IfSome result (λ all. length all.items ≡ 2) }
{
    let writer = streams(alloc, FailingReader::of(WRITER), 7, NEVER)?;
    let reader = streams(alloc, FailingReader::of(READER), 1, fails)?;
    let mut all = Vec::new(memory);
    all.push(writer).ok()?;
    all.push(reader).ok()?;
    Some(all)
}

// An operator and two clients at once.
fn hold_three<R: Threads + Wait + Sync>(
    rt: &R,
    memory: Memory,
    alloc: Global,
    fails: Fails,
) -> Held<Bytes> {
    let operator = streams(alloc, FailingReader::of(OPERATOR), 4096, NEVER)?;
    let clients = clients(memory, alloc, fails)?;
    hold(rt, memory, alloc, None, operator, clients, 0)
}

// Whether the conversations ended like this. Prints what those wrote that didn't.
fn are_written(rt: &impl Print, held: Held<Bytes>, wanted: &[(u64, &[u8])]) -> io::Result<bool> {
    let mut seen: usize = 0;
    for Ended { fault, device } in held.into_iter().flatten() {
        let told = written(device);
        let answers = wanted.get(seen).copied().unwrap_or((0, b"nothing"));
        if !is_written(rt, "conversations at once", (fault, &told), answers)? {
            return Ok(false);
        }
        seen = seen.saturating_add(1);
    }
    if seen != wanted.len() {
        println!(rt; "conversations at once: {seen} ended")?;
    }
    Ok(seen == wanted.len())
}

// Whether the three conversations end as they should if the second client's ends like this.
fn is_held<R: Print + Threads + Wait + Sync>(
    rt: &R,
    memory: Memory,
    alloc: Global,
    fails: Fails,
    reader: (u64, &[u8]),
) -> io::Result<bool> {
    let held = hold_three(rt, memory, alloc, fails);
    let others = [(0, OPERATOR_ANSWERS), (0, WRITER_ANSWERS)];
    let [operator, writer] = others;
    are_written(rt, held, &[operator, writer, reader])
}

fn held_rounds<R: Print + Threads + Wait + Sync>(
    rt: &R,
    memory: Memory,
    alloc: Global,
) -> io::Result<u64> {
    let mut held: u64 = 0;
    for _ in 0..ROUNDS {
        let is_held = is_held(rt, memory, alloc, NEVER, (0, READER_ANSWERS))?;
        held = held.saturating_add(u64::from(is_held));
    }
    Ok(held)
}

fn held_fails<R: Print + Threads + Wait + Sync>(
    rt: &R,
    memory: Memory,
    alloc: Global,
) -> io::Result<u64> {
    let mut held: u64 = 0;
    for (fails, fault, told) in FAILS {
        let is_held = is_held(rt, memory, alloc, fails, (fault, told))?;
        held = held.saturating_add(u64::from(is_held));
    }
    Ok(held)
}

/// How many cases hold.
pub fn held<R: Print + Threads + Wait + Sync>(
    rt: &R,
    memory: Memory,
    alloc: Global,
) -> io::Result<u64> {
    let holder = Holder {
        memory,
        alloc,
        way: Way::Operator,
    };
    let rows = held_rows(rt, holder)?;
    let failures = held_failures(rt, holder)?;
    let growths = held_growths(rt, memory, alloc)?;
    let rounds = held_rounds(rt, memory, alloc)?;
    let fails = held_fails(rt, memory, alloc)?;
    Ok(
        rows.saturating_add(failures)
            .saturating_add(growths)
            .saturating_add(rounds)
            .saturating_add(fails),
    )
}
