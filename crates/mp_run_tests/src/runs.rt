//! Runs of scenarios: devices that fail, the most bytes of an input, and allocations that fail.
use mp_memory::Memory;
use mp_session::{RunFault, run};
use mp_signatures::{Scheme, Signatures};
use mp_testing::{Ending, FailingReader, FailingWriter, Seen, count, fail_each};
use std::alloc::Global;
use std::io;

const SCENARIO: &[u8] = b"out g0 100\ntx a in=g0 out=100\nsubmit a\nsnapshot\n";

const TEXT: &[u8] = b"accepted 1\nsnapshot 1 181 1 1:a\n";

// The read and the write that fail, the number of the fault or 0, and how much of the text is written. Eleven bytes are read at
// once: five reads give the scenario, and a sixth finds its end. Four bytes are written at once: three writes take the first
// line, and six the second.
const FAILURES: [(u64, u64, u64, u64); 17] = [
    (1, 0, 3, 0),
    (2, 0, 3, 0),
    (3, 0, 3, 0),
    (4, 0, 3, 0),
    (5, 0, 3, 0),
    (6, 0, 3, 0),
    (7, 0, 0, 32),
    (0, 1, 4, 0),
    (0, 2, 4, 4),
    (0, 3, 4, 8),
    (0, 4, 4, 11),
    (0, 5, 4, 15),
    (0, 6, 4, 19),
    (0, 7, 4, 23),
    (0, 8, 4, 27),
    (0, 9, 4, 31),
    (0, 10, 0, 32),
];

// How many bytes `x` without a line feed follow a line of 10 bytes and its line feed, and the fault with its line.
const LENGTHS: [(usize, u64, u64); 3] = [
    (16_777_216 - 11, 2, 2),
    (16_777_217 - 11, 3, 0),
    (usize::MAX, 3, 0),
];

// How a run ends: well, or with the number of a fault, and its line or 0.
type Ended = Result<(), (u64, u64)>;

fn run_new<R: io::Read, W: io::Write>(memory: Memory, reader: &mut R, writer: &mut W) -> Ended {
    let Ok(signatures) = Signatures::new(memory, Scheme::Trial) else {
        return Err((RunFault::NoMemory.number(), 0));
    };
    match run(memory, &signatures, reader, writer) {
        Ok(()) => Ok(()),
        Err(RunFault::BadLine(line)) => Err((2, line)),
        Err(fault) => Err((fault.number(), 0)),
    }
}

// The fault, its line, how much was written, and whether that is a prefix of the text.
fn see(ended: Ended, written: &[u8], text: &[u8]) -> Seen {
    let (number, line) = ended.err().unwrap_or((0, 0));
    let is_front = text.starts_with(written);
    [
        number,
        line,
        written.len() as u64,
        u64::from(is_front),
        0,
        0,
    ]
}

// How many bytes a device takes or gives at once, and which of its calls fails.
type Device = (usize, u64);

fn fail_at(memory: Memory, alloc: Global, (given, read): Device, (taken, write): Device) -> Seen {
    let mut reader = FailingReader::of(SCENARIO);
    reader.at_once = given;
    reader.fails_at = read;
    let mut writer = FailingWriter::new(alloc);
    writer.at_once = taken;
    writer.fails_at = write;
    let ended = run_new(memory, &mut reader, &mut writer);
    see(ended, &writer.taken, TEXT)
}

fn held_failures(rt: &impl Print, memory: Memory, alloc: Global) -> io::Result<u64> {
    let mut held: u64 = 0;
    for (read, write, fault, written) in FAILURES {
        let seen = fail_at(memory, alloc, (11, read), (4, write));
        let wanted = [fault, 0, written, 1, 0, 0];
        held = held.saturating_add(count(rt, "a failing device", Some(seen), wanted)?);
    }
    Ok(held)
}

// One byte is read and written at once: 48 reads give the scenario, one more finds its end, and 32 writes take the text.
fn held_reads(rt: &impl Print, memory: Memory, alloc: Global) -> io::Result<u64> {
    let mut held: u64 = 0;
    for read in 1..=50 {
        let seen = fail_at(memory, alloc, (1, read), (1, 0));
        let [fault, written] = if read <= 49 { [3, 0] } else { [0, 32] };
        let wanted = [fault, 0, written, 1, 0, 0];
        held = held.saturating_add(count(rt, "reads of one byte", Some(seen), wanted)?);
    }
    Ok(held)
}

fn held_writes(rt: &impl Print, memory: Memory, alloc: Global) -> io::Result<u64> {
    let mut held: u64 = 0;
    for write in 1..34u64 {
        let seen = fail_at(memory, alloc, (1, 0), (1, write));
        let fault = if write <= 32 { 4 } else { 0 };
        let wanted = [fault, 0, write - 1, 1, 0, 0];
        held = held.saturating_add(count(rt, "writes of one byte", Some(seen), wanted)?);
    }
    Ok(held)
}

fn read_long(memory: Memory, alloc: Global, filler: usize) -> Seen {
    let mut reader = FailingReader::of(b"out g0 100\n");
    reader.filler = filler;
    let mut writer = FailingWriter::new(alloc);
    let ended = run_new(memory, &mut reader, &mut writer);
    see(ended, &writer.taken, b"")
}

fn held_lengths(rt: &impl Print, memory: Memory, alloc: Global) -> io::Result<u64> {
    let mut held: u64 = 0;
    for (filler, fault, line) in LENGTHS {
        let seen = read_long(memory, alloc, filler);
        let wanted = [fault, line, 0, 1, 0, 0];
        held = held.saturating_add(count(rt, "a long input", Some(seen), wanted)?);
    }
    Ok(held)
}

// A scenario and its text.
#[derive(Clone, Copy)]
struct Case {
    name: &'static str,
    scenario: &'static [u8],
    text: &'static [u8],
}

const SUBMITS: Case = Case {
    name: "submits at refused growths",
    scenario: b"out g0 100\ntx a in=g0 out=100\nsubmit a\nsubmit a\nsnapshot\n",
    text: b"accepted 1\nrefused already 1\nsnapshot 1 181 1 1:a\n",
};

// The script asks whether the redeemer is the number 5. The datum is that number. The transaction `a` has 11 bytes more than a
// plain one for the script, and 6 for the redeemer.
const SETTINGS_AND_SCRIPTS: Case = Case {
    name: "settings and scripts at refused growths",
    scenario: b"block 400\nlimit 9\nlast 40\ntick 5\n\
        script five 054002000000000000000520\ndata five 010000000000000005\n\
        out g0 100@five\ntx a in=g0:five/unit/five out=100\n\
        submit a\nremove a\nsync 6 block=198 g0\nsubmit a\nsnapshot\n",
    text: b"accepted 41\nremoved 41 dropped\nkept dropped\naccepted 42\nsnapshot 1 198 42 42:a\n",
};

// The next ledger state has `a.0` and not `g0`. So `a` isn't valid any more, and `b` is.
const REMOVES_AND_SYNCS: Case = Case {
    name: "removes and syncs at refused growths",
    scenario: b"out g0 100\nout g1 50\nout g2 7\ntx a in=g0 out=100\ntx b in=a.0 out=100\n\
        tx c in=g1 out=50\ntx d in=g2 out=7\nsubmit a\nsubmit b\nsubmit c\nsubmit d\n\
        sync 1 a.0 g1 g2\nremove c d c\nsnapshot\n",
    text: b"accepted 1\naccepted 2\naccepted 3\naccepted 4\n\
        kept 2 3 4 dropped 1\nremoved 3 4 dropped\nsnapshot 1 181 4 2:b\n",
};

// Every line that only reads. On a ledger state with only `a.0`, `a` isn't valid, and `b` is.
const QUERIES: Case = Case {
    name: "queries at refused growths",
    scenario: b"out g0 100\nout g1 50\ntx a in=g0 out=100\ntx b in=a.0 out=100\ntx c in=g1 out=50\n\
        submit a\nsubmit b\nafter 1\nlookup 1\nlookup 3\nhas b\nhas c\ntake 361\nforge 362\n\
        offer 1 1000\noffer 9 1000\noffer 9 1000\nfor 0 a.0\nsnapshot\n",
    text: b"accepted 1\naccepted 2\nafter 2:b\nlookup a\nlookup none\nhas yes\nhas no\n\
        take 1 181 1:a\nblock 2 362 1:a 2:b\noffer 1:a\noffer 2:b\noffer\nfor 2:b\n\
        snapshot 2 362 2 1:a 2:b\n",
};

// Every item of a transaction. A plain one has 181 bytes. Here `a` has one more output, of 107. `b` has 17 more for script and
// redeemer, and 45 for a token with a name of 4. `c` has 36 for a reference, 45 and 41 for tokens, 86 for what it forges, 3 for
// the script and 192 for signatures.
const ITEMS: Case = Case {
    name: "items at refused growths",
    scenario: b"tick 3\nscript five 054002000000000000000520\ndata five 010000000000000005\n\
        out g0 100\nout g1 100,7*yes.gold@five/unit\ntx a in=g0 out=30 out=70\n\
        tx b in=g1:five/unit/five out=100,7*yes.gold\n\
        tx c in=a.1 ref=a.0 out=70,5*yes.gold,2*yes forge=5*yes.gold,2*yes policy=yes \
        from=3 to=9 sign=2 sign=1\nsubmit a\nsubmit b\nsubmit c\nsnapshot\n",
    text: b"accepted 1\naccepted 2\naccepted 3\nsnapshot 3 1115 3 1:a 2:b 3:c\n",
};

// Every rule except that of an output which is taken, then the other reasons to refuse: `c` has 277 bytes, and two of 181 are in
// 600.
const REFUSALS: Case = Case {
    name: "refusals at refused growths",
    scenario: b"block 300\nlimit 3\nout g0 100\nout g1 100\nout gn 5@no\n\
        data five 010000000000000005\ntx a in=g0 out=100\ntx b in=a.0 out=100\n\
        tx c in=g1 out=100 sign=5\ntx none out=100\ntx late in=g0 out=100 from=5\n\
        tx below in=g0 out=-100\ntx looks in=g0 ref=a.0 out=100\ntx other in=g0:no out=100\n\
        tx data in=g0:yes/five out=100\ntx forges in=g0 out=100,5*yes forge=5*yes\n\
        tx less in=g0 out=99\ntx more in=g0 out=100,5*yes.gold\n\
        tx signed in=g0 out=100 badsign=7\ntx locked in=gn out=5\n\
        tx policy in=g0 out=100,5*no forge=5*no policy=no\n\
        submit none\nsubmit late\nsubmit below\nsubmit b\nsubmit looks\nsubmit other\n\
        submit data\nsubmit forges\nsubmit less\nsubmit more\nsubmit signed\nsubmit locked\n\
        submit policy\nsubmit a\nsubmit a\nsubmit b\nsubmit c\nremove b\nsubmit c\n",
    text: b"refused no-inputs\nrefused interval\nrefused negative 0\nrefused missing 0\n\
        refused reference 0\nrefused address 0\nrefused datum 0\nrefused no-policy yes\n\
        refused unbalanced coin\nrefused unbalanced yes.gold\nrefused signature 7\n\
        refused validator 0\nrefused policy-script 0\naccepted 1\nrefused already 1\n\
        accepted 2\nrefused full 277 238\nremoved 2 dropped\nrefused history\n",
};

const CASES: [Case; 6] = [
    SUBMITS,
    SETTINGS_AND_SCRIPTS,
    REMOVES_AND_SYNCS,
    QUERIES,
    ITEMS,
    REFUSALS,
];

// The least number of allocations of these scenarios.
const FEWEST: u64 = 10;

fn are_whole_lines(text: &[u8]) -> bool {
    match text.last() {
        Some(byte) => *byte == b'\n',
        None => true,
    }
}

// If an allocation failed, the answers to some first lines are written.
fn ending(ended: Ended, written: &[u8], text: &[u8]) -> Ending {
    match ended {
        Ok(()) => Ending::of(written == text, false),
        Err((1, _)) => Ending::of(false, are_whole_lines(written) && text.starts_with(written)),
        Err(_) => Ending::Wrong,
    }
}

fn run_case(memory: Memory, alloc: Global, case: Case, nth: u64) -> Ending {
    let mut writer = FailingWriter::new(alloc);
    let mut reader = FailingReader::of(case.scenario);
    memory.refuse(nth);
    let ended = run_new(memory, &mut reader, &mut writer);
    ending(ended, &writer.taken, case.text)
}

// The case without a failure, and with each one.
fn see_case(memory: Memory, alloc: Global, case: Case) -> Option<Seen> {
    let mut writer = FailingWriter::new(alloc);
    let mut reader = FailingReader::of(case.scenario);
    let ended = run_new(memory, &mut reader, &mut writer);
    let [fault, ..] = see(ended, &writer.taken, case.text);
    let is_whole = u64::from(writer.taken.as_slice() == case.text);
    let failures = fail_each(&memory, |nth| run_case(memory, alloc, case, nth))?;
    let are_many = u64::from(FEWEST <= failures.all);
    Some([fault, is_whole, are_many, 0, 0, 0])
}

fn held_refusals(rt: &impl Print, memory: Memory, alloc: Global) -> io::Result<u64> {
    let mut held: u64 = 0;
    for case in CASES {
        let seen = see_case(memory, alloc, case);
        held = held.saturating_add(count(rt, case.name, seen, [0, 1, 1, 0, 0, 0])?);
    }
    Ok(held)
}

/// How many cases hold.
pub fn held(rt: &impl Print, memory: Memory, alloc: Global) -> io::Result<u64> {
    let failures = held_failures(rt, memory, alloc)?;
    let reads = held_reads(rt, memory, alloc)?;
    let writes = held_writes(rt, memory, alloc)?;
    let lengths = held_lengths(rt, memory, alloc)?;
    let refusals = held_refusals(rt, memory, alloc)?;
    Ok(
        failures
            .saturating_add(reads)
            .saturating_add(writes)
            .saturating_add(lengths)
            .saturating_add(refusals),
    )
}
