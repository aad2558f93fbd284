//! Names: the name under which a transaction is reported, names that are forgotten, allocations that fail, and many names.
use crate::rows::Row;
use mp_memory::{Memory, NoMemory};
use mp_names::{Binding, DeclaredTx, Name, NamedScript, Names, Payment};
use mp_script::Script;
use mp_testing::{
    Call, Seen, TrialFault, Trialled, coin, opening, script, transaction, under_each_refusal, unit,
};
use mp_tx::{Salt, Tx};
use std::sync::Arc;

// Two transactions, and names of both. `d` and a letter declare a name for the first, `e` for the second, `o` for an output. `f`
// forgets a name, and `r` reports its transaction under it.
struct Story {
    memory: Memory,
    first: Arc<Tx, Memory>,
    second: Arc<Tx, Memory>,
    names: Names,
    // How many names were forgotten.
    gone: u64,
}

impl Drop for Story {
    fn drop(self) {
        let Story {
            memory: _,
            first: _,
            second: _,
            names: _,
            gone: _,
        } = self;
    }
}

fn made(memory: Memory, index: u16) -> Result<Arc<Tx, Memory>, NoMemory> {
    match transaction(memory, &[opening(index)], &[100]) {
        Ok(tx) => Ok(tx),
        Err(_) => Err(NoMemory),
    }
}

/// A payment of one coin.
pub fn payment(memory: Memory) -> Result<Payment, NoMemory> {
    Ok(Payment {
        value: coin(memory, 1)?,
        script: script(memory)?,
        datum: unit(memory)?,
    })
}

// The first byte of a name, or 0 if it is empty.
fn letter(name: &[u8]) -> u64 {
    match name.first() {
        Some(byte) => u64::from(*byte),
        None => 0,
    }
}

impl Story {
    fn new(memory: Memory, salt: u64) -> Result<Story, NoMemory> {
        Ok(Story {
            memory,
            first: made(memory, 0)?,
            second: made(memory, 1)?,
            names: Names::new(memory, Salt::new(salt))?,
            gone: 0,
        })
    }

    fn declare(&mut self, name: &[u8], tx: Arc<Tx, Memory>) -> Result<(), NoMemory> {
        let name = Name::of(self.memory, name)?;
        let declared = DeclaredTx::of(tx, Vec::new(self.memory));
        self.names.declare(name, Binding::Made(declared))
    }

    fn declare_output(&mut self, name: &[u8]) -> Result<(), NoMemory> {
        let payment = payment(self.memory)?;
        let name = Name::of(self.memory, name)?;
        self.names
            .declare(name, Binding::Opening(opening(0), payment))
    }

    fn forget(&mut self, name: &[u8]) -> Result<(), NoMemory> {
        let mut goes = Vec::new(self.memory);
        goes.push(Name::of(self.memory, name)?)?;
        self.gone = self.gone.wrapping_add(self.names.forget(&goes) as u64);
        Ok(())
    }

    fn take(&mut self, step: &[u8]) -> Result<(), NoMemory> {
        match step {
            [b'd', name @ ..] => {
                let tx = Arc::try_clone(&self.first)?;
                self.declare(name, tx)
            }
            [b'e', name @ ..] => {
                let tx = Arc::try_clone(&self.second)?;
                self.declare(name, tx)
            }
            [b'o', name @ ..] => self.declare_output(name),
            [b'f', name @ ..] => self.forget(name),
            [b'r', name @ ..] => self.names.report(name),
            _ => Ok(()),
        }
    }

    // The names of both, how many names were forgotten, and what the name `a` denotes: an output 1, a transaction 2, nothing 0.
    fn seen(&self) -> [u64; 4] {
        let stands_for = match self.names.binding(b"a") {
            Some(Binding::Opening(_, _)) => 1,
            Some(Binding::Made(_)) => 2,
            None => 0,
        };
        [
            letter(self.names.name_of(self.first.id())),
            letter(self.names.name_of(self.second.id())),
            self.gone,
            stands_for,
        ]
    }
}

fn told(memory: Memory, salt: u64, steps: &[u8]) -> Result<[u64; 4], NoMemory> {
    let mut story = Story::new(memory, salt)?;
    for step in steps.split(|byte| *byte == b' ') {
        story.take(step)?;
    }
    Ok(story.seen())
}

const A: u64 = 97;

const B: u64 = 98;

const C: u64 = 99;

const D: u64 = 100;

const Y: u64 = 121;

const STORIES: [(&str, &[u8], [u64; 4]); 20] = [
    ("the first declared", b"da db ec", [A, C, 0, 2]),
    ("the reported", b"da db ec rb", [B, C, 0, 2]),
    ("the last reported", b"da db ec rb ra", [A, C, 0, 2]),
    ("reported twice", b"da db dd rb rd rb", [B, 0, 0, 2]),
    ("nobody is reported", b"da db rx", [A, 0, 0, 2]),
    ("an output is reported", b"da db ox rx", [A, 0, 0, 2]),
    (
        "the other transaction is reported",
        b"da db ec rc",
        [A, C, 0, 2],
    ),
    ("the first goes", b"da db fa", [B, 0, 1, 0]),
    ("the second goes", b"da db fb", [A, 0, 1, 2]),
    ("both go", b"da db ec fa fb", [0, C, 2, 0]),
    (
        "the second of three goes, then the first",
        b"da db dd fb fa",
        [D, 0, 2, 0],
    ),
    (
        "the third of three goes, then the first",
        b"da db dd fd fa",
        [B, 0, 2, 0],
    ),
    ("the reported goes", b"da db rb fb", [A, 0, 1, 2]),
    ("the other goes", b"da db rb fa", [B, 0, 1, 0]),
    (
        "the reported goes and is declared again",
        b"da db rb fb db",
        [A, 0, 1, 2],
    ),
    (
        "the first goes and is declared again",
        b"da db fa da",
        [B, 0, 1, 2],
    ),
    (
        "declared again for the other",
        b"da db ra fa ea",
        [B, A, 1, 2],
    ),
    ("nobody goes", b"da fx", [A, 0, 0, 2]),
    ("it goes twice", b"da fa fa", [0, 0, 1, 0]),
    ("an output goes", b"oa da fa", [0, 0, 2, 0]),
];

/// The names that are reported, with either salt.
pub fn stories(memory: Memory) -> [Row; 20] {
    STORIES.map(|(name, steps, wanted)| {
        let seen = match (told(memory, 0, steps), told(memory, 7, steps)) {
            (Ok(seen), Ok(same)) if seen == same => Some(seen),
            _ => None,
        };
        Row::seen(name, seen, wanted)
    })
}

// A step after others.
#[derive(Drop)]
struct Step {
    memory: Memory,
    before: &'static [u8],
    step: &'static [u8],
}

fn begun(memory: Memory, steps: &[u8]) -> Result<Story, NoMemory> {
    let mut story = Story::new(memory, 7)?;
    for step in steps.split(|byte| *byte == b' ') {
        story.take(step)?;
    }
    Ok(story)
}

impl Call for Step {
    type Value = Story;

    fn make(&self) -> Option<Story> {
        begun(self.memory, self.before).ok()
    }

    fn call(&self, story: &mut Story) -> Option<Seen> {
        match story.take(self.step) {
            Ok(()) => Some(self.look(story)),
            Err(NoMemory) => None,
        }
    }

    fn look(&self, story: &Story) -> Seen {
        let [first, second, gone, stands_for] = story.seen();
        [first, second, gone, stands_for, 0, 0]
    }
}

fn tried(
    memory: Memory,
    before: &'static [u8],
    step: &'static [u8],
) -> Result<Trialled, TrialFault> {
    under_each_refusal(
        &memory,
        &Step {
            memory,
            before,
            step,
        },
    )
}

/// Each allocation fails. A table makes four for its first entry. A name, its copy as a key, and the numbers under it make one
/// each.
pub fn growths(memory: Memory) -> [Row; 4] {
    [
        Row::tried(
            "a name is declared",
            tried(memory, b"", b"da"),
            [A, 0, 0, 2],
            14,
        ),
        Row::tried("another one", tried(memory, b"db", b"da"), [B, 0, 0, 2], 3),
        Row::tried(
            "a name is reported",
            tried(memory, b"da db", b"rb"),
            [B, 0, 0, 2],
            5,
        ),
        Row::tried(
            "a name goes",
            tried(memory, b"da db rb", b"fb"),
            [A, 0, 1, 2],
            2,
        ),
    ]
}

/// A name of a letter and five more.
pub fn name_of(number: u32) -> [u8; 6] {
    let mut name = [b'n'; 6];
    let mut left = number;
    for byte in name.iter_mut().skip(1) {
        *byte = b'a' + (left % 26) as u8;
        left /= 26;
    }
    name
}

const MANY: u32 = 20_000;

const OF_ONE: u32 = 2_000;

// All names are of one transaction. Each time one is forgotten, the first that is left is looked up.
fn emptied(memory: Memory) -> Result<[u64; 3], NoMemory> {
    let mut story = Story::new(memory, 7)?;
    for number in 0..OF_ONE {
        let tx = Arc::try_clone(&story.first)?;
        story.declare(&name_of(number), tx)?;
    }
    let mut right = 0u64;
    for number in 0..OF_ONE {
        let is_first = story.names.name_of(story.first.id()) == name_of(number).as_slice();
        right = right.wrapping_add(u64::from(is_first));
        story.forget(&name_of(number))?;
    }
    Ok([
        right,
        story.gone,
        letter(story.names.name_of(story.first.id())),
    ])
}

// Other names are forgotten, one by one. The cost depends on them, and not on what is declared.
fn thinned(memory: Memory) -> Result<[u64; 2], NoMemory> {
    let mut story = Story::new(memory, 7)?;
    for number in 0..MANY {
        story.declare_output(&name_of(number))?;
    }
    for _ in 0..MANY {
        story.forget(b"nobody")?;
    }
    for number in 0..MANY {
        if number % 2 == 1 {
            story.forget(&name_of(number))?;
        }
    }
    Ok([
        story.gone,
        u64::from(story.names.binding(&name_of(2)).is_some()),
    ])
}

const FIVE: &[u8] = &[5, 0x40, 2, 0, 0, 0, 0, 0, 0, 0, 5, 0x20];

// Scripts with one hash, and one with the hash of `yes`.
fn scripts(memory: Memory) -> Result<[u64; 4], NoMemory> {
    let mut names = Names::new(memory, Salt::new(7))?;
    for (name, bytes) in [(b"a", FIVE), (b"b", FIVE), (b"c", &[1])] {
        let script = Script::decode(memory, bytes).or(Err(NoMemory))?;
        let name = Name::of(memory, name.as_slice())?;
        names.declare_script(NamedScript { name, script })?;
    }
    let mut told = [0; 4];
    for (place, word) in told.iter_mut().zip([b"a", b"b", b"c", b"d"]) {
        *place = match names.script(word.as_slice()) {
            Ok(script) => letter(names.policy_name(script.hash())),
            Err(_) => 0,
        };
    }
    Ok(told)
}

/// Many names, and scripts.
pub fn many(memory: Memory) -> [Row; 3] {
    [
        Row::seen(
            "2,000 names of one transaction",
            emptied(memory).ok(),
            [2_000, 2_000, 0],
        ),
        Row::seen(
            "20,000 forgets of nobody, and 10,000 of names",
            thinned(memory).ok(),
            [10_000, 1],
        ),
        Row::seen(
            "the first script with a hash",
            scripts(memory).ok(),
            [A, A, Y, 0],
        ),
    ]
}
