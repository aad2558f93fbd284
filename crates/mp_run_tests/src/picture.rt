//! Pictures of races: if an allocation fails, the text stays as it was.
use mp_memory::Memory;
use mp_race::picture::{Kind, Mark, put_picture};
use mp_testing::{Call, Seen, TrialFault, Trialled, count, under_each_refusal};
use std::io;

// The text before the picture.
const BEFORE: &[u8] = b"before";

// The caller and the place of a mark of each kind: three entries, and a refusal after the second.
const MARKS: [(u32, u64, Kind); 4] = [
    (0, 0, Kind::Accepted),
    (1, 1, Kind::Removed),
    (1, 2, Kind::Refused),
    (0, 2, Kind::Synced),
];

fn marks() -> [Mark; 4] {
    MARKS.map(|(worker, place, kind)| Mark {
        worker,
        place,
        kind,
    })
}

#[derive(Drop)]
struct Drawing {
    memory: Memory,
}

// Whether the text begins with what was there before, whether a picture ends it, and whether there is nothing else.
fn look_at(text: &[u8]) -> Seen {
    let begins = text.starts_with(BEFORE);
    let ends = text.ends_with(b"</svg>\n");
    [
        u64::from(begins),
        u64::from(ends),
        u64::from(text == BEFORE),
        0,
        0,
        0,
    ]
}

impl Call for Drawing {
    type Value = Vec<u8, Memory>;

    fn make(&self) -> Option<Vec<u8, Memory>> {
        Vec::from_slice(self.memory, BEFORE).ok()
    }

    fn call(&self, text: &mut Vec<u8, Memory>) -> Option<Seen> {
        if put_picture(text, 2, 3, &marks()).is_err() {
            return None;
        }
        Some(look_at(text))
    }

    fn look(&self, text: &Vec<u8, Memory>) -> Seen {
        look_at(text)
    }
}

fn tried(memory: Memory) -> Result<Trialled, TrialFault> {
    under_each_refusal(&memory, &Drawing { memory })
}

// What is seen of the text then, if it made several allocations.
fn drawn(memory: Memory) -> Option<Seen> {
    let Ok(done) = tried(memory) else {
        return None;
    };
    if done.growths > 1 {
        Some(done.answer)
    } else {
        None
    }
}

/// How many cases hold.
pub fn held(rt: &impl Print, memory: Memory) -> io::Result<u64> {
    count(rt, "a picture", drawn(memory), [1, 1, 0, 0, 0, 0])
}
