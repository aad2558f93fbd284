//! What a trial finds about a call that behaves in one way or another.
use crate::rows::Row;
use mp_memory::{Memory, NoMemory};
use mp_testing::{Call, Seen, TrialFault, Trialled, under_each_refusal};
use std::sync::atomic::{AtomicU64, Ordering};

// How the call behaves and returns: right, or wrong in one way.
#[derive(Clone, Copy)]
enum Way {
    MakesNoGrowth,
    MakesGrowths(u64),
    HidesTheThird,
    ChangesBeforeTheThird,
    ChangesUnseen,
    RefusesUnasked,
    CountsItsCalls,
    GrowsWithoutEnd,
    HasNoValue,
}

#[derive(Drop)]
struct Adding {
    memory: Memory,
    way: Way,
    calls: AtomicU64,
}

// Each allocation is made by a step of its own, and the value changes last.
fn add(memory: Memory, growths: u64, numbers: &mut Vec<u64, Memory>) -> Result<u64, NoMemory> {
    for growth in 1..growths {
        let _spare = Box::new(memory, growth)?;
    }
    numbers.reserve_exact(1000)?;
    numbers.push(8)?;
    Ok(numbers.len() as u64)
}

fn add_and_grow(memory: Memory, numbers: &mut Vec<u64, Memory>) -> Result<u64, NoMemory> {
    let length = add(memory, 2, numbers)?;
    Ok(*Box::new(memory, length)?)
}

fn grow_and_hide(memory: Memory, numbers: &mut Vec<u64, Memory>) -> Result<u64, NoMemory> {
    let length = add(memory, 2, numbers)?;
    let _ = Box::new(memory, length);
    Ok(length)
}

fn grow_always(memory: Memory) -> Result<u64, NoMemory> {
    if memory.waits() {
        memory.refuse(1);
        let _spare = Box::new(memory, 0u8)?;
    }
    Ok(0)
}

impl Call for Adding {
    type Value = Vec<u64, Memory>;

    fn make(&self) -> Option<Vec<u64, Memory>> {
        match self.way {
            Way::HasNoValue => None,
            _ => Vec::from_slice(self.memory, &[7]).ok(),
        }
    }

    fn call(&self, numbers: &mut Vec<u64, Memory>) -> Option<Seen> {
        let told = match self.way {
            Way::MakesNoGrowth | Way::HasNoValue => Ok(1),
            Way::MakesGrowths(growths) => add(self.memory, growths, numbers),
            Way::HidesTheThird => grow_and_hide(self.memory, numbers),
            Way::ChangesBeforeTheThird | Way::ChangesUnseen => add_and_grow(self.memory, numbers),
            Way::RefusesUnasked => Err(NoMemory),
            Way::CountsItsCalls => Ok(self.calls.fetch_add(1, Ordering::SeqCst)),
            Way::GrowsWithoutEnd => grow_always(self.memory),
        };
        match told {
            Ok(told) => Some([told, 0, 0, 0, 0, 0]),
            Err(NoMemory) => None,
        }
    }

    fn look(&self, numbers: &Vec<u64, Memory>) -> Seen {
        match self.way {
            Way::HidesTheThird | Way::ChangesUnseen => [0; 6],
            _ => [numbers.len() as u64, 0, 0, 0, 0, 0],
        }
    }
}

// The result of the trial. A failure that is still armed afterwards is reported as that of allocation 0.
fn tried(memory: Memory, way: Way) -> Result<Trialled, TrialFault> {
    let adding = Adding {
        memory,
        way,
        calls: AtomicU64::new(0),
    };
    let done = under_each_refusal(&memory, &adding);
    if memory.waits() {
        Err(TrialFault::Swallowed(0))
    } else {
        done
    }
}

/// The trial counts the allocations of calls that handle each failure.
pub fn growths(memory: Memory) -> [Row; 4] {
    [
        Row::tried("no growth", tried(memory, Way::MakesNoGrowth), [1], 0),
        Row::tried("one growth", tried(memory, Way::MakesGrowths(1)), [2], 1),
        Row::tried("two growths", tried(memory, Way::MakesGrowths(2)), [2], 2),
        Row::tried("five growths", tried(memory, Way::MakesGrowths(5)), [2], 5),
    ]
}

/// It finds the fault of every other call.
pub fn faults(memory: Memory) -> [Row; 7] {
    [
        Row::faulty(
            "a hidden refusal",
            tried(memory, Way::HidesTheThird),
            TrialFault::Swallowed(3),
        ),
        Row::faulty(
            "a change",
            tried(memory, Way::ChangesBeforeTheThird),
            TrialFault::Changed(3),
        ),
        Row::faulty(
            "a change unseen",
            tried(memory, Way::ChangesUnseen),
            TrialFault::Differs(3),
        ),
        Row::faulty(
            "no memory unasked",
            tried(memory, Way::RefusesUnasked),
            TrialFault::Unasked,
        ),
        Row::faulty(
            "calls that differ",
            tried(memory, Way::CountsItsCalls),
            TrialFault::Unsteady,
        ),
        Row::faulty(
            "growths without end",
            tried(memory, Way::GrowsWithoutEnd),
            TrialFault::Endless,
        ),
        Row::faulty(
            "no value",
            tried(memory, Way::HasNoValue),
            TrialFault::NotMade,
        ),
    ]
}
