//! The cost of a name: about the same among many names as among few.
use crate::names::{name_of, payment};
use crate::rows::Row;
use mp_memory::{Memory, NoMemory};
use mp_names::{Binding, Name, NamedDatum, NamedScript, Names};
use mp_testing::{opening, script, unit};
use mp_tx::Salt;
use std::rt::Clock;
use std::time::{Duration, Instant};

// How many names are declared before.
const FEW: u32 = 200;

const MANY: u32 = 20_000;

// How many steps are taken each time. The shortest of several times counts.
const STEPS: u32 = 100;

const TIMES: u32 = 9;

// A step may seem this many times as expensive as it is, since the machine does other things too.
const LEEWAY: u128 = 12;

#[derive(Clone, Copy)]
enum Step {
    LookUp,
    // Forgets a name, and declares it again.
    Forget,
    // Declares a script under a new name.
    Script,
    // Declares a datum under a new name.
    Datum,
}

fn declare(names: &mut Names, memory: Memory, number: u32) -> Result<(), NoMemory> {
    let name = Name::of(memory, &name_of(number))?;
    names.declare(name, Binding::Opening(opening(0), payment(memory)?))
}

fn declare_script(names: &mut Names, memory: Memory, number: u32) -> Result<(), NoMemory> {
    let name = Name::of(memory, &name_of(number))?;
    let script = script(memory)?;
    names.declare_script(NamedScript { name, script })
}

fn declare_datum(names: &mut Names, memory: Memory, number: u32) -> Result<(), NoMemory> {
    let name = Name::of(memory, &name_of(number))?;
    let datum = unit(memory)?;
    names.declare_datum(NamedDatum { name, datum })
}

fn forget(names: &mut Names, memory: Memory, number: u32) -> Result<bool, NoMemory> {
    let mut goes = Vec::new(memory);
    goes.push(Name::of(memory, &name_of(number))?)?;
    let gone = names.forget(&goes);
    declare(names, memory, number)?;
    Ok(gone == 1)
}

fn declared(memory: Memory, count: u32) -> Result<Names, NoMemory> {
    let mut names = Names::new(memory, Salt::new(7))?;
    for number in 0..count {
        declare(&mut names, memory, number)?;
        declare_script(&mut names, memory, number)?;
        declare_datum(&mut names, memory, number)?;
    }
    Ok(names)
}

// Takes the step on a name from the middle, or on a new one. Returns whether that worked.
fn take(
    names: &mut Names,
    memory: Memory,
    count: u32,
    step: Step,
    number: u32,
) -> Result<bool, NoMemory> {
    let known = (count / 2).wrapping_add(number % STEPS);
    let new = count.wrapping_add(number);
    match step {
        Step::LookUp => Ok(names.binding(&name_of(known)).is_some()),
        Step::Forget => forget(names, memory, known),
        Step::Script => {
            let is_new = names.is_new_script(&name_of(new));
            declare_script(names, memory, new)?;
            Ok(is_new)
        }
        Step::Datum => {
            let is_new = names.is_new_datum(&name_of(new));
            declare_datum(names, memory, new)?;
            Ok(is_new)
        }
    }
}

// How long the steps take from this number on, or `None` if one doesn't work.
fn time(
    clock: &impl Clock,
    names: &mut Names,
    memory: Memory,
    count: u32,
    step: Step,
    first: u32,
) -> Option<Duration> {
    let start = Instant::now(clock).ok()?;
    let mut worked: u32 = 0;
    for number in 0..STEPS {
        let number = first.wrapping_add(number);
        if take(names, memory, count, step, number).ok()? {
            worked = worked.wrapping_add(1);
        }
    }
    let time = start.elapsed(clock).ok()?;
    if worked == STEPS { Some(time) } else { None }
}

fn least(clock: &impl Clock, memory: Memory, count: u32, step: Step) -> Option<u128> {
    let mut names = declared(memory, count).ok()?;
    let mut least = u128::MAX;
    for turn in 0..TIMES {
        let first = turn.wrapping_mul(STEPS);
        let time = time(clock, &mut names, memory, count, step, first)?;
        least = least.min(time.as_nanos());
    }
    Some(least)
}

// Whether the step takes at most `LEEWAY` times as long among many names.
fn is_alike(clock: &impl Clock, memory: Memory, step: Step) -> Option<[u64; 1]> {
    let few = least(clock, memory, FEW, step)?;
    let many = least(clock, memory, MANY, step)?;
    Some([u64::from(many <= few.saturating_mul(LEEWAY))])
}

/// Steps among 200 and among 20,000 names.
pub fn steps(clock: &impl Clock, memory: Memory) -> [Row; 4] {
    [
        ("a name is looked up", Step::LookUp),
        ("a name is forgotten", Step::Forget),
        ("a script is declared", Step::Script),
        ("a datum is declared", Step::Datum),
    ]
    .map(|(name, step)| Row::seen(name, is_alike(clock, memory, step), [1]))
}
