//! The sequential pool: answers to commands that no scenario can give, computed by hand. A scenario's remove names at
//! least one transaction, and its sync can't change the output of a reference.
use mp_seqpool::{Played, play};
use mp_testing::commands::{GUARDED, OF_100, Samples};
use mp_testing::told::{Told, read_answer, read_pool};
use mp_testing::{ACCEPTS_ALL, CONFIG, Seen, count};
use std::io;

// The answers to the guarded commands, on a pool whose guarded output has 100 coin. The validator reads the bundle of
// the output that it locks.
static ROWS: [(&str, Told); 6] = [
    (
        "a submit of what looks at its own output",
        Told::Accepted(1),
    ),
    ("a remove of none", Told::Removed(0, 0)),
    ("a sync with enough", Told::Synced(1, 0)),
    ("a sync with more", Told::Synced(1, 0)),
    ("a sync with too little", Told::Synced(0, 1)),
    ("a submit upon too little", Told::ValidatorRefused(0)),
];

// Runs the guarded commands.
fn play_guarded(samples: &Samples) -> Option<Played> {
    let ledger = samples.ledger(OF_100)?;
    let commands = samples.commands(GUARDED, GUARDED + 6);
    play(samples.memory, CONFIG, ledger, commands, &ACCEPTS_ALL).ok()
}

fn told_at(played: &Played, place: usize) -> Option<Seen> {
    Some(read_answer(played.answers.get(place)?).seen())
}

fn count_answers(rt: &impl Print, played: &Played) -> io::Result<u64> {
    let mut held = 0u64;
    for (place, (name, told)) in ROWS.iter().enumerate() {
        let seen = told_at(played, place);
        held = held.wrapping_add(count(rt, name, seen, told.seen())?);
    }
    Ok(held)
}

fn count_played(rt: &impl Print, played: &Played) -> io::Result<u64> {
    let stands = Some(read_pool(&played.pool));
    let held = count(rt, "the pool then", stands, [0, 0, 1, 5, 0, 0])?;
    Ok(held.wrapping_add(count_answers(rt, played)?))
}

/// The number of cases that hold.
pub fn held(rt: &impl Print, samples: &Samples) -> io::Result<u64> {
    match play_guarded(samples) {
        Some(played) => count_played(rt, &played),
        None => count(rt, "answers", None, [0; 6]),
    }
}
