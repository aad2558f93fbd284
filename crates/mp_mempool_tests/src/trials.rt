//! Calls with each allocation failing: the observed and the expected results.
use mp_testing::{Seen, TrialFault, Trialled};
use std::io;

/// The result of a trial of a call.
pub type Trial = Result<Trialled, TrialFault>;

fn holds(trial: &Trial, wanted: Seen, least: u64) -> bool {
    match trial {
        Ok(done) => done.answer == wanted && least <= done.growths,
        Err(_) => false,
    }
}

/// Returns 1 if the answer of the call is the expected one whichever allocation fails, and the call makes at least this
/// many allocations. Else prints the case, and returns 0.
pub fn count_trial(
    rt: &impl Print,
    name: &str,
    trial: Trial,
    wanted: Seen,
    least: u64,
) -> io::Result<u64> {
    if holds(&trial, wanted, least) {
        return Ok(1);
    }
    println!(rt; "{name}: found {trial:?}, wanted {wanted:?} and {least} growths at least")?;
    Ok(0)
}
