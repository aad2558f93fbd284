//! Cases as rows: the observed and the expected result of each.
use crate::trial::Seen;
use std::io;

/// Returns 1 if the observed result is the expected one. Else prints the case, and returns 0.
pub fn count(rt: &impl Print, name: &str, seen: Option<Seen>, wanted: Seen) -> io::Result<u64> {
    if seen == Some(wanted) {
        return Ok(1);
    }
    println!(rt; "{name}: found {seen:?}, wanted {wanted:?}")?;
    Ok(0)
}
