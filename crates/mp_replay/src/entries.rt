//! The lines that record answers.

ghost use Rattle.std.specs.Prelude.{◌≡◌, ℕ, ◌+◌, ◌-◌, ◌^◌, ◌<◌, ◌≤◌, ◌++◌, true, IfOk, IfErr, IfSome, IfNone};
ghost use Rattle.mp_replay.specs.ServedHistory.{IsLineOf, Records, number_front, entry_line};
ghost use Rattle.mp_replay.specs.ReplayFault.{HasFront, IsNoEntry, IsMisrecorded};

use crate::fault::ReplayFault;
use itoa::Buffer;

// How the line of an entry begins.
const ENTRY: &[u8] = b"entry ";

// No pool has more callers.
const MAX_CALLERS: u64 = 64;

// What follows the prefix, if the text begins with it.
fn behind<'a>(text: &'a [u8], front: &[u8]) -> Option<&'a [u8]>
    ensures some { IfSome result (λ rest. text.now ≡ front.now ++ rest.now) }
    ensures none { IfNone result (HasFront text.now front.now → ⊥) }
{
    text.strip_prefix(front)
}

// Whether the text is this line with its line feed.
fn is_line_of(text: &[u8], line: &[u8]) -> bool
    ensures yes { result ≡ true → IsLineOf text.now line.now }
    ensures no { IsLineOf text.now line.now → result ≡ true }
{
    match behind(text, line) {
        Some(rest) => rest == b"\n".as_slice(),
        None => false,
    }
}

// What follows the number and a space, if the text begins with these.
fn behind_number(text: &[u8], number: u64) -> Option<&[u8]>
    ensures some { IfSome result (λ rest. text.now ≡ number_front number ++ rest.now) }
    ensures none { IfNone result (HasFront text.now (number_front number) → ⊥) }
{
    let mut digits = Buffer::new();
    let rest = behind(text, digits.format(number).as_bytes())?;
    behind(rest, b" ")
}

// What follows the number of a caller and a space, if the text begins with these. There are few callers, so it tries each.
fn behind_caller(text: &[u8]) -> Option<&[u8]>
    ensures some { IfSome result (λ rest. (caller : ℕ) × (caller < 64)
        × (text.now ≡ number_front caller ++ rest.now)) }
    ensures none { IfNone result
        ((caller : ℕ) → caller < 64 → HasFront text.now (number_front caller) → ⊥) }
{
    for caller in 0..MAX_CALLERS {
        if let Some(rest) = behind_number(text, caller) {
            return Some(rest);
        }
    }
    None
}

// The answer that the line of this number records, if it is the entry with this place.
fn answer_in(number: u64, place: u64, line: &[u8]) -> Result<&[u8], ReplayFault<'_>>
    ensures ok { IfOk result (λ answer. (caller : ℕ) × (caller < 64)
        × (line.now ≡ entry_line place caller answer.now)) }
    ensures err { IfErr result (IsNoEntry number place line.now) }
{
    let Some(rest) = behind(line, ENTRY) else {
        return Err(ReplayFault::WrongAnswer(number));
    };
    let Some(rest) = behind_number(rest, place) else {
        return Err(ReplayFault::WrongPlace(number));
    };
    match behind_caller(rest) {
        Some(answer) => Ok(answer),
        None => Err(ReplayFault::BadCaller(number)),
    }
}

/// The number of entries after the line of this number, if it records the answer with this text after `entries` entries.
///
/// # Errors
/// `WrongPlace` and `BadCaller` for an entry that lacks these. `WrongAnswer` for another answer.
pub fn count_entry<'a>(
    number: u64,
    entries: u64,
    text: &[u8],
    line: &'a [u8],
) -> Result<u64, ReplayFault<'a>>
    requires { entries < 2 ^ 64 - 1 }
    ensures ok { IfOk result (Records entries text.now line.now) }
    ensures few { IfOk result (λ more. more ≤ entries + 1) }
    ensures err { IfErr result (IsMisrecorded number entries text.now line.now) }
{
    if is_line_of(text, line) {
        return Ok(entries);
    }
    let answer = answer_in(number, entries, line)?;
    if is_line_of(text, answer) {
        Ok(entries + 1)
    } else {
        Err(ReplayFault::WrongAnswer(number))
    }
}
