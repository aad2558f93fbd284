//! The words of a line.

ghost use Rattle.std.specs.Prelude.{◌≡◌, ◌≢◌, ℕ, ◌↔◌, ◌<◌, ◌≤◌, [], ◌∷◌, length, IsNone, IfSome, slice_get, Some};
ghost use Rattle.mp_text.specs.Words.{words_of, IsWord, is_comment_or_blank};

use crate::scan::{length_before, run_length};

const SPACE: u8 = b' ';

const COMMENT: u8 = b'#';

// The line without its leading spaces.
fn trimmed(line: &[u8]) -> &[u8]
    ensures same { words_of result.now ≡ words_of line.now }
    ensures within { length result.now ≤ length line.now }
    ensures begins { slice_get result.now 0 ≢ Some 32 }
{
    &line[run_length(line, SPACE)..]
}

// The first word of a line that begins with one, and the rest of the line.
fn cut(line: &[u8]) -> (&[u8], &[u8])
    requires some { 0 < length line.now }
    requires begins { slice_get line.now 0 ≢ Some 32 }
    ensures first { words_of line.now ≡ result.0.now ∷ words_of result.1.now }
    ensures word { IsWord result.0.now }
    ensures shorter { length result.1.now < length line.now }
{
    line.split_at(length_before(line, SPACE))
}

/// Returns the first word of a line and the line after it, or `None` if there is no word. Spaces separate words; more spaces,
/// also at the ends, have no meaning.
pub fn first_word(line: &[u8]) -> Option<(&[u8], &[u8])>
    ensures none { IsNone result ↔ (words_of line.now ≡ []) }
    ensures first { IfSome result
        (λ found. words_of line.now ≡ found.0.now ∷ words_of found.1.now) }
    ensures word { IfSome result (λ found. IsWord found.0.now) }
    ensures shorter { IfSome result (λ found. length found.1.now < length line.now) }
{
    let line = trimmed(line);
    if line.is_empty() {
        return None;
    }
    Some(cut(line))
}

/// Whether a line has no word, or its first word begins with `#`.
pub fn is_comment_or_blank(line: &[u8]) -> bool
    ensures { result ≡ is_comment_or_blank line.now }
{
    match first_word(line) {
        Some((word, _)) => word[0] == COMMENT,
        None => true,
    }
}
