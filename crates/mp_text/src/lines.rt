//! The lines of a text.

ghost use Rattle.std.specs.Prelude.{◌≡◌, ◌↔◌, ◌<◌, ◌&&◌, [], ◌∷◌, length, nat_le, IsTrue, IsNone, IfSome};
ghost use Rattle.std.specs.List.{list_all};
ghost use Rattle.mp_text.specs.Lines.{lines_of, IsClean, is_clean, is_printable};

use crate::scan::length_before;

const LINE_FEED: u8 = b'\n';

/// The most bytes of a clean line, without its line feed.
pub const MAX_LINE_BYTES: usize = 4096;

/// Returns the first line of a text and the text after it, or `None` if there is no line. A line feed ends its line and belongs
/// to none. The last line may lack it. Nothing else ends a line.
pub fn first_line(text: &[u8]) -> Option<(&[u8], &[u8])>
    ensures none { IsNone result ↔ (lines_of text.now ≡ []) }
    ensures first { IfSome result
        (λ found. lines_of text.now ≡ found.0.now ∷ lines_of found.1.now) }
    ensures shorter { IfSome result (λ found. length found.1.now < length text.now) }
{
    if text.is_empty() {
        return None;
    }
    let end = length_before(text, LINE_FEED);
    if end < text.len() {
        Some((&text[..end], &text[end + 1..]))
    } else {
        Some((text, &text[end..]))
    }
}

// It looks at every byte, so that the compiler can test many at once.
fn are_printable(line: &[u8]) -> bool
    ensures { result ≡ list_all is_printable line.now }
{
    let mut printable = true;
    for &byte in line {
        printable &= b' ' <= byte && byte <= b'~';
    }
    printable
}

/// Whether a line, without its line feed, has at most 4,096 bytes, each from 0x20 to 0x7E.
pub fn is_clean(line: &[u8]) -> bool
    ensures clean { IsTrue result ↔ IsClean line.now }
    ensures test { result ≡ is_clean line.now }
{
    line.len() <= MAX_LINE_BYTES && are_printable(line)
}
