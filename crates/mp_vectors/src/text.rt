//! The lines of a text, and the words of a line.

use crate::answer::is_told;
use crate::pieces;
use crate::wrong::{Result, Wrong};
use mp_memory::Memory;
use mp_text::{first_line, first_word, is_clean, is_comment_or_blank};

// The pieces of a text.
#[derive(Clone, Copy)]
enum Cut {
    Lines,
    Words,
}

// The first line or word, and the rest.
fn first_cut(cut: Cut, text: &[u8]) -> Option<(&[u8], &[u8])> {
    match cut {
        Cut::Lines => first_line(text),
        Cut::Words => first_word(text),
    }
}

// Whether a text is cut into these pieces.
fn is_cut_into(memory: Memory, cut: Cut, text: &[u8], wanted: &str) -> Result<bool> {
    let mut rest = text;
    for word in wanted.split_whitespace() {
        let Some((first, after)) = first_cut(cut, rest) else {
            return Ok(false);
        };
        if !pieces::spell(memory, word, first)? {
            return Ok(false);
        }
        rest = after;
    }
    Ok(first_cut(cut, rest).is_none())
}

/// Whether bytes have these lines or words, or are clean or a comment.
pub fn holds(memory: Memory, given: &str, wanted: &str) -> Result<bool> {
    let (asked, words) = given.split_once(':').ok_or(Wrong("no such word"))?;
    let text = pieces::bytes(memory, words)?;
    match asked {
        "lines" => is_cut_into(memory, Cut::Lines, &text, wanted),
        "words" => is_cut_into(memory, Cut::Words, &text, wanted),
        "clean" => Ok(is_told(is_clean(&text), wanted)),
        "comment" => Ok(is_told(is_comment_or_blank(&text), wanted)),
        _ => Err(Wrong("no such word")),
    }
}
