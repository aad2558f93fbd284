//! The answer to a line.

use crate::texts::{NO_MEMORY, OK};
use mp_text::Text;

/// The answer to a line.
#[derive(Drop)]
pub enum Answer {
    /// There is nothing to report.
    Done,
    /// One line of text.
    Line(Text),
    /// An allocation failed, and nothing has changed.
    NoMemory,
}

impl Answer {
    ghost use Rattle.std.specs.Prelude.{◌≡◌};
    ghost use Rattle.mp_serve.specs.Inside.Answer.{text_of};

    /// Its text, with the line feed.
    pub fn text(&self) -> &[u8]
        ensures { result.now ≡ text_of self.now }
    {
        match self {
            Answer::Done => OK,
            Answer::Line(text) => text,
            Answer::NoMemory => NO_MEMORY,
        }
    }
}
