//! The command line of the program: the words that it accepts, and what they ask for.

mod asked;
mod program;

pub use asked::{Asked, ClientFiles, Input, MOST_NAMES, SchemeName, Wishes, parse_words};
