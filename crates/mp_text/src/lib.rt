//! The text of a scenario: its bytes, its lines, its words, and the numbers and names among them.
#![tactic(auto)]

mod input;
mod line_input;
mod lines;
mod names;
mod numbers;
mod output;
mod scan;
mod text;
mod words;

pub use input::{InputFault, MAX_BYTES, MAX_READS, read_all};
pub use line_input::{LineRead, ReadFault, read_line};
pub use lines::{MAX_LINE_BYTES, first_line, is_clean};
pub use names::{are_letters_or_digits, is_name};
pub use numbers::{number, quantity};
pub use output::{WriteFault, write_all};
pub use text::Text;
pub use words::{first_word, is_comment_or_blank};
