//! The lines that commands and queries write: the pool's answers and its content.
#![tactic(auto)]

mod answers;
mod items;
mod queries;
mod refusals;
mod words;

pub use answers::{answer_line, given_refused_line, given_reply_line, put_reply, reply_line};
pub use items::{put_found, put_has, put_id, put_item, put_items, put_sized, put_tx_name};
pub use queries::{kept_line, query_line};
pub use refusals::{REFUSAL_WORDS, REFUSALS, put_refusal, refusal_place};
pub use words::{put_number, put_word};
