//! A conversation with a pool, line by line. Each line is answered before the next is read.
#![tactic(auto)]

mod adopting;
mod answer;
mod answering;
mod ask;
mod block;
mod conversation;
mod device;
mod extending;
mod fault;
mod forgetting;
mod former;
mod laws;
mod obeying;
mod output;
mod pool;
mod refused;
mod request;
mod serving;
mod staged;
mod texts;
mod tx_word;
mod used;

pub use answer::Answer;
pub use answering::tell;
pub use ask::{Ask, MAX_LINE_BYTES};
pub use block::{NewBlock, ResolvedBlock, Txs};
pub use conversation::Conversation;
pub use device::{Device, Streams, Turn};
pub use extending::{Extended, extend};
pub use fault::ConversationFault;
pub use former::{Former, Formers, earliest};
pub use laws::answers_as_a_run;
pub use obeying::report_under;
pub use refused::{Counts, count_if_refused, count_one, none_counted, put_counts};
pub use serving::serve;
pub use staged::{Staged, no_outputs};
pub use texts::{
    back_refused_line, bad_line, forgotten_line, put_hex, read_line, show_line, undecodable_line,
};
pub use tx_word::TxWord;
pub use used::Used;
