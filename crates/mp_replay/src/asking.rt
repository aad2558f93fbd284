//! What a line of a history asks.

ghost use Rattle.std.specs.Prelude.{◌≡◌, Some, None, IfOk, OnErr};
ghost use Rattle.mp_text.specs.Words.{words_of};
ghost use Rattle.mp_names.specs.Fault.{IsBad};
ghost use Rattle.mp_serve.specs.Inside.Answer.{text_of};
ghost use Rattle.mp_replay.specs.ServedHistory.{remove, replay_line};

use mp_lines::remove_line;
use mp_memory::Memory;
use mp_names::LineFault;
use mp_serve::{Answer, Ask, Conversation};
use mp_text::first_word;

const REMOVE: &[u8] = b"remove";

// Asks for `remove` with these words, of which there may be any number.
fn ask_remove<'a>(
    conversation: &mut Conversation,
    memory: Memory,
    words: &'a [u8],
) -> Result<Answer, LineFault<'a>>
    ensures ok { IfOk result (λ answer.
        remove conversation.old (words_of words.now) ≡ Some (conversation.new, text_of answer)) }
    ensures bad { IsBad result → remove conversation.old (words_of words.now) ≡ None }
    ensures err { OnErr result (conversation.new ≡ conversation.old) }
{
    let line = remove_line(memory, &conversation.session.names, words)?;
    conversation.take(memory, Ask::Does(line))
}

/// Does what the line asks for, and returns the answer. After an `Err` nothing has changed.
///
/// # Errors
/// `Bad` if `serve` would answer that the line is bad, except that a `remove` may have any number of words. `NoMemory` may replace
/// any other answer.
#[tactic(auto, unfolding(crate::specs::ServedHistory::replay_line))]
pub fn ask_line<'a>(
    conversation: &mut Conversation,
    memory: Memory,
    line: &'a [u8],
) -> Result<Answer, LineFault<'a>>
    ensures ok { IfOk result (λ answer.
        replay_line conversation.old line.now ≡ Some (conversation.new, text_of answer)) }
    ensures bad { IsBad result → replay_line conversation.old line.now ≡ None }
    ensures err { OnErr result (conversation.new ≡ conversation.old) }
{
    match first_word(line) {
        Some((word, words)) => {
            if word == REMOVE {
                ask_remove(conversation, memory, words)
            } else {
                conversation.hear(memory, line)
            }
        }
        None => conversation.hear(memory, line),
    }
}
