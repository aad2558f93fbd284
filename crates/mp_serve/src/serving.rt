//! A conversation over a device.

ghost use Rattle.std.specs.Prelude.{◌≡◌, IfSome};
ghost use Rattle.mp_serve.specs.Device.{EndsAt};
ghost use Rattle.mp_serve.specs.Served.{Ended};
ghost use Rattle.mp_serve.specs.Talk.{new_conversation};

use crate::answering::{answer, tell};
use crate::ask::MAX_LINE_BYTES;
use crate::conversation::Conversation;
use crate::device::{Device, Turn};
use crate::fault::ConversationFault;
use mp_memory::Memory;
use mp_signatures::Signatures;
use mp_text::LineRead;
use mp_tx::Salt;

// Answers each line that is left. `line` is the buffer for it.
fn answer_all<D: Device>(
    memory: Memory,
    conversation: &mut Conversation,
    line: &mut Vec<u8, Memory>,
    device: &mut D,
) -> Result<(), ConversationFault>
    requires { D.turn device.old ≡ Turn.Listens }
    ensures answers { IfSome (D.input device.old)
        (λ bytes. Ended conversation.old bytes
        (D.output device.old) (D.output device.new) result) }
    ensures turn { EndsAt result (D.turn device.new) }
{
    for _count in 1..u64::MAX {
        let found = match device.read_line(line, MAX_LINE_BYTES) {
            Ok(LineRead::End) => return Ok(()),
            Ok(found) => found,
            Err(_) => return Err(ConversationFault::ReadFault),
        };
        let number = conversation.line;
        let answer = answer(conversation, memory, number, found, line);
        match tell(device, &answer) {
            Ok(()) => conversation.count_line(),
            Err(_) => return Err(ConversationFault::WriteFault),
        }
    }
    Err(ConversationFault::ManyLines)
}

/// Answers each line of the input as it comes, until the input ends. The next line is read once the answer is written and
/// flushed. At most `most_names` may be declared. A line that is too long, or for which an allocation fails, is read to its end, and the answer says so. The host picks
/// the salt at random and keeps it secret. No answer depends on it.
///
/// # Errors
/// `ReadFault` and `WriteFault` if the device fails. `NoMemory` before the first line. `ManyLines` after 2^64 - 2 lines.
pub fn serve<D: Device>(
    memory: Memory,
    signatures: Signatures,
    salt: Salt,
    most_names: u64,
    device: &mut D,
) -> Result<(), ConversationFault>
    requires { D.turn device.old ≡ Turn.Listens }
    ensures answers { IfSome (D.input device.old) (λ bytes.
        Ended (new_conversation signatures salt most_names) bytes
        (D.output device.old) (D.output device.new) result) }
    ensures turn { EndsAt result (D.turn device.new) }
{
    match Conversation::new(memory, signatures, salt, most_names) {
        Ok(mut conversation) => {
            let mut line = Vec::new(memory);
            answer_all(memory, &mut conversation, &mut line, device)
        }
        Err(_) => Err(ConversationFault::NoMemory),
    }
}
