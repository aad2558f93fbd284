//! The meaning of a line.

ghost use Rattle.std.specs.Prelude.{◌≡◌, Some, None, option_map};
ghost use Rattle.std.specs.Result.{result_ok};
ghost use Rattle.mp_text.specs.Words.{words_of};
ghost use Rattle.mp_lines.specs.Lines.{request_line, declaration_or_request, any_line, words_line, line_of};
ghost use Rattle.mp_lines.specs.Lines as lines;
ghost use Rattle.mp_names.specs.Fault.{Gives};
ghost use Rattle.mp_lines.specs.Inside.Line.{to_line};

use crate::commands::{for_line, query_line, remove_line, submit_line, sync_line};
use crate::declarations::{data_line, output_line, script_line, tx_line};
use crate::forms::{BLOCK, DATA, FOR, LAST, LIMIT, OUT, REMOVE, SCRIPT, SUBMIT, SYNC, TICK, TX};
use crate::query::Query;
use crate::settings::{block_setting, last_setting, limit_setting, tick_setting};
use mp_memory::Memory;
use mp_names::{
    DeclaredTx, LineFault, Name, NamedDatum, NamedScript, Names, NewLedger, Payment, Reason,
    Setting,
};
use mp_text::{MAX_LINE_BYTES, first_word, is_clean, is_comment_or_blank};
use mp_tx::{Tx, TxId};
use std::sync::Arc;

/// The greatest number of outputs of the opening ledger state, as their indices have 16 bits.
pub const MAX_OUTPUTS: usize = 1 << 16;

/// The meaning of a line.
#[derive(Drop)]
pub enum Line {
    /// Nothing: the line has no words, or is a comment.
    Blank,
    Sets(Setting),
    Script(NamedScript),
    Data(NamedDatum),
    /// An output of the opening ledger state.
    Out(Name, Payment),
    Tx(Name, DeclaredTx),
    Submit(Arc<Tx, Memory>),
    Remove(Vec<TxId, Memory>),
    Sync(NewLedger),
    /// Asks which transactions would stay on this ledger state.
    For(NewLedger),
    Asks(Query),
}

fn request_line<'a>(
    memory: Memory,
    names: &Names,
    word: &'a [u8],
    words: &'a [u8],
) -> Result<Line, LineFault<'a>>
    ensures { Gives to_line (request_line names.now word.now (words_of words.now)) result }
{
    if word == SUBMIT.word {
        submit_line(names, words)
    } else if word == REMOVE.word {
        remove_line(memory, names, words)
    } else if word == SYNC.word {
        sync_line(memory, names, words)
    } else if word == FOR.word {
        for_line(memory, names, words)
    } else {
        query_line(names, word, words)
    }
}

fn declaration_or_request<'a>(
    memory: Memory,
    names: &Names,
    word: &'a [u8],
    words: &'a [u8],
) -> Result<Line, LineFault<'a>>
    ensures { Gives to_line
        (declaration_or_request names.now word.now (words_of words.now)) result }
{
    if word == SCRIPT.word {
        script_line(memory, names, words)
    } else if word == DATA.word {
        data_line(memory, names, words)
    } else if word == OUT.word {
        output_line(memory, names, words)
    } else if word == TX.word {
        tx_line(memory, names, words)
    } else {
        request_line(memory, names, word, words)
    }
}

fn sets<'a>(setting: Result<Setting, Reason<'a>>) -> Result<Line, LineFault<'a>>
    ensures { Gives to_line (option_map lines.Sets (result_ok setting.entry)) result }
{
    Ok(Line::Sets(setting?))
}

fn any_line<'a>(
    memory: Memory,
    names: &Names,
    word: &'a [u8],
    words: &'a [u8],
) -> Result<Line, LineFault<'a>>
    ensures { Gives to_line (any_line names.now word.now (words_of words.now)) result }
{
    if word == BLOCK.word {
        sets(block_setting(words))
    } else if word == LIMIT.word {
        sets(limit_setting(words))
    } else if word == LAST.word {
        sets(last_setting(words))
    } else if word == TICK.word {
        sets(tick_setting(words))
    } else {
        declaration_or_request(memory, names, word, words)
    }
}

/// What is wrong with a line that isn't clean.
pub fn unclean(line: &[u8]) -> Reason<'_> {
    if line.len() > MAX_LINE_BYTES {
        return Reason::LongLine;
    }
    match line.iter().find(|byte| **byte < b' ' || b'~' < **byte) {
        Some(byte) => Reason::Byte(*byte),
        None => Reason::LongLine,
    }
}

impl Line {
    ghost use Rattle.mp_lines.specs.Lines.{line_of};
    ghost use Rattle.mp_names.specs.Fault.{Gives};
    ghost use Rattle.mp_lines.specs.Inside.Line.{to_line};

    /// The meaning of the line, without its line feed, given the declared names.
    ///
    /// # Errors
    /// `Bad` if the line isn't in the language. It has a byte that isn't printable, more than 4,096 bytes, an
    /// unknown first word, or words that break the rules of its form. `NoMemory` may be returned instead of any answer.
    #[tactic(auto, unfolding(crate::specs::Lines::line_of))]
    pub fn parse<'a>(memory: Memory, names: &Names, line: &'a [u8]) -> Result<Line, LineFault<'a>>
        ensures { Gives to_line (line_of names.now line.now) result }
    {
        if !is_clean(line) {
            return Err(LineFault::Bad(unclean(line)));
        }
        if is_comment_or_blank(line) {
            return Ok(Line::Blank);
        }
        match first_word(line) {
            Some((word, words)) => any_line(memory, names, word, words),
            None => Ok(Line::Blank),
        }
    }
}
