//! Lines that the pool answers.

ghost use Rattle.std.specs.Prelude.{◌≡◌, None, Some, OnOk};
ghost use Rattle.mp_text.specs.Words.{words_of};
ghost use Rattle.mp_lines.specs.Lines.{put_ids, submit_line, remove_line, sync_line, for_line, query_line};
ghost use Rattle.mp_names.specs.Fault.{Gives, IsBad};
ghost use Rattle.mp_lines.specs.Inside.Line.{to_line};

use crate::forms::{FOR, REMOVE, SUBMIT, SYNC};
use crate::ledgers::read_ledger;
use crate::line::Line;
use crate::query::read_query;
use crate::words::one_word;
use mp_memory::Memory;
use mp_names::{LineFault, Names, Reason, id_meant};
use mp_text::first_word;
use mp_tx::TxId;
use std::sync::Arc;

/// submit TX
pub fn submit_line<'a>(names: &Names, words: &'a [u8]) -> Result<Line, LineFault<'a>>
    ensures { Gives to_line (submit_line names.now (words_of words.now)) result }
{
    let word = one_word(SUBMIT.text, words)?;
    let declared = names.tx(word)?;
    Ok(Line::Submit(Arc::try_clone(declared.tx())?))
}

// Appends the ids that the words mean.
fn put_ids<'a>(
    ids: &mut Vec<TxId, Memory>,
    names: &Names,
    words: &'a [u8],
) -> Result<(), LineFault<'a>>
    ensures ok { OnOk result
        (put_ids names.now ids.old.items (words_of words.now) ≡ Some ids.new.items) }
    ensures bad { IsBad result → put_ids names.now ids.old.items (words_of words.now) ≡ None }
{
    let mut rest = words;
    while let Some((word, others)) = first_word(rest) {
        ids.push(id_meant(names, word)?)?;
        rest = others;
    }
    Ok(())
}

/// What `remove` asks with these words, of which each is `#` and an id's digits or a declared transaction's name. There may be
/// more of them than fit on a line.
///
/// # Errors
/// `Bad` if there is no word, or if one means no id. `NoMemory` may be returned instead of any answer.
pub fn remove_line<'a>(
    memory: Memory,
    names: &Names,
    words: &'a [u8],
) -> Result<Line, LineFault<'a>>
    ensures { Gives to_line (remove_line names.now (words_of words.now)) result }
{
    if first_word(words).is_none() {
        return Err(LineFault::Bad(Reason::FewWords(REMOVE.text)));
    }
    let mut ids = Vec::new(memory);
    put_ids(&mut ids, names, words)?;
    Ok(Line::Remove(ids))
}

/// sync TICK [block=N] REF ..
pub fn sync_line<'a>(memory: Memory, names: &Names, words: &'a [u8]) -> Result<Line, LineFault<'a>>
    ensures { Gives to_line (sync_line names.now (words_of words.now)) result }
{
    Ok(Line::Sync(read_ledger(memory, names, SYNC.text, words)?))
}

/// for TICK [block=N] REF ..
pub fn for_line<'a>(memory: Memory, names: &Names, words: &'a [u8]) -> Result<Line, LineFault<'a>>
    ensures { Gives to_line (for_line names.now (words_of words.now)) result }
{
    Ok(Line::For(read_ledger(memory, names, FOR.text, words)?))
}

/// A line that only reads the pool, by its first word.
pub fn query_line<'a>(names: &Names, word: &'a [u8], words: &'a [u8]) -> Result<Line, LineFault<'a>>
    ensures { Gives to_line (query_line names.now word.now (words_of words.now)) result }
{
    Ok(Line::Asks(read_query(names, word, words)?))
}
