//! What a line asks for.

ghost use Rattle.std.specs.Prelude.{◌≡◌, [], Some, None, map, option_map, OnOk};
ghost use Rattle.mp_text.specs.Words.{words_of};
ghost use Rattle.mp_lines.specs.Lines.{line_of};
ghost use Rattle.mp_lines.specs.Inside.LedgerHead.{to_head};
ghost use Rattle.mp_names.specs.Fault.{Gives, Reads, IsBad};
ghost use Rattle.mp_names.specs.Names.{is_among};
ghost use Rattle.mp_serve.specs.Ask.{Does, Shows, Checks, Forgets, bytes_by, bytes_ask, give_ask, submit_by, submit_ask, one_tx, entry_by, entry_of, utxo_ask, put_txs, block_behind, adopt_ask, put_ids, is_marked, stage_held_ask, stage_bytes_ask, stage_output_ask, stage_ask, staged_behind, staged_ask, sync_ask, staging_ask, back_ask, put_names, forget_ask, names_ask, ledger_ask, clean_ask, words_ask, hex_ask, long_ask, does_declare, declares, within, ask_within};
ghost use Rattle.mp_lines.specs.Inside.Line.{to_line};
ghost use Rattle.mp_serve.specs.Inside.Ask.{to_ask, to_tx_word};

use crate::block::NewBlock;
use crate::output::{AROUND_BYTES, output_in, ref_in};
use crate::tx_word::{TxWord, pooled, tx_word_of};
use mp_lines::{
    Form, LedgerHead, Line, bytes_of, no_word, one_word, read_head, two_words, unclean,
};
use mp_memory::Memory;
use mp_names::{BlockBytes, LineFault, Name, Names, Reason, any_number, refused_name};
use mp_text::{first_word, is_clean};
use mp_tx::{MAX_BYTES, OutRef, Output, Tx};
use std::sync::Arc;

/// What a line asks for.
#[derive(Drop)]
pub enum Ask {
    /// What a line of a scenario asks for.
    Does(Line),
    /// Read a transaction from these bytes, under the name.
    Reads(Name, Vec<u8, Memory>),
    /// Submit the transaction, and report it under the name from then on.
    Submits(Name, Arc<Tx, Memory>),
    /// Submit the transaction that has these bytes. It has no name.
    SubmitsBytes(Vec<u8, Memory>),
    /// The bytes of the transaction.
    Shows(TxWord),
    /// What its submit would answer.
    Checks(TxWord),
    /// The pool's numbers.
    Counts,
    /// Add the output to the opening ones.
    Holds(OutRef, Output),
    /// Adopt the ledger state after the block.
    Extends(NewBlock),
    /// Stage the transaction that has these bytes.
    Stages(Vec<u8, Memory>),
    /// Stage the transactions of these words.
    StagesHeld(Vec<TxWord, Memory>),
    /// Stage the output.
    StagesOutput(OutRef, Output),
    /// Forget what is staged.
    Unstages,
    /// Adopt the ledger state that has the staged outputs, with the tick, and the block bytes if the line gives them.
    Syncs(u64, Option<BlockBytes>),
    /// Adopt the ledger state this many steps ago.
    Returns(u64),
    /// Forget these names.
    Forgets(Vec<Name, Memory>),
    /// Report transactions by their ids from now on, or by their names.
    ReportsById(bool),
    /// Forget all names, and begin again with line 1.
    Resets,
}

const BYTES: Form = Form {
    word: b"bytes",
    text: b"bytes NAME HEX",
};

const GIVE: Form = Form {
    word: b"give",
    text: b"give HEX",
};

const SUBMIT: Form = Form {
    word: b"submit",
    text: b"submit TX",
};

const SHOW: Form = Form {
    word: b"show",
    text: b"show TX",
};

const CHECK: Form = Form {
    word: b"check",
    text: b"check TX",
};

const STATS: Form = Form {
    word: b"stats",
    text: b"stats",
};

const UTXO: Form = Form {
    word: b"utxo",
    text: b"utxo ID#INDEX HEX",
};

const ADOPT: Form = Form {
    word: b"adopt",
    text: b"adopt TICK TX ..' or 'adopt TICK block=N TX ..",
};

const STAGE: Form = Form {
    word: b"stage",
    text: b"stage HEX' or 'stage #ID ..' or 'stage utxo ID#INDEX HEX",
};

const UNSTAGE: Form = Form {
    word: b"unstage",
    text: b"unstage",
};

// Another form of the line with which scenarios sync.
const SYNC: Form = Form {
    word: b"sync",
    text: b"sync TICK staged' or 'sync TICK block=N staged",
};

// The last word of that form.
const STAGED: &[u8] = b"staged";

const BACK: Form = Form {
    word: b"back",
    text: b"back COUNT",
};

const FORGET: Form = Form {
    word: b"forget",
    text: b"forget NAME ..",
};

const IDS: Form = Form {
    word: b"ids",
    text: b"ids",
};

const NAMES: Form = Form {
    word: b"names",
    text: b"names",
};

const RESET: Form = Form {
    word: b"reset",
    text: b"reset",
};

fn bytes_by<'a>(
    memory: Memory,
    names: &Names,
    name: &'a [u8],
    digits: &'a [u8],
) -> Result<Ask, LineFault<'a>>
    ensures { Gives to_ask (bytes_by names.now (name.now, digits.now)) result }
{
    if !names.is_new_binding(name) {
        return Err(LineFault::Bad(refused_name(name)));
    }
    let bytes = bytes_of(memory, digits)?;
    Ok(Ask::Reads(Name::of(memory, name)?, bytes))
}

// bytes NAME HEX
fn bytes_ask<'a>(memory: Memory, names: &Names, words: &'a [u8]) -> Result<Ask, LineFault<'a>>
    ensures { Gives to_ask (bytes_ask names.now (words_of words.now)) result }
{
    let (name, digits) = two_words(BYTES.text, words)?;
    bytes_by(memory, names, name, digits)
}

// give HEX
fn give_ask<'a>(memory: Memory, words: &'a [u8]) -> Result<Ask, LineFault<'a>>
    ensures { Gives to_ask (give_ask (words_of words.now)) result }
{
    let digits = one_word(GIVE.text, words)?;
    Ok(Ask::SubmitsBytes(bytes_of(memory, digits)?))
}

fn submit_by<'a>(memory: Memory, names: &Names, word: &'a [u8]) -> Result<Ask, LineFault<'a>>
    ensures { Gives to_ask (submit_by names.now word.now) result }
{
    let declared = names.tx(word)?;
    let tx = Arc::try_clone(declared.tx())?;
    Ok(Ask::Submits(Name::of(memory, word)?, tx))
}

// submit TX
fn submit_ask<'a>(memory: Memory, names: &Names, words: &'a [u8]) -> Result<Ask, LineFault<'a>>
    ensures { Gives to_ask (submit_ask names.now (words_of words.now)) result }
{
    let word = one_word(SUBMIT.text, words)?;
    submit_by(memory, names, word)
}

// The only word of a line of this form, which is for a transaction.
fn one_tx<'a>(names: &Names, form: &'static [u8], words: &'a [u8]) -> Result<TxWord, LineFault<'a>>
    ensures { Gives to_tx_word (one_tx names.now (words_of words.now)) result }
{
    let word = one_word(form, words)?;
    tx_word_of(names, word)
}

fn show_ask<'a>(names: &Names, words: &'a [u8]) -> Result<Ask, LineFault<'a>>
    ensures { Gives to_ask (option_map Shows (one_tx names.now (words_of words.now))) result }
{
    Ok(Ask::Shows(one_tx(names, SHOW.text, words)?))
}

fn check_ask<'a>(names: &Names, words: &'a [u8]) -> Result<Ask, LineFault<'a>>
    ensures { Gives to_ask (option_map Checks (one_tx names.now (words_of words.now))) result }
{
    Ok(Ask::Checks(one_tx(names, CHECK.text, words)?))
}

fn entry_by<'a>(
    memory: Memory,
    word: &'a [u8],
    digits: &'a [u8],
) -> Result<(OutRef, Output), LineFault<'a>>
    ensures { Reads (entry_by (word.now, digits.now)) result }
{
    let reference = ref_in(memory, word)?;
    let bytes = bytes_of(memory, digits)?;
    match output_in(memory, &bytes)? {
        Some(output) => Ok((reference, output)),
        None => Err(LineFault::Bad(Reason::NoOutput(digits))),
    }
}

// ID#INDEX HEX, the last words of a line of this form.
fn entry_of<'a>(
    memory: Memory,
    form: &'static [u8],
    words: &'a [u8],
) -> Result<(OutRef, Output), LineFault<'a>>
    ensures { Reads (entry_of (words_of words.now)) result }
{
    let (word, digits) = two_words(form, words)?;
    entry_by(memory, word, digits)
}

// utxo ID#INDEX HEX
fn utxo_ask<'a>(memory: Memory, words: &'a [u8]) -> Result<Ask, LineFault<'a>>
    ensures { Gives to_ask (utxo_ask (words_of words.now)) result }
{
    let (reference, output) = entry_of(memory, UTXO.text, words)?;
    Ok(Ask::Holds(reference, output))
}

// Adds the words, which are for transactions.
fn put_txs<'a>(
    txs: &mut Vec<TxWord, Memory>,
    names: &Names,
    words: &'a [u8],
) -> Result<(), LineFault<'a>>
    ensures ok { OnOk result
        (put_txs names.now (map to_tx_word txs.old.items) (words_of words.now)
        ≡ Some (map to_tx_word txs.new.items)) }
    ensures bad { IsBad result
        → put_txs names.now (map to_tx_word txs.old.items) (words_of words.now) ≡ None }
{
    let mut rest = words;
    while let Some((word, others)) = first_word(rest) {
        txs.push(tx_word_of(names, word)?)?;
        rest = others;
    }
    Ok(())
}

fn block_behind<'a>(
    memory: Memory,
    names: &Names,
    head: LedgerHead<'a>,
) -> Result<Ask, LineFault<'a>>
    ensures { Gives to_ask (block_behind names.now (to_head head.entry)) result }
{
    let LedgerHead {
        tick,
        block_bytes,
        rest,
    } = head;
    let mut txs = Vec::new(memory);
    put_txs(&mut txs, names, rest)?;
    Ok(Ask::Extends(NewBlock {
        tick,
        block_bytes,
        txs,
    }))
}

// adopt TICK [block=N] TX ..
fn adopt_ask<'a>(memory: Memory, names: &Names, words: &'a [u8]) -> Result<Ask, LineFault<'a>>
    ensures { Gives to_ask (adopt_ask names.now (words_of words.now)) result }
{
    let head = read_head(ADOPT.text, words)?;
    block_behind(memory, names, head)
}

// Adds words for the transactions with these ids.
fn put_ids<'a>(txs: &mut Vec<TxWord, Memory>, words: &'a [u8]) -> Result<(), LineFault<'a>>
    ensures ok { OnOk result
        (put_ids (map to_tx_word txs.old.items) (words_of words.now)
        ≡ Some (map to_tx_word txs.new.items)) }
    ensures bad { IsBad result
        → put_ids (map to_tx_word txs.old.items) (words_of words.now) ≡ None }
{
    let mut rest = words;
    while let Some((word, others)) = first_word(rest) {
        txs.push(pooled(word)?)?;
        rest = others;
    }
    Ok(())
}

fn stage_held_ask<'a>(memory: Memory, words: &'a [u8]) -> Result<Ask, LineFault<'a>>
    ensures { Gives to_ask (stage_held_ask (words_of words.now)) result }
{
    let mut txs = Vec::new(memory);
    put_ids(&mut txs, words)?;
    Ok(Ask::StagesHeld(txs))
}

fn stage_bytes_ask<'a>(memory: Memory, words: &'a [u8]) -> Result<Ask, LineFault<'a>>
    ensures { Gives to_ask (stage_bytes_ask (words_of words.now)) result }
{
    let digits = one_word(STAGE.text, words)?;
    Ok(Ask::Stages(bytes_of(memory, digits)?))
}

fn stage_output_ask<'a>(memory: Memory, words: &'a [u8]) -> Result<Ask, LineFault<'a>>
    ensures { Gives to_ask (stage_output_ask (words_of words.now)) result }
{
    let (reference, output) = entry_of(memory, STAGE.text, words)?;
    Ok(Ask::StagesOutput(reference, output))
}

// Whether the word begins with the number sign.
fn is_marked(word: &[u8]) -> bool
    ensures { result ≡ is_marked word.now }
{
    match word.split_first() {
        Some((first, _)) => *first == b'#',
        None => false,
    }
}

// stage utxo ID#INDEX HEX, stage #ID .., stage HEX
fn stage_ask<'a>(memory: Memory, words: &'a [u8]) -> Result<Ask, LineFault<'a>>
    ensures { Gives to_ask (stage_ask (words_of words.now)) result }
{
    let Some((word, others)) = first_word(words) else {
        return Err(LineFault::Bad(Reason::FewWords(STAGE.text)));
    };
    if word == UTXO.word {
        stage_output_ask(memory, others)
    } else if is_marked(word) {
        stage_held_ask(memory, words)
    } else {
        stage_bytes_ask(memory, words)
    }
}

fn staged_behind(head: LedgerHead<'_>) -> Option<Ask>
    ensures { option_map to_ask result ≡ staged_behind (to_head head.entry) }
{
    let LedgerHead {
        tick,
        block_bytes,
        rest,
    } = head;
    match one_word(SYNC.text, rest) {
        Ok(word) => {
            if word == STAGED {
                Some(Ask::Syncs(tick, block_bytes))
            } else {
                None
            }
        }
        Err(_) => None,
    }
}

// TICK [block=N] staged
fn staged_ask(words: &[u8]) -> Option<Ask>
    ensures { option_map to_ask result ≡ staged_ask (words_of words.now) }
{
    match read_head(SYNC.text, words) {
        Ok(head) => staged_behind(head),
        Err(_) => None,
    }
}

// A line of scenarios. Otherwise sync TICK [block=N] staged.
fn sync_ask<'a>(
    memory: Memory,
    names: &Names,
    line: &'a [u8],
    words: &'a [u8],
) -> Result<Ask, LineFault<'a>>
    ensures { Gives to_ask (sync_ask names.now line.now (words_of words.now)) result }
{
    match scenario_ask(memory, names, line) {
        Ok(ask) => Ok(ask),
        Err(LineFault::NoMemory) => Err(LineFault::NoMemory),
        Err(LineFault::Bad(reason)) => match staged_ask(words) {
            Some(ask) => Ok(ask),
            None => Err(LineFault::Bad(reason)),
        },
    }
}

// back COUNT
fn back_ask<'a>(words: &'a [u8]) -> Result<Ask, LineFault<'a>>
    ensures { Gives to_ask (back_ask (words_of words.now)) result }
{
    let word = one_word(BACK.text, words)?;
    Ok(Ask::Returns(any_number(word)?))
}

fn is_among(names: &[Name], word: &[u8]) -> bool
    ensures { result ≡ is_among names.now word.now }
{
    names.iter().any(|name| word == name.as_bytes())
}

// Adds the names, of which none may occur twice.
fn put_names<'a>(
    names: &mut Vec<Name, Memory>,
    memory: Memory,
    words: &'a [u8],
) -> Result<(), LineFault<'a>>
    ensures ok { OnOk result
        (put_names names.old.items (words_of words.now) ≡ Some names.new.items) }
    ensures bad { IsBad result → put_names names.old.items (words_of words.now) ≡ None }
{
    let mut rest = words;
    while let Some((word, others)) = first_word(rest) {
        if is_among(names, word) {
            return Err(LineFault::Bad(Reason::Repeats {
                later: word,
                earlier: word,
            }));
        }
        names.push(Name::of(memory, word)?)?;
        rest = others;
    }
    Ok(())
}

// forget NAME ..
fn forget_ask<'a>(memory: Memory, words: &'a [u8]) -> Result<Ask, LineFault<'a>>
    ensures { Gives to_ask (forget_ask (words_of words.now)) result }
{
    if first_word(words).is_none() {
        return Err(LineFault::Bad(Reason::FewWords(FORGET.text)));
    }
    let mut names = Vec::new(memory);
    put_names(&mut names, memory, words)?;
    Ok(Ask::Forgets(names))
}

// A line of scenarios.
fn scenario_ask<'a>(memory: Memory, names: &Names, line: &'a [u8]) -> Result<Ask, LineFault<'a>>
    ensures { Gives to_ask (option_map Does (line_of names.now line.now)) result }
{
    Ok(Ask::Does(Line::parse(memory, names, line)?))
}

fn names_ask<'a>(
    memory: Memory,
    names: &Names,
    line: &'a [u8],
    word: &'a [u8],
    words: &'a [u8],
) -> Result<Ask, LineFault<'a>>
    ensures { Gives to_ask (names_ask names.now line.now word.now (words_of words.now)) result }
{
    if word == FORGET.word {
        forget_ask(memory, words)
    } else if word == IDS.word {
        no_word(IDS.text, words)?;
        Ok(Ask::ReportsById(true))
    } else if word == NAMES.word {
        no_word(NAMES.text, words)?;
        Ok(Ask::ReportsById(false))
    } else if word == RESET.word {
        no_word(RESET.text, words)?;
        Ok(Ask::Resets)
    } else {
        scenario_ask(memory, names, line)
    }
}

fn staging_ask<'a>(
    memory: Memory,
    names: &Names,
    line: &'a [u8],
    word: &'a [u8],
    words: &'a [u8],
) -> Result<Ask, LineFault<'a>>
    ensures { Gives to_ask (staging_ask names.now line.now word.now (words_of words.now)) result }
{
    if word == STAGE.word {
        stage_ask(memory, words)
    } else if word == UNSTAGE.word {
        no_word(UNSTAGE.text, words)?;
        Ok(Ask::Unstages)
    } else if word == SYNC.word {
        sync_ask(memory, names, line, words)
    } else {
        names_ask(memory, names, line, word, words)
    }
}

fn ledger_ask<'a>(
    memory: Memory,
    names: &Names,
    line: &'a [u8],
    word: &'a [u8],
    words: &'a [u8],
) -> Result<Ask, LineFault<'a>>
    ensures { Gives to_ask (ledger_ask names.now line.now word.now (words_of words.now)) result }
{
    if word == UTXO.word {
        utxo_ask(memory, words)
    } else if word == ADOPT.word {
        adopt_ask(memory, names, words)
    } else if word == BACK.word {
        back_ask(words)
    } else {
        staging_ask(memory, names, line, word, words)
    }
}

fn clean_ask<'a>(
    memory: Memory,
    names: &Names,
    line: &'a [u8],
    word: &'a [u8],
    words: &'a [u8],
) -> Result<Ask, LineFault<'a>>
    ensures { Gives to_ask (clean_ask names.now line.now word.now (words_of words.now)) result }
{
    if word == BYTES.word {
        bytes_ask(memory, names, words)
    } else if word == GIVE.word {
        give_ask(memory, words)
    } else if word == SUBMIT.word {
        submit_ask(memory, names, words)
    } else if word == SHOW.word {
        show_ask(names, words)
    } else if word == CHECK.word {
        check_ask(names, words)
    } else if word == STATS.word {
        no_word(STATS.text, words)?;
        Ok(Ask::Counts)
    } else {
        ledger_ask(memory, names, line, word, words)
    }
}

fn words_ask<'a>(memory: Memory, names: &Names, line: &'a [u8]) -> Result<Ask, LineFault<'a>>
    ensures { Gives to_ask (words_ask names.now line.now (words_of line.now)) result }
{
    match first_word(line) {
        Some((word, words)) => clean_ask(memory, names, line, word, words),
        None => scenario_ask(memory, names, line),
    }
}

// A line of a transaction's bytes, of an output, or of what is staged.
fn hex_ask<'a>(
    memory: Memory,
    names: &Names,
    line: &'a [u8],
    word: &'a [u8],
    words: &'a [u8],
) -> Result<Ask, LineFault<'a>>
    ensures { Gives to_ask (hex_ask names.now word.now (words_of words.now)) result }
{
    if word == BYTES.word {
        bytes_ask(memory, names, words)
    } else if word == GIVE.word {
        give_ask(memory, words)
    } else if word == UTXO.word {
        utxo_ask(memory, words)
    } else if word == STAGE.word {
        stage_ask(memory, words)
    } else {
        Err(LineFault::Bad(unclean(line)))
    }
}

// A line that is longer than most, or has other bytes.
fn long_ask<'a>(memory: Memory, names: &Names, line: &'a [u8]) -> Result<Ask, LineFault<'a>>
    ensures { Gives to_ask (long_ask names.now (words_of line.now)) result }
{
    match first_word(line) {
        Some((word, words)) => match hex_ask(memory, names, line, word, words) {
            Err(LineFault::Bad(_)) => Err(LineFault::Bad(unclean(line))),
            answer => answer,
        },
        None => Err(LineFault::Bad(unclean(line))),
    }
}

/// The most bytes of a line: those of `stage utxo` with an output that fills the largest transaction. They are the two words, the
/// id, the number sign, 20 digits of an index, three spaces, and two digits for each byte of the output.
pub const MAX_LINE_BYTES: usize = 9 + 64 + 1 + 20 + 3 + 2 * (MAX_BYTES - AROUND_BYTES);

// What the line asks for, if it isn't too long.
fn ask_within<'a>(memory: Memory, names: &Names, line: &'a [u8]) -> Result<Ask, LineFault<'a>>
    ensures { Gives to_ask (ask_within names.now line.now) result }
{
    if is_clean(line) {
        words_ask(memory, names, line)
    } else {
        long_ask(memory, names, line)
    }
}

// Whether a line of scenarios declares a name.
fn does_declare(line: &Line) -> bool
    ensures { result ≡ does_declare (to_line line.now) }
{
    match line {
        Line::Script(_) => true,
        Line::Data(_) => true,
        Line::Out(_, _) => true,
        Line::Tx(_, _) => true,
        _ => false,
    }
}

fn declares(ask: &Ask) -> bool
    ensures { result ≡ declares (to_ask ask.now) }
{
    match ask {
        Ask::Does(line) => does_declare(line),
        Ask::Reads(_, _) => true,
        _ => false,
    }
}

// Once there are this many names, no other is declared.
fn within<'a>(names: &Names, most_names: u64, ask: Ask) -> Result<Ask, LineFault<'a>>
    ensures { Gives to_ask (within names.now most_names (to_ask ask)) result }
{
    if declares(&ask) && names.has_many(most_names) {
        Err(LineFault::Bad(Reason::ManyNames(most_names)))
    } else {
        Ok(ask)
    }
}

impl Ask {
    ghost use Rattle.mp_names.specs.Fault.{Gives};
    ghost use Rattle.mp_serve.specs.Ask.{ask_of};
    ghost use Rattle.mp_serve.specs.Inside.Ask.{to_ask};

    /// What the line, without its line feed, asks for, given the declared names. At most `most_names` may be declared.
    ///
    /// # Errors
    /// `Bad` if the line isn't in the language, or if it declares a name too many. `NoMemory` may replace any other answer.
    #[tactic(auto, unfolding(crate::specs::Ask::ask_of))]
    pub fn parse<'a>(
        memory: Memory,
        names: &Names,
        most_names: u64,
        line: &'a [u8],
    ) -> Result<Ask, LineFault<'a>>
        ensures { Gives to_ask (ask_of names.now most_names line.now) result }
    {
        if line.len() > MAX_LINE_BYTES {
            return Err(LineFault::Bad(Reason::LongLine));
        }
        let ask = ask_within(memory, names, line)?;
        within(names, most_names, ask)
    }
}
