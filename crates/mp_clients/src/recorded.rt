//! The lines of a history: what a conversation alone is asked for each change, and its answers.

ghost use Rattle.std.specs.Prelude.{◌≡◌, ◌++◌, ◌∷◌, [], codes, OnOk};
ghost use Rattle.hex.specs.Hex.{encode_lower};
ghost use Rattle.mp_tx.specs.Spelling.{spelling};
ghost use Rattle.mp_answers.specs.AnswerText.{reply_text};

use mp_answers::{put_id, put_number, put_reply, put_word};
use mp_history::Entry;
use mp_memory::{Memory, NoMemory};
use mp_mempool::Receipt;
use mp_seqpool::Command;
use mp_serve::{ResolvedBlock, put_hex};
use mp_session::Settings;
use mp_text::Text;
use mp_tx::{Ledger, OutRef, Output, Tx, TxId, put_output};

/// What a change asks.
#[derive(Clone, Copy)]
pub enum Change<'a> {
    Submit(&'a Tx),
    Remove(&'a [TxId]),
    /// The ledger state after the block.
    Block(&'a ResolvedBlock),
    /// The ledger state, whatever came before.
    State(&'a Ledger),
    /// The ledger state this many steps ago.
    Back(usize),
}

impl<'a> Change<'a> {
    /// What the command asks.
    pub fn of(command: &'a Command) -> Change<'a> {
        match command {
            Command::Submit(tx) => Change::Submit(tx),
            Command::Remove(ids) => Change::Remove(ids.as_slice()),
            Command::Sync(ledger) => Change::State(ledger),
        }
    }

    /// What the adoption of a ledger state asks. Without a block it has nothing to do with the one before.
    pub fn to(ledger: &'a Ledger, block: Option<&'a ResolvedBlock>) -> Change<'a> {
        match block {
            Some(block) => Change::Block(block),
            None => Change::State(ledger),
        }
    }
}

// The transaction's bytes, each as two digits.
fn put_tx(memory: Memory, text: &mut Text, tx: &Tx) -> Result<(), NoMemory>
    ensures { OnOk result (text.new.items ≡ text.old.items ++ encode_lower (spelling tx.now)) }
{
    let bytes = tx.encode(memory)?;
    put_hex(memory, text, &bytes)
}

// An answer that says how many are staged.
fn put_staged(text: &mut Text, count: u64) -> Result<(), NoMemory> {
    put_word(text, b"\nstaged")?;
    put_number(text, count)?;
    put_word(text, b"\n")
}

fn put_give(memory: Memory, text: &mut Text, tx: &Tx) -> Result<(), NoMemory>
    ensures { OnOk result (text.new.items
        ≡ text.old.items ++ codes "give " ++ encode_lower (spelling tx.now) ++ 10 ∷ []) }
{
    put_word(text, b"give ")?;
    put_tx(memory, text, tx)?;
    put_word(text, b"\n")
}

fn put_remove(text: &mut Text, ids: &[TxId]) -> Result<(), NoMemory> {
    put_word(text, b"remove")?;
    for id in ids {
        put_word(text, b" #")?;
        put_id(text, id)?;
    }
    put_word(text, b"\n")
}

// A ledger state's tick and block bytes, as `adopt` and `sync` have them.
fn put_head(memory: Memory, text: &mut Text, tick: u64, bytes: u64) -> Result<(), NoMemory> {
    put_number(text, tick)?;
    let given = format!(in memory; " block={bytes}")?;
    put_word(text, given.as_bytes())
}

fn put_block(memory: Memory, text: &mut Text, block: &ResolvedBlock) -> Result<(), NoMemory> {
    let mut count: u64 = 0;
    for tx in block.txs() {
        count = count.saturating_add(1);
        put_word(text, b"stage ")?;
        put_tx(memory, text, tx)?;
        put_staged(text, count)?;
    }
    put_word(text, b"adopt")?;
    put_head(memory, text, block.tick(), block.block_bytes())?;
    put_word(text, b"\n")
}

// A reference and its output, as `utxo` has them.
fn put_output_words(
    memory: Memory,
    text: &mut Text,
    reference: &OutRef,
    output: &Output,
) -> Result<(), NoMemory> {
    put_word(text, b"utxo ")?;
    put_id(text, &reference.id)?;
    let index = reference.index;
    let index = format!(in memory; "#{index} ")?;
    put_word(text, index.as_bytes())?;
    let mut bytes = Vec::new(memory);
    put_output(&mut bytes, output)?;
    put_hex(memory, text, &bytes)
}

fn put_state(memory: Memory, text: &mut Text, ledger: &Ledger) -> Result<(), NoMemory> {
    let mut count: u64 = 0;
    for (reference, output) in ledger.outputs(memory)? {
        count = count.saturating_add(1);
        put_word(text, b"stage ")?;
        put_output_words(memory, text, &reference, &output)?;
        put_staged(text, count)?;
    }
    put_word(text, b"sync")?;
    put_head(memory, text, ledger.tick(), ledger.block_bytes())?;
    put_word(text, b" staged\n")
}

fn put_back(text: &mut Text, count: u64) -> Result<(), NoMemory> {
    put_word(text, b"back")?;
    put_number(text, count)?;
    put_word(text, b"\n")
}

// The entry of an accepted submit has at most this many bytes.
const ENTRY_ROOM: usize = 140;

/// The lines that ask for the change, and the answers of all but the last. There is room for the entry of an accepted submit.
pub fn change_lines(memory: Memory, change: Change<'_>) -> Result<Text, NoMemory> {
    let mut text = Vec::new(memory);
    match change {
        Change::Submit(tx) => put_give(memory, &mut text, tx)?,
        Change::Remove(ids) => put_remove(&mut text, ids)?,
        Change::Block(block) => put_block(memory, &mut text, block)?,
        Change::State(ledger) => put_state(memory, &mut text, ledger)?,
        Change::Back(count) => put_back(&mut text, count as u64)?,
    }
    text.reserve(ENTRY_ROOM)?;
    Ok(text)
}

// A submit is answered with the transaction's id.
fn put_id_of(text: &mut Text, command: &Command) -> Result<(), NoMemory> {
    match command {
        Command::Submit(tx) => {
            put_word(text, b" ")?;
            put_id(text, tx.id())
        }
        _ => Ok(()),
    }
}

/// Appends the entry: its place, its caller and the answer.
pub fn put_entry(text: &mut Text, receipt: &Receipt) -> Result<(), NoMemory> {
    let Receipt { place, entry } = receipt;
    let Entry {
        caller,
        command,
        reply,
    } = entry;
    put_word(text, b"entry")?;
    put_number(text, *place)?;
    put_number(text, u64::from(*caller))?;
    put_word(text, b" ")?;
    put_reply(text, reply)?;
    put_id_of(text, command)?;
    put_word(text, b"\n")
}

// A setting, and its answer.
fn put_setting(text: &mut Text, word: &[u8], value: u64) -> Result<(), NoMemory> {
    put_word(text, word)?;
    put_number(text, value)?;
    put_word(text, b"\nok\n")
}

/// Appends the settings with which a pool opens, each with its answer.
pub fn put_settings(text: &mut Text, settings: &Settings) -> Result<(), NoMemory> {
    put_setting(text, b"block", settings.block_bytes())?;
    put_setting(text, b"tick", settings.tick())?;
    put_setting(text, b"last", settings.last())
}

/// Appends an output with which a pool opens, and its answer.
pub fn put_opening(
    memory: Memory,
    text: &mut Text,
    reference: &OutRef,
    output: &Output,
) -> Result<(), NoMemory> {
    put_output_words(memory, text, reference, output)?;
    put_word(text, b"\nok\n")
}
