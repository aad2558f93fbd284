//! The lines that a conversation writes in addition to those of scenarios.

ghost use Rattle.std.specs.Prelude.{◌≡◌, ◌++◌, ◌∷◌, [], ℕ, List, Ok, Err, IfOk, OnOk};
ghost use Rattle.hex.specs.Hex.{encode_lower};
ghost use Rattle.std.specs.Prelude.{map, option_copied, option_map, slice_get};
ghost use Rattle.std.specs.Arc.{arc_value};
ghost use Rattle.mp_serve.specs.Texts.{bad_text, fault_name, tx_words, bytes_text, show_text, pool_numbers, stats_text, name_if_any, block_refused_text, back_refused_text, staged_text, forgotten_text};

use crate::refused::{Counts, put_counts};
use mp_answers::{put_id, put_number, put_refusal, put_tx_name, put_word};
use mp_memory::{Memory, NoMemory};
use mp_names::{Names, Reason};
use mp_seqpool::{Invalid, Refusal, SeqPool};
use mp_text::Text;
use mp_tx::{Tx, TxFault};
use std::sync::Arc;

/// The answer if there is nothing to report.
pub const OK: &[u8] = b"ok\n";

/// The answer if an allocation fails.
pub const NO_MEMORY: &[u8] = b"fault: no memory\n";

// The line about bytes that were read fits into this many bytes.
const TX_ROOM: usize = 80;

/// The answer to the bad line with this number.
pub fn bad_line(memory: Memory, number: u64, reason: Reason<'_>) -> Result<Text, NoMemory>
    ensures { IfOk result (λ text.
        (why : List ℕ) × (text.items ≡ bad_text number ++ why ++ 10 ∷ [])) }
{
    let mut text = Vec::new(memory);
    put_word(&mut text, b"bad")?;
    put_number(&mut text, number)?;
    put_word(&mut text, b": ")?;
    let why = format!(in memory; "{reason}")?;
    put_word(&mut text, why.as_bytes())?;
    text.push(b'\n')?;
    Ok(text)
}

/// Appends each byte as two digits.
pub fn put_hex(memory: Memory, text: &mut Text, bytes: &[u8]) -> Result<(), NoMemory>
    ensures { OnOk result (text.new.items ≡ text.old.items ++ encode_lower bytes.now) }
{
    let digits = hex::encode(memory, bytes)?;
    put_word(text, digits.as_bytes())
}

// The size and the id.
fn put_tx(text: &mut Text, tx: &Tx) -> Result<(), NoMemory>
    ensures { OnOk result (text.new.items ≡ text.old.items ++ tx_words tx.now) }
{
    put_word(text, b"tx")?;
    put_number(text, tx.size())?;
    put_word(text, b" ")?;
    put_id(text, tx.id())
}

fn fault_name(fault: TxFault) -> &'static [u8]
    ensures { result.now ≡ fault_name fault }
{
    match fault {
        TxFault::NoMemory => b"memory",
        TxFault::Truncated => b"truncated",
        TxFault::Trailing => b"trailing",
        TxFault::BadVersion => b"version",
        TxFault::NotRising => b"order",
        TxFault::BadBundle => b"bundle",
        TxFault::BadScript => b"script",
        TxFault::BadData => b"data",
        TxFault::BadInterval => b"interval",
        TxFault::TooLarge => b"large",
        TxFault::ReferenceSpent => b"spent",
        TxFault::NoReferences => b"references",
    }
}

/// The line about bytes that are a transaction.
#[tactic(auto, unfolding(crate::specs::Texts::bytes_text))]
pub fn read_line(memory: Memory, tx: &Tx) -> Result<Text, NoMemory>
    ensures { IfOk result (λ text. text.items ≡ bytes_text (Ok tx.now)) }
{
    let mut text = Vec::with_capacity(memory, TX_ROOM)?;
    put_tx(&mut text, tx)?;
    text.push(b'\n')?;
    Ok(text)
}

/// The line about bytes that are no transaction.
#[tactic(auto, unfolding(crate::specs::Texts::bytes_text))]
pub fn undecodable_line(memory: Memory, fault: TxFault) -> Result<Text, NoMemory>
    ensures { IfOk result (λ text. text.items ≡ bytes_text (Err fault)) }
{
    let mut text = Vec::new(memory);
    put_word(&mut text, b"undecodable ")?;
    put_word(&mut text, fault_name(fault))?;
    text.push(b'\n')?;
    Ok(text)
}

/// The line about a transaction, with its bytes.
#[tactic(auto, unfolding(crate::specs::Texts::show_text))]
pub fn show_line(memory: Memory, tx: &Tx) -> Result<Text, NoMemory>
    ensures { IfOk result (λ text. text.items ≡ show_text tx.now) }
{
    let mut text = Vec::new(memory);
    put_tx(&mut text, tx)?;
    put_word(&mut text, b" ")?;
    let bytes = tx.encode(memory)?;
    put_hex(memory, &mut text, &bytes)?;
    text.push(b'\n')?;
    Ok(text)
}

fn put_pool_numbers(text: &mut Text, pool: &SeqPool) -> Result<(), NoMemory>
    ensures { OnOk result (text.new.items ≡ text.old.items ++ pool_numbers pool.now.pool) }
{
    put_word(text, b"stats")?;
    put_number(text, pool.len() as u64)?;
    put_number(text, pool.bytes())?;
    put_number(text, pool.free_bytes())?;
    put_number(text, pool.last_ticket())?;
    put_number(text, pool.changes())
}

/// The line with a pool's numbers, and with how often each kind of refusal was answered.
#[tactic(auto, unfolding(crate::specs::Texts::stats_text))]
pub fn stats_line(memory: Memory, pool: &SeqPool, refused: &Counts) -> Result<Text, NoMemory>
    ensures { IfOk result (λ text. text.items ≡ stats_text pool.now.pool refused.now) }
{
    let mut text = Vec::new(memory);
    put_pool_numbers(&mut text, pool)?;
    put_counts(&mut text, refused)?;
    text.push(b'\n')?;
    Ok(text)
}

fn put_name_if_any(
    text: &mut Text,
    names: &Names,
    tx: Option<&Arc<Tx, Memory>>,
) -> Result<(), NoMemory>
    ensures { OnOk result (text.new.items ≡ text.old.items
        ++ name_if_any names.now (option_map arc_value (option_copied tx.entry))) }
{
    match tx {
        Some(tx) => put_tx_name(text, names, tx.id()),
        None => Ok(()),
    }
}

fn tx_at(txs: &[Arc<Tx, Memory>], place: usize) -> Option<&Arc<Tx, Memory>>
    ensures { option_copied result ≡ slice_get txs.now place }
{
    txs.get(place)
}

// The name or the id under which the transaction at the index is reported, if there is one.
fn put_name_at(
    text: &mut Text,
    names: &Names,
    txs: &[Arc<Tx, Memory>],
    place: usize,
) -> Result<(), NoMemory>
    ensures { OnOk result (text.new.items ≡ text.old.items
        ++ name_if_any names.now (slice_get (map arc_value txs.now) place)) }
{
    put_name_if_any(text, names, tx_at(txs, place))
}

/// The line that refuses a block: the transaction at this index isn't valid after those before it.
#[tactic(auto, unfolding(crate::specs::Texts::block_refused_text))]
pub fn block_refused_line(
    memory: Memory,
    names: &Names,
    txs: &[Arc<Tx, Memory>],
    place: usize,
    fault: Invalid,
) -> Result<Text, NoMemory>
    ensures { IfOk result (λ text. text.items
        ≡ block_refused_text names.now (map arc_value txs.now) place fault) }
{
    let mut text = Vec::new(memory);
    put_word(&mut text, b"refused adopt ")?;
    put_name_at(&mut text, names, txs, place)?;
    put_word(&mut text, b" ")?;
    put_refusal(memory, &mut text, names, &Refusal::Invalid(fault))?;
    text.push(b'\n')?;
    Ok(text)
}

/// The line that refuses to go back: only `kept` ledger states are kept.
#[tactic(auto, unfolding(crate::specs::Texts::back_refused_text))]
pub fn back_refused_line(memory: Memory, kept: u64) -> Result<Text, NoMemory>
    ensures { IfOk result (λ text. text.items ≡ back_refused_text kept) }
{
    let mut text = Vec::new(memory);
    put_word(&mut text, b"refused back")?;
    put_number(&mut text, kept)?;
    text.push(b'\n')?;
    Ok(text)
}

/// The line that says how many transactions or outputs are staged.
#[tactic(auto, unfolding(crate::specs::Texts::staged_text))]
pub fn staged_line(memory: Memory, count: u64) -> Result<Text, NoMemory>
    ensures { IfOk result (λ text. text.items ≡ staged_text count) }
{
    let mut text = Vec::new(memory);
    put_word(&mut text, b"staged")?;
    put_number(&mut text, count)?;
    text.push(b'\n')?;
    Ok(text)
}

/// The line that says how many names were forgotten.
#[tactic(auto, unfolding(crate::specs::Texts::forgotten_text))]
pub fn forgotten_line(memory: Memory, count: u64) -> Result<Text, NoMemory>
    ensures { IfOk result (λ text. text.items ≡ forgotten_text count) }
{
    let mut text = Vec::new(memory);
    put_word(&mut text, b"forgotten")?;
    put_number(&mut text, count)?;
    text.push(b'\n')?;
    Ok(text)
}
