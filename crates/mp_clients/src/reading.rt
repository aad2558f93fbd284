//! The lines of queries about a version of the pool.

ghost use Rattle.std.specs.Prelude.{◌≡◌, ◌++◌, codes, IfOk, OnOk};
ghost use Rattle.mp_seqpool.specs.Item.{items_of};
ghost use Rattle.mp_seqpool.specs.Reading.{within, offer, moved};
ghost use Rattle.mp_seqpool.specs.SlowPool.{free_bytes};
ghost use Rattle.mp_history.specs.Log.{state_after};
ghost use Rattle.mp_answers.specs.AnswerText.{items_text, numbers_text};
ghost use Rattle.mp_answers.specs.QueryText.{sized_text, words_text, query_text, for_text, cursor_after};
ghost use Rattle.mp_serve.specs.Texts.{pool_numbers, stats_text};

use mp_answers::{put_found, put_has, put_item, put_items, put_number, put_sized, put_word};
use mp_history::PoolName;
use mp_lines::Query;
use mp_memory::{Memory, NoMemory};
use mp_names::Names;
use mp_serve::{Counts, put_counts};
use mp_text::Text;
use mp_versions::{Item, PeerReader, Run, Shown, Snapshot, Version, forge};

// Appends each item.
fn put_run(text: &mut Text, names: &Names, items: Run<'_>) -> Result<(), NoMemory>
    ensures { OnOk result (text.new.items ≡ text.old.items ++ items_text names.now items.entry) }
{
    for item in items {
        put_item(text, names, item.ticket, &item.tx)?;
    }
    Ok(())
}

// Appends the number of transactions, their bytes, and the last ticket.
fn put_numbers(text: &mut Text, version: &Version) -> Result<(), NoMemory>
    ensures { OnOk result (text.new.items ≡ text.old.items ++ numbers_text version.now.pool) }
{
    put_number(text, version.len() as u64)?;
    put_number(text, version.bytes())?;
    put_number(text, version.last_ticket())
}

fn put_snapshot(text: &mut Text, names: &Names, version: &Version) -> Result<(), NoMemory>
    ensures { OnOk result (text.new.items ≡ text.old.items ++ (codes "snapshot"
        ++ numbers_text version.now.pool ++ items_text names.now version.now.pool.items)) }
{
    put_word(text, b"snapshot")?;
    put_numbers(text, version)?;
    put_run(text, names, version.contents())
}

// Appends the word, and the longest prefix of the transactions, oldest first, that fits into `room` bytes.
fn put_oldest<N: PoolName>(
    memory: Memory,
    text: &mut Text,
    names: &Names,
    snapshot: &Snapshot<'_, N>,
    word: &[u8],
    room: u64,
) -> Result<(), NoMemory>
    ensures { OnOk result (text.new.items ≡ text.old.items ++ (word.now
        ++ sized_text names.now (within room (state_after N.accepts snapshot.now).items))) }
{
    put_word(text, word)?;
    let block = forge(memory, snapshot, room)?;
    put_sized(text, names, block.bytes, block.items.as_slice())
}

// Appends what the peer is offered next.
fn put_offer<N: PoolName>(
    memory: Memory,
    text: &mut Text,
    names: &Names,
    cursor: &mut u64,
    snapshot: &Snapshot<'_, N>,
    count: u64,
    room: u64,
) -> Result<(), NoMemory>
    ensures text { OnOk result (text.new.items ≡ text.old.items ++ (codes "offer" ++ items_text
        names.now (offer cursor.old count room (state_after N.accepts snapshot.now).items))) }
    ensures cursor { OnOk result (cursor.new ≡ moved cursor.old
        (offer cursor.old count room (state_after N.accepts snapshot.now).items)) }
{
    put_word(text, b"offer")?;
    let mut peer = PeerReader::after(*cursor);
    let items = peer.offer(memory, snapshot, count, room)?;
    put_items(text, names, items.as_slice())?;
    *cursor = peer.cursor();
    Ok(())
}

fn put_query<N: PoolName>(
    memory: Memory,
    text: &mut Text,
    names: &Names,
    cursor: &mut u64,
    shown: &Shown<N>,
    query: Query,
) -> Result<(), NoMemory>
    ensures text { OnOk result (text.new.items ≡ text.old.items
        ++ words_text names.now cursor.old (state_after N.accepts shown.now) query) }
    ensures cursor { OnOk result (cursor.new
        ≡ cursor_after cursor.old (state_after N.accepts shown.now) query) }
{
    let version = shown.version();
    let snapshot = Snapshot::of(shown);
    match query {
        Query::Snapshot => put_snapshot(text, names, version),
        Query::After(ticket) => {
            put_word(text, b"after")?;
            put_run(text, names, version.after_ticket(ticket))
        }
        Query::Lookup(ticket) => put_found(text, names, version.lookup(ticket)),
        Query::Has(id) => put_has(text, version.has(&id)),
        Query::Take(bytes) => put_oldest(memory, text, names, &snapshot, b"take", bytes),
        Query::Forge(bytes) => put_oldest(memory, text, names, &snapshot, b"block", bytes),
        Query::Offer { count, bytes } => {
            put_offer(memory, text, names, cursor, &snapshot, count, bytes)
        }
    }
}

/// The line that the query writes, and the peer's cursor after it. Only an offer moves the cursor.
///
/// # Errors
/// `NoMemory`.
#[tactic(auto, unfolding(mp_answers::specs::QueryText::query_text))]
pub fn query_line<N: PoolName>(
    memory: Memory,
    names: &Names,
    cursor: u64,
    shown: &Shown<N>,
    query: Query,
) -> Result<(Text, u64), NoMemory>
    ensures text { IfOk result (λ r. r.0.items
        ≡ query_text names.now cursor (state_after N.accepts shown.now) query) }
    ensures cursor { IfOk result (λ r. r.1
        ≡ cursor_after cursor (state_after N.accepts shown.now) query) }
{
    let mut text = Vec::new(memory);
    let mut next = cursor;
    put_query(memory, &mut text, names, &mut next, shown, query)?;
    text.push(b'\n')?;
    Ok((text, next))
}

/// The line of what stays on another ledger state.
///
/// # Errors
/// `NoMemory`.
#[tactic(auto, unfolding(mp_answers::specs::QueryText::for_text))]
pub fn for_line(memory: Memory, names: &Names, items: &[Item]) -> Result<Text, NoMemory>
    ensures { IfOk result (λ text. text.items ≡ for_text names.now (items_of items.now)) }
{
    let mut text = Vec::new(memory);
    put_word(&mut text, b"for")?;
    put_items(&mut text, names, items)?;
    text.push(b'\n')?;
    Ok(text)
}

/// The bytes that are free.
pub fn free_bytes(version: &Version) -> u64
    ensures { result ≡ free_bytes version.now.pool }
{
    (2 * version.ledger().block_bytes()).saturating_sub(version.bytes())
}

fn put_pool_numbers(text: &mut Text, version: &Version) -> Result<(), NoMemory>
    ensures { OnOk result (text.new.items ≡ text.old.items ++ pool_numbers version.now.pool) }
{
    put_word(text, b"stats")?;
    put_number(text, version.len() as u64)?;
    put_number(text, version.bytes())?;
    put_number(text, free_bytes(version))?;
    put_number(text, version.last_ticket())?;
    put_number(text, version.number())
}

/// The line with the numbers of a version, and with how often each kind of refusal was answered.
///
/// # Errors
/// `NoMemory`.
#[tactic(auto, unfolding(mp_serve::specs::Texts::stats_text))]
pub fn stats_line(memory: Memory, version: &Version, refused: &Counts) -> Result<Text, NoMemory>
    ensures { IfOk result (λ text. text.items ≡ stats_text version.now.pool refused.now) }
{
    let mut text = Vec::new(memory);
    put_pool_numbers(&mut text, version)?;
    put_counts(&mut text, refused)?;
    text.push(b'\n')?;
    Ok(text)
}
