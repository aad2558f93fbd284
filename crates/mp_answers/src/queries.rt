//! The lines of queries.

ghost use Rattle.std.specs.Prelude.{◌≡◌, ◌++◌, [], codes, take, if◌then◌else◌, IfOk, OnOk};
ghost use Rattle.mp_tickets.specs.Tickets.{has_ticket};
ghost use Rattle.mp_seqpool.specs.ValidatedTx.{ticketed};
ghost use Rattle.mp_seqpool.specs.Keep.{keep, bytes_of};
ghost use Rattle.mp_seqpool.specs.Prepared.{apart};
ghost use Rattle.mp_seqpool.specs.SlowPool.{AreSigned};
ghost use Rattle.mp_seqpool.specs.Item.{items_of};
ghost use Rattle.mp_seqpool.specs.Reading.{within, offer, moved};
ghost use Rattle.mp_answers.specs.AnswerText.{item_text, items_text, numbers_text};
ghost use Rattle.mp_answers.specs.QueryText.{sized_text, words_text, query_text, for_text, cursor_after};

use crate::items::{put_found, put_has, put_item, put_items, put_sized};
use crate::words::{put_number, put_word};
use mp_lines::Query;
use mp_memory::{Memory, NoMemory};
use mp_names::Names;
use mp_seqpool::{Item, SeqPool, ValidatedTx, Verifier};
use mp_text::Text;
use mp_tickets::{Iter, Tickets};
use mp_tx::{Ledger, Tx};
use std::sync::Arc;

// Items of a pool, and the total number of their bytes.
struct Found {
    items: Vec<Item, Memory>,
    bytes: u64,
}

impl Drop for Found {
    fn drop(self) {
        let Found { items: _, bytes: _ } = self;
    }
}

// The longest prefix of these items that has at most `count` items and fits into `room` bytes.
fn first_within(
    memory: Memory,
    items: Iter<'_, ValidatedTx>,
    count: u64,
    room: u64,
) -> Result<Found, NoMemory>
    ensures items { IfOk result
        (λ f. items_of f.items.items ≡ take count (within room (ticketed items.entry))) }
    ensures bytes { IfOk result (λ f. f.bytes ≡ bytes_of (items_of f.items.items)) }
{
    let mut found = Vec::new(memory);
    let mut bytes = 0;
    for (ticket, item) in items {
        let size = item.tx.size();
        if found.len() as u64 == count || size > room - bytes {
            break;
        }
        let tx = Arc::try_clone(&item.tx)?;
        found.push(Item { ticket, tx })?;
        bytes += size;
    }
    Ok(Found {
        items: found,
        bytes,
    })
}

fn put_contents(
    text: &mut Text,
    names: &Names,
    items: Iter<'_, ValidatedTx>,
) -> Result<(), NoMemory>
    ensures { OnOk result (text.new.items
        ≡ text.old.items ++ items_text names.now (ticketed items.entry)) }
{
    for (ticket, item) in items {
        put_item(text, names, ticket, &item.tx)?;
    }
    Ok(())
}

// Appends the number of transactions, their bytes, and the last ticket.
fn put_numbers(text: &mut Text, pool: &SeqPool) -> Result<(), NoMemory>
    ensures { OnOk result (text.new.items ≡ text.old.items ++ numbers_text pool.now.pool) }
{
    put_number(text, pool.len() as u64)?;
    put_number(text, pool.bytes())?;
    put_number(text, pool.last_ticket())
}

fn put_snapshot(text: &mut Text, names: &Names, pool: &SeqPool) -> Result<(), NoMemory>
    ensures { OnOk result (text.new.items ≡ text.old.items ++ (codes "snapshot"
        ++ numbers_text pool.now.pool ++ items_text names.now pool.now.pool.items)) }
{
    put_word(text, b"snapshot")?;
    put_numbers(text, pool)?;
    put_contents(text, names, pool.contents())
}

// The longest prefix of the transactions, oldest first, that fits into `room` bytes.
fn oldest_within(memory: Memory, pool: &SeqPool, room: u64) -> Result<Found, NoMemory>
    ensures items { IfOk result
        (λ f. items_of f.items.items ≡ within room pool.now.pool.items) }
    ensures bytes { IfOk result (λ f. f.bytes ≡ bytes_of (items_of f.items.items)) }
{
    first_within(memory, pool.contents(), pool.len() as u64, room)
}

// Appends the word, and those transactions.
fn put_oldest(
    memory: Memory,
    text: &mut Text,
    names: &Names,
    pool: &SeqPool,
    word: &[u8],
    room: u64,
) -> Result<(), NoMemory>
    ensures { OnOk result (text.new.items ≡ text.old.items
        ++ (word.now ++ sized_text names.now (within room pool.now.pool.items))) }
{
    put_word(text, word)?;
    let found = oldest_within(memory, pool, room)?;
    put_sized(text, names, found.bytes, &found.items)
}

// The ticket of the last item, or the cursor if there are none.
fn moved_over(cursor: u64, items: &[Item]) -> u64
    ensures { result ≡ moved cursor (items_of items.now) }
{
    match items.split_last() {
        Some((item, _)) => item.ticket,
        None => cursor,
    }
}

// Appends what the peer is offered next.
fn put_offer(
    memory: Memory,
    text: &mut Text,
    names: &Names,
    cursor: &mut u64,
    pool: &SeqPool,
    count: u64,
    room: u64,
) -> Result<(), NoMemory>
    ensures text { OnOk result (text.new.items ≡ text.old.items ++ (codes "offer"
        ++ items_text names.now (offer cursor.old count room pool.now.pool.items))) }
    ensures cursor { OnOk result (cursor.new
        ≡ moved cursor.old (offer cursor.old count room pool.now.pool.items)) }
{
    put_word(text, b"offer")?;
    let found = first_within(memory, pool.contents_after(*cursor), count, room)?;
    put_items(text, names, &found.items)?;
    *cursor = moved_over(*cursor, &found.items);
    Ok(())
}

fn put_query(
    memory: Memory,
    text: &mut Text,
    names: &Names,
    cursor: &mut u64,
    pool: &SeqPool,
    query: Query,
) -> Result<(), NoMemory>
    ensures text { OnOk result (text.new.items
        ≡ text.old.items ++ words_text names.now cursor.old pool.now.pool query) }
    ensures cursor { OnOk result (cursor.new ≡ cursor_after cursor.old pool.now.pool query) }
{
    match query {
        Query::Snapshot => put_snapshot(text, names, pool),
        Query::After(ticket) => {
            put_word(text, b"after")?;
            put_contents(text, names, pool.contents_after(ticket))
        }
        Query::Lookup(ticket) => put_found(text, names, pool.get(ticket)),
        Query::Has(id) => put_has(text, pool.ticket_of(&id).is_some()),
        Query::Take(bytes) => put_oldest(memory, text, names, pool, b"take", bytes),
        Query::Forge(bytes) => put_oldest(memory, text, names, pool, b"block", bytes),
        Query::Offer { count, bytes } => {
            put_offer(memory, text, names, cursor, pool, count, bytes)
        }
    }
}

/// The line that the query writes, and the peer's cursor after it. Only an offer moves the cursor.
///
/// # Errors
/// `NoMemory`.
#[tactic(auto, unfolding(crate::specs::QueryText::query_text))]
pub fn query_line(
    memory: Memory,
    names: &Names,
    cursor: u64,
    pool: &SeqPool,
    query: Query,
) -> Result<(Text, u64), NoMemory>
    ensures text { IfOk result (λ r. r.0.items ≡ query_text names.now cursor pool.now.pool query) }
    ensures cursor { IfOk result (λ r. r.1 ≡ cursor_after cursor pool.now.pool query) }
{
    let mut text = Vec::new(memory);
    let mut next = cursor;
    put_query(memory, &mut text, names, &mut next, pool, query)?;
    text.push(b'\n')?;
    Ok((text, next))
}

// Appends the transaction with its ticket, unless it is dropped.
fn put_unless_dropped(
    text: &mut Text,
    names: &Names,
    dropped: &Tickets,
    ticket: u64,
    tx: &Tx,
) -> Result<(), NoMemory>
    ensures { OnOk result (text.new.items ≡ text.old.items
        ++ (if has_ticket dropped.now ticket then [] else item_text names.now (ticket, tx.now))) }
{
    if dropped.contains(ticket) {
        return Ok(());
    }
    put_item(text, names, ticket, tx)
}

// Appends the transactions that aren't dropped.
fn put_others(
    text: &mut Text,
    names: &Names,
    items: Iter<'_, ValidatedTx>,
    dropped: &Tickets,
) -> Result<(), NoMemory>
    ensures { OnOk result (text.new.items ≡ text.old.items
        ++ items_text names.now (apart dropped.now (ticketed items.entry))) }
{
    for (ticket, item) in items {
        put_unless_dropped(text, names, dropped, ticket, &item.tx)?;
    }
    Ok(())
}

// The line of these transactions without the dropped ones.
#[tactic(auto, unfolding(crate::specs::QueryText::for_text))]
fn others_line(
    memory: Memory,
    names: &Names,
    items: Iter<'_, ValidatedTx>,
    dropped: &Tickets,
) -> Result<Text, NoMemory>
    ensures { IfOk result (λ text.
        text.items ≡ for_text names.now (apart dropped.now (ticketed items.entry))) }
{
    let mut text = Vec::new(memory);
    put_word(&mut text, b"for")?;
    put_others(&mut text, names, items, dropped)?;
    text.push(b'\n')?;
    Ok(text)
}

/// The line of the transactions that would stay on the ledger state. The verifier accepts the signatures in the pool.
///
/// # Errors
/// `NoMemory`.
pub fn kept_line<V: Verifier>(
    memory: Memory,
    names: &Names,
    pool: &SeqPool,
    ledger: &Ledger,
    verifier: &V,
) -> Result<Text, NoMemory>
    requires { AreSigned (V.accepts verifier.now) pool.now.pool }
    ensures { IfOk result (λ text. text.items
        ≡ for_text names.now (keep (V.accepts verifier.now) ledger.now pool.now.pool.items)) }
{
    let dropped = pool.dropped_upon(ledger, verifier)?;
    others_line(memory, names, pool.contents(), &dropped)
}
