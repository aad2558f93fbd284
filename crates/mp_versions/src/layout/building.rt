//! All items of a pool.

ghost use Rattle.std.specs.Prelude.{◌≡◌, [], ◌∷◌, ◌++◌, ◌<◌, List, length, ℕ, OnOk, IfOk};
ghost use Rattle.mp_tx.specs.Transaction.{Transaction};
ghost use Rattle.mp_tickets.specs.Tickets.{IsRising};
ghost use Rattle.mp_seqpool.specs.Item.{item_of};
ghost use Rattle.mp_versions.specs.Layout.{items_in, IsLaid};
ghost use Rattle.mp_versions.specs.Inside.Built.{IsBuilt};

use crate::chunk::{Chunk, MAX_ITEMS};
use crate::layout::Layout;
use crate::page::{MAX_CHUNKS, Page};
use crate::pages::Pages;
use mp_memory::{Memory, NoMemory};
use mp_seqpool::{Item, SeqPool};
use std::mem;
use std::sync::Arc;

/// Full pages, the chunks of the next page, and the items of its next chunk.
#[derive(Drop)]
pub struct Built {
    pub pages: Vec<Page, Memory>,
    pub chunks: Vec<Chunk, Memory>,
    pub items: Vec<Item, Memory>,
}

// Makes a page of the chunks.
fn close_page(memory: Memory, built: &mut Built) -> Result<(), NoMemory>
    requires some { 0 < length built.old.chunks.items }
    ensures built { (all : List (ℕ × Transaction)) → IsBuilt all built.old
        → OnOk result (IsBuilt all built.new) }
    ensures chunks { OnOk result (built.new.chunks.items ≡ []) }
    ensures items { OnOk result (built.new.items ≡ built.old.items) }
{
    let chunks = mem::replace(&mut built.chunks, Vec::new(memory));
    built.pages.push(Page::of(memory, chunks)?)?;
    Ok(())
}

// Makes room for one more chunk, by closing the page if it is full.
fn make_chunk_room(memory: Memory, built: &mut Built) -> Result<(), NoMemory>
    ensures built { (all : List (ℕ × Transaction)) → IsBuilt all built.old
        → OnOk result (IsBuilt all built.new) }
    ensures room { (all : List (ℕ × Transaction)) → IsBuilt all built.old
        → OnOk result (length built.new.chunks.items < 64) }
    ensures items { OnOk result (built.new.items ≡ built.old.items) }
{
    if built.chunks.len() == MAX_CHUNKS {
        close_page(memory, built)?;
    }
    Ok(())
}

// Makes a chunk of the items.
fn close_chunk(memory: Memory, built: &mut Built) -> Result<(), NoMemory>
    requires some { 0 < length built.old.items.items }
    ensures built { (all : List (ℕ × Transaction)) → IsBuilt all built.old
        → OnOk result (IsBuilt all built.new) }
    ensures items { OnOk result (built.new.items.items ≡ []) }
{
    make_chunk_room(memory, built)?;
    let items = mem::replace(&mut built.items, Vec::new(memory));
    built.chunks.push(Chunk::of(memory, items)?)?;
    Ok(())
}

// Makes room for one more item, by closing the chunk if it is full.
fn make_item_room(memory: Memory, built: &mut Built) -> Result<(), NoMemory>
    ensures built { (all : List (ℕ × Transaction)) → IsBuilt all built.old
        → OnOk result (IsBuilt all built.new) }
    ensures room { (all : List (ℕ × Transaction)) → IsBuilt all built.old
        → OnOk result (length built.new.items.items < 64) }
{
    if built.items.len() >= MAX_ITEMS {
        close_chunk(memory, built)?;
    }
    Ok(())
}

// Appends the item.
fn put(memory: Memory, built: &mut Built, item: Item) -> Result<(), NoMemory>
    ensures { (all : List (ℕ × Transaction)) → IsBuilt all built.old
        → OnOk result (IsBuilt (all ++ item_of item ∷ []) built.new) }
{
    make_item_room(memory, built)?;
    built.items.push(item)?;
    Ok(())
}

// Makes a page of the chunks, if there are any.
fn close_chunks(memory: Memory, built: &mut Built) -> Result<(), NoMemory>
    ensures built { (all : List (ℕ × Transaction)) → IsBuilt all built.old
        → OnOk result (IsBuilt all built.new) }
    ensures chunks { OnOk result (built.new.chunks.items ≡ []) }
    ensures items { OnOk result (built.new.items ≡ built.old.items) }
{
    if !built.chunks.is_empty() {
        close_page(memory, built)?;
    }
    Ok(())
}

// Called after the last item: the items that are in no chunk yet become the open chunk.
fn finished(memory: Memory, mut built: Built) -> Result<Layout, NoMemory>
    ensures items { (all : List (ℕ × Transaction)) → IsBuilt all built
        → IfOk result (λ l. items_in l ≡ all) }
    ensures laid { (all : List (ℕ × Transaction)) → IsBuilt all built
        → IfOk result (λ l. IsLaid l) }
{
    close_chunks(memory, &mut built)?;
    Ok(Layout {
        pages: Pages::of(memory, built.pages)?,
        newest: Chunk::of(memory, built.items)?,
    })
}

/// The pool's items. Each chunk in a page has 32 items, and each page except the last has 64 chunks.
pub fn of_pool(memory: Memory, pool: &SeqPool) -> Result<Layout, NoMemory>
    ensures items { IfOk result (λ l. items_in l ≡ pool.now.pool.items) }
    ensures rising { IfOk result (λ l. IsRising (items_in l)) }
    ensures laid { IfOk result (λ l. IsLaid l) }
{
    let mut built = Built {
        pages: Vec::new(memory),
        chunks: Vec::new(memory),
        items: Vec::new(memory),
    };
    for (ticket, item) in pool.contents() {
        let tx = Arc::try_clone(&item.tx)?;
        put(memory, &mut built, Item { ticket, tx })?;
    }
    finished(memory, built)
}
