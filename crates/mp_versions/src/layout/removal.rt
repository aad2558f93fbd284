//! The items that remain after some go.

ghost use Rattle.std.specs.Prelude.{◌≡◌, ◌<◌, ◌≤◌, [], ◌∷◌, ◌++◌, length, option_to_list, if◌then◌else◌, All, IfOk, OnOk};
ghost use Rattle.std.specs.Bool.{OnFalse};
ghost use Rattle.std.specs.List.Sorted.{IsStrictlyIncreasing};
ghost use Rattle.mp_tickets.specs.Tickets.{IsRising, has_ticket};
ghost use Rattle.mp_seqpool.specs.Prepared.{apart};
ghost use Rattle.mp_seqpool.specs.Item.{items_of};
ghost use Rattle.mp_versions.specs.Pages.{flattened, joined, IsFilled, IsPage, AreFilled};
ghost use Rattle.mp_versions.specs.Layout.{items_in, filled_chunks, IsLaid};
ghost use Rattle.mp_versions.specs.Inside.Left.{IsLeftPage};

use crate::chunk::Chunk;
use crate::layout::Layout;
use crate::page::Page;
use crate::pages::Pages;
use mp_memory::{Memory, NoMemory};
use mp_seqpool::Item;

// Whether one of the tickets is from `first` to `last`.
fn any_within(tickets: &[u64], first: u64, last: u64) -> bool
    requires { IsStrictlyIncreasing tickets.now }
    ensures { OnFalse result (All (λ t. first ≤ t → t ≤ last → ⊥) tickets.now) }
{
    let at = tickets.partition_point(|ticket| *ticket < first);
    match tickets.get(at) {
        Some(ticket) => *ticket <= last,
        None => false,
    }
}

// Whether the list has the ticket.
fn is_among(tickets: &[u64], ticket: u64) -> bool
    requires { IsStrictlyIncreasing tickets.now }
    ensures { result ≡ has_ticket tickets.now ticket }
{
    tickets.binary_search(&ticket).is_ok()
}

// Appends the item, if it stays.
fn keep_item(kept: &mut Vec<Item, Memory>, item: &Item, stays: bool) -> Result<(), NoMemory>
    ensures { OnOk result (items_of kept.new.items
        ≡ items_of kept.old.items ++ (if stays then items_of (item.now ∷ []) else [])) }
{
    if stays {
        kept.push(item.share()?)?;
    }
    Ok(())
}

// Appends the chunk, if it has items.
fn keep_chunk(kept: &mut Vec<Chunk, Memory>, chunk: Chunk) -> Result<(), NoMemory>
    ensures { OnOk result (kept.new.items ≡ kept.old.items ++ filled_chunks chunk) }
{
    if !chunk.as_slice().is_empty() {
        kept.push(chunk)?;
    }
    Ok(())
}

// Appends the page, if there is one.
fn keep_page(kept: &mut Vec<Page, Memory>, page: Option<Page>) -> Result<(), NoMemory>
    ensures { OnOk result (kept.new.items ≡ kept.old.items ++ option_to_list page) }
{
    if let Some(page) = page {
        kept.push(page)?;
    }
    Ok(())
}

// The items without these tickets.
fn left_items(
    memory: Memory,
    items: &[Item],
    tickets: &[u64],
) -> Result<Vec<Item, Memory>, NoMemory>
    requires { IsStrictlyIncreasing tickets.now }
    ensures { IfOk result (λ v. items_of v.items ≡ apart tickets.now (items_of items.now)) }
{
    let mut kept = Vec::new(memory);
    for item in items {
        keep_item(&mut kept, item, !is_among(tickets, item.ticket))?;
    }
    Ok(kept)
}

// What remains of a chunk. It is the same chunk if it loses nothing, and it may be empty.
fn left_chunk(memory: Memory, chunk: &Chunk, tickets: &[u64]) -> Result<Chunk, NoMemory>
    requires rising { IsRising chunk.now }
    requires increasing { IsStrictlyIncreasing tickets.now }
    ensures { IfOk result (λ c. c ≡ apart tickets.now chunk.now) }
{
    if !any_within(tickets, chunk.first_ticket(), chunk.last_ticket()) {
        return chunk.share();
    }
    Chunk::of(memory, left_items(memory, chunk.as_slice(), tickets)?)
}

// What remains of the chunks.
fn left_chunks(
    memory: Memory,
    chunks: &[Chunk],
    tickets: &[u64],
) -> Result<Vec<Chunk, Memory>, NoMemory>
    requires filled { All IsFilled chunks.now }
    requires rising { IsRising (flattened chunks.now) }
    requires increasing { IsStrictlyIncreasing tickets.now }
    ensures all { IfOk result (λ v. flattened v.items ≡ apart tickets.now (flattened chunks.now)) }
    ensures filled { IfOk result (λ v. All IsFilled v.items) }
    ensures most { IfOk result (λ v. length v.items ≤ length chunks.now) }
{
    let mut kept = Vec::new(memory);
    for chunk in chunks {
        keep_chunk(&mut kept, left_chunk(memory, chunk, tickets)?)?;
    }
    Ok(kept)
}

// What remains of a page. It is the same page if it loses nothing.
fn left_page(memory: Memory, page: &Page, tickets: &[u64]) -> Result<Option<Page>, NoMemory>
    requires filled { IsPage page.now }
    requires rising { IsRising (flattened page.now) }
    requires increasing { IsStrictlyIncreasing tickets.now }
    ensures { IfOk result (IsLeftPage (apart tickets.now (flattened page.now))) }
{
    if !any_within(tickets, page.first_ticket(), page.last_ticket()) {
        return Ok(Some(page.share()?));
    }
    let left = left_chunks(memory, page.as_slice(), tickets)?;
    if left.is_empty() {
        Ok(None)
    } else {
        Ok(Some(Page::of(memory, left)?))
    }
}

// What remains of the pages.
fn left_pages(
    memory: Memory,
    pages: &[Page],
    tickets: &[u64],
) -> Result<Vec<Page, Memory>, NoMemory>
    requires filled { AreFilled pages.now }
    requires rising { IsRising (joined pages.now) }
    requires increasing { IsStrictlyIncreasing tickets.now }
    ensures joined { IfOk result (λ all. joined all.items ≡ apart tickets.now (joined pages.now)) }
    ensures filled { IfOk result (λ all. AreFilled all.items) }
{
    let mut kept = Vec::new(memory);
    for page in pages {
        keep_page(&mut kept, left_page(memory, page, tickets)?)?;
    }
    Ok(kept)
}

// The same pages if they lose nothing, and else what remains of them.
fn shared_or_left(memory: Memory, pages: &Pages, tickets: &[u64]) -> Result<Pages, NoMemory>
    requires filled { AreFilled pages.now }
    requires rising { IsRising (joined pages.now) }
    requires increasing { IsStrictlyIncreasing tickets.now }
    ensures joined { IfOk result (λ all. joined all ≡ apart tickets.now (joined pages.now)) }
    ensures filled { IfOk result (λ all. AreFilled all) }
{
    if !any_within(tickets, 0, pages.last_ticket()) {
        return pages.share();
    }
    Pages::of(memory, left_pages(memory, pages.as_slice(), tickets)?)
}

/// The items without those with these tickets. A chunk, a page, or all pages are shared if they lose nothing.
pub fn without(memory: Memory, layout: &Layout, tickets: &[u64]) -> Result<Layout, NoMemory>
    requires laid { IsLaid layout.now }
    requires rising { IsRising (items_in layout.now) }
    requires increasing { IsStrictlyIncreasing tickets.now }
    ensures items { IfOk result (λ l. items_in l ≡ apart tickets.now (items_in layout.now)) }
    ensures laid { IfOk result (λ l. IsLaid l) }
{
    Ok(Layout {
        pages: shared_or_left(memory, &layout.pages, tickets)?,
        newest: left_chunk(memory, &layout.newest, tickets)?,
    })
}
