//! Reading items.

ghost use Rattle.std.specs.Prelude.{◌≡◌, ◌≤◌, ◌+◌, ◌^◌, ◌++◌, reverse, option_map, slice_get, All};
ghost use Rattle.std.specs.Option.{ForSome};
ghost use Rattle.std.specs.List.Sorted.{IsStrictlyIncreasing};
ghost use Rattle.mp_tickets.specs.Tickets.{IsRising, after, item_at, among};
ghost use Rattle.mp_seqpool.specs.Item.{items_of, shown};
ghost use Rattle.mp_seqpool.specs.Keep.{bytes_of};
ghost use Rattle.mp_versions.specs.Layout.{items_in, chunks_in, filled_chunks, IsLaid};
ghost use Rattle.mp_versions.specs.Pages.{flattened, chunks_of, joined, IsFilled, AreFilled, size_in};

use crate::chunk::Chunk;
use crate::layout::Layout;
use crate::page::Page;
use crate::run::Run;
use crate::run_back::RunBack;
use mp_seqpool::Item;

// The items with greater tickets.
fn items_after(items: &[Item], ticket: u64) -> &[Item]
    requires { IsRising (items_of items.now) }
    ensures { items_of result.now ≡ after (items_of items.now) ticket }
{
    let at = items.partition_point(|item| item.ticket <= ticket);
    &items[at..]
}

// The items with greater tickets in the first chunk that has any, and the chunks after it.
fn chunks_after(chunks: &[Chunk], ticket: u64) -> (&[Item], &[Chunk])
    requires filled { All IsFilled chunks.now }
    requires rising { IsRising (flattened chunks.now) }
    ensures all { items_of result.0.now ++ flattened result.1.now
        ≡ after (flattened chunks.now) ticket }
    ensures filled { All IsFilled result.1.now }
{
    let at = chunks.partition_point(|chunk| chunk.last_ticket() <= ticket);
    match chunks[at..].split_first() {
        Some((chunk, others)) => (items_after(chunk.as_slice(), ticket), others),
        None => (&[], &[]),
    }
}

// The same for pages, and the pages after it.
fn pages_after(pages: &[Page], ticket: u64) -> (&[Item], &[Chunk], &[Page])
    requires filled { AreFilled pages.now }
    requires rising { IsRising (joined pages.now) }
    ensures all { items_of result.0.now ++ (flattened result.1.now ++ joined result.2.now)
        ≡ after (joined pages.now) ticket }
    ensures chunks { All IsFilled result.1.now }
    ensures pages { AreFilled result.2.now }
{
    let at = pages.partition_point(|page| page.last_ticket() <= ticket);
    match pages[at..].split_first() {
        Some((page, others)) => {
            let (items, chunks) = chunks_after(page.as_slice(), ticket);
            (items, chunks, others)
        }
        None => (&[], &[], &[]),
    }
}

/// All items.
pub fn run_of(layout: &Layout) -> Run<'_>
    requires { IsLaid layout.now }
    ensures { result ≡ items_in layout.now }
{
    Run::of(&[], &[], layout.pages.as_slice(), layout.newest.as_slice())
}

/// All items, the newest first.
pub fn run_back(layout: &Layout) -> RunBack<'_>
    requires { IsLaid layout.now }
    ensures { result ≡ reverse (items_in layout.now) }
{
    RunBack::of(layout.pages.as_slice(), layout.newest.as_slice())
}

/// The items with greater tickets.
pub fn run_after(layout: &Layout, ticket: u64) -> Run<'_>
    requires laid { IsLaid layout.now }
    requires rising { IsRising (items_in layout.now) }
    ensures { result ≡ after (items_in layout.now) ticket }
{
    let (items, chunks, pages) = pages_after(layout.pages.as_slice(), ticket);
    Run::of(
        items,
        chunks,
        pages,
        items_after(layout.newest.as_slice(), ticket),
    )
}

/// The item of the ticket, if there is one.
pub fn find(layout: &Layout, ticket: u64) -> Option<&Item>
    requires laid { IsLaid layout.now }
    requires rising { IsRising (items_in layout.now) }
    ensures tx { option_map (λ i. (shown i).1) result ≡ item_at (items_in layout.now) ticket }
    ensures ticket { ForSome result (λ i. i.now.ticket ≡ ticket) }
{
    if ticket == 0 {
        return None;
    }
    let Some(item) = run_after(layout, ticket - 1).next() else {
        return None;
    };
    if item.ticket == ticket {
        Some(item)
    } else {
        None
    }
}

// The number of bytes of the ticket's item, or 0 if there is none.
fn bytes_under(layout: &Layout, ticket: u64) -> u64
    requires laid { IsLaid layout.now }
    requires rising { IsRising (items_in layout.now) }
    ensures { result ≡ size_in (item_at (items_in layout.now) ticket) }
{
    match find(layout, ticket) {
        Some(item) => item.tx.size(),
        None => 0,
    }
}

/// The number of bytes of all items with these tickets. It searches for each ticket.
pub fn bytes_among(layout: &Layout, tickets: &[u64]) -> u64
    requires laid { IsLaid layout.now }
    requires rising { IsRising (items_in layout.now) }
    requires increasing { IsStrictlyIncreasing tickets.now }
    requires most { bytes_of (items_in layout.now) ≤ 2 ^ 40 }
    ensures { result ≡ bytes_of (among tickets.now (items_in layout.now)) }
{
    let mut bytes = 0;
    for ticket in tickets {
        bytes += bytes_under(layout, *ticket);
    }
    bytes
}

// The items of the newest chunk, if `place` is 0 and it has items.
fn newest_at(newest: &Chunk, place: usize) -> Option<&[Item]>
    ensures { option_map (λ c. items_of c.now) result ≡ slice_get (filled_chunks newest.now) place }
{
    let items = newest.as_slice();
    if place == 0 && !items.is_empty() {
        Some(items)
    } else {
        None
    }
}

// The chunk at this index, from 0, among those of pages and the one after them.
fn chunk_among<'a>(pages: &'a [Page], newest: &'a Chunk, place: usize) -> Option<&'a [Item]>
    ensures { option_map (λ c. items_of c.now) result
        ≡ slice_get (chunks_of pages.now ++ filled_chunks newest.now) place }
{
    let mut left = place;
    for page in pages {
        let chunks = page.as_slice();
        match chunks.get(left) {
            Some(chunk) => return Some(chunk.as_slice()),
            None => left -= chunks.len(),
        }
    }
    newest_at(newest, left)
}

/// The chunk at this index, from 0, among all. The open chunk is the last, if it has items.
pub fn chunk_at(layout: &Layout, place: usize) -> Option<&[Item]>
    ensures { option_map (λ c. items_of c.now) result ≡ slice_get (chunks_in layout.now) place }
{
    chunk_among(layout.pages.as_slice(), &layout.newest, place)
}
