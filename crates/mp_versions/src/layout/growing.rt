//! One more item.

ghost use Rattle.std.specs.Prelude.{◌≡◌, ◌<◌, [], ◌∷◌, ◌++◌, length, All, IfOk};
ghost use Rattle.mp_seqpool.specs.Item.{item_of, items_of};
ghost use Rattle.mp_versions.specs.Layout.{items_in, IsLaid};
ghost use Rattle.mp_versions.specs.Pages.{flattened, joined, IsFilled, AreFilled};

use crate::chunk::{Chunk, MAX_ITEMS};
use crate::layout::Layout;
use crate::page::{MAX_CHUNKS, Page};
use crate::pages::Pages;
use mp_memory::{Memory, NoMemory};
use mp_seqpool::Item;

// The pages before the one for the next chunk, and the chunks of that page.
fn end_of(pages: &[Page]) -> (&[Page], &[Chunk])
    requires { AreFilled pages.now }
    ensures all { joined result.0.now ++ flattened result.1.now ≡ joined pages.now }
    ensures filled { AreFilled result.0.now }
    ensures chunks { All IsFilled result.1.now }
    ensures room { length result.1.now < 64 }
{
    let Some((last, others)) = pages.split_last() else {
        return (pages, &[]);
    };
    let chunks = last.as_slice();
    if chunks.len() < MAX_CHUNKS {
        (others, chunks)
    } else {
        (pages, &[])
    }
}

// A chunk of these items, which it shares, and one more.
fn longer_chunk(memory: Memory, items: &[Item], item: Item) -> Result<Chunk, NoMemory>
    requires { length items.now < 64 }
    ensures { IfOk result (λ c. c ≡ items_of items.now ++ item_of item ∷ []) }
{
    let mut all = Vec::with_capacity(memory, items.len() + 1)?;
    for other in items {
        all.push(other.share()?)?;
    }
    all.push(item)?;
    Chunk::of(memory, all)
}

// A page of these chunks, which it shares, and one more.
fn longer_page(memory: Memory, chunks: &[Chunk], chunk: Chunk) -> Result<Page, NoMemory>
    requires { length chunks.now < 64 }
    ensures { IfOk result (λ p. p ≡ chunks.now ++ chunk ∷ []) }
{
    let mut all = Vec::with_capacity(memory, chunks.len() + 1)?;
    for other in chunks {
        all.push(other.share()?)?;
    }
    all.push(chunk)?;
    Page::of(memory, all)
}

// These pages, which are shared, and one more.
fn longer(memory: Memory, pages: &[Page], page: Page) -> Result<Pages, NoMemory>
    ensures { IfOk result (λ all. all ≡ pages.now ++ page ∷ []) }
{
    let mut all = Vec::with_capacity(memory, pages.len().saturating_add(1))?;
    for other in pages {
        all.push(other.share()?)?;
    }
    all.push(page)?;
    Pages::of(memory, all)
}

// Pages with the chunk after the others. They share all of these pages except the last.
fn with_chunk(memory: Memory, pages: &[Page], chunk: Chunk) -> Result<Pages, NoMemory>
    requires filled { AreFilled pages.now }
    requires chunk { IsFilled chunk }
    ensures joined { IfOk result (λ all. joined all ≡ joined pages.now ++ chunk) }
    ensures filled { IfOk result (λ all. AreFilled all) }
{
    let (others, chunks) = end_of(pages);
    let page = longer_page(memory, chunks, chunk)?;
    longer(memory, others, page)
}

/// The items, and one more after them. If the open chunk is full, it goes into the pages, and the item begins the next
/// chunk.
pub fn grown(memory: Memory, layout: &Layout, item: Item) -> Result<Layout, NoMemory>
    requires { IsLaid layout.now }
    ensures items { IfOk result (λ l. items_in l ≡ items_in layout.now ++ item_of item ∷ []) }
    ensures laid { IfOk result (λ l. IsLaid l) }
{
    let items = layout.newest.as_slice();
    if items.len() < MAX_ITEMS {
        return Ok(Layout {
            pages: layout.pages.share()?,
            newest: longer_chunk(memory, items, item)?,
        });
    }
    Ok(Layout {
        pages: with_chunk(memory, layout.pages.as_slice(), layout.newest.share()?)?,
        newest: longer_chunk(memory, &[], item)?,
    })
}
