//! Whether a transaction is among items.

ghost use Rattle.std.specs.Prelude.{◌≡◌};
ghost use Rattle.std.specs.List.{list_any};
ghost use Rattle.mp_seqpool.specs.Item.{item_of};
ghost use Rattle.mp_versions.specs.Layout.{items_in};
ghost use Rattle.mp_versions.specs.Pages.{has_id, is_of};

use crate::chunk::Chunk;
use crate::layout::Layout;
use crate::page::Page;
use mp_seqpool::Item;
use mp_tx::TxId;

// Whether the item's transaction has this id.
fn has_that_id(item: &Item, id: &TxId) -> bool
    ensures { result ≡ is_of id.now (item_of item.now) }
{
    id == item.tx.id()
}

fn items_have(items: &[Item], id: &TxId) -> bool
    ensures { result ≡ list_any (λ i. is_of id.now (item_of i)) items.now }
{
    items.iter().any(|item| has_that_id(item, id))
}

fn chunk_has(chunk: &Chunk, id: &TxId) -> bool
    ensures { result ≡ has_id id.now chunk.now }
{
    items_have(chunk.as_slice(), id)
}

fn chunks_have(chunks: &[Chunk], id: &TxId) -> bool
    ensures { result ≡ list_any (has_id id.now) chunks.now }
{
    chunks.iter().any(|chunk| chunk_has(chunk, id))
}

fn pages_have(pages: &[Page], id: &TxId) -> bool
    ensures { result ≡ list_any (list_any (has_id id.now)) pages.now }
{
    pages.iter().any(|page| chunks_have(page.as_slice(), id))
}

/// Whether one of the items is the transaction with this id. It iterates over all items.
pub fn has(layout: &Layout, id: &TxId) -> bool
    ensures { result ≡ has_id id.now (items_in layout.now) }
{
    pages_have(layout.pages.as_slice(), id) || chunk_has(&layout.newest, id)
}
