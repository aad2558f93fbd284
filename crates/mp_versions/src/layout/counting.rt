//! The number of items.

ghost use Rattle.std.specs.Prelude.{◌≡◌, ◌<◌, ◌^◌, length};
ghost use Rattle.mp_versions.specs.Layout.{items_in};
ghost use Rattle.mp_versions.specs.Pages.{flattened, joined};

use crate::chunk::Chunk;
use crate::layout::Layout;
use crate::page::Page;

// The number of items in the chunks.
fn count_in(chunks: &[Chunk]) -> usize
    requires { length (flattened chunks.now) < 2 ^ 64 }
    ensures { result ≡ length (flattened chunks.now) }
{
    let mut count = 0;
    for chunk in chunks {
        count += chunk.as_slice().len();
    }
    count
}

// The number of items in the pages.
fn count_in_pages(pages: &[Page]) -> usize
    requires { length (joined pages.now) < 2 ^ 64 }
    ensures { result ≡ length (joined pages.now) }
{
    let mut count = 0;
    for page in pages {
        count += count_in(page.as_slice());
    }
    count
}

/// The number of items. It doesn't iterate over them.
pub fn count_of(layout: &Layout) -> usize
    requires { length (items_in layout.now) < 2 ^ 64 }
    ensures { result ≡ length (items_in layout.now) }
{
    count_in_pages(layout.pages.as_slice()) + layout.newest.as_slice().len()
}
