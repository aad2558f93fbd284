//! Items from the newest back, read without memory.
ghost use Rattle.std.specs.Prelude.{◌≡◌, [], ◌++◌, length, reverse};
ghost use Rattle.std.specs.List.{All};
ghost use Rattle.std.specs.Iterator.{at_most};
ghost use Rattle.std.specs.Map.Iter.{TakesFirst};
ghost use Rattle.mp_seqpool.specs.Item.{items_of, shown};
ghost use Rattle.mp_versions.specs.Pages.{flattened, joined, IsFilled, AreFilled};
ghost use Rattle.mp_versions.specs.Inside.Run.{run_up_to};

use crate::chunk::Chunk;
use crate::page::Page;
use mp_seqpool::Item;
use std::marker::Model;

/// Visits items from the newest back, and takes no memory. A contract sees the remaining ones, the newest first.
#[derive(Drop)]
pub struct RunBack<'a> {
    pages: &'a [Page],
    chunks: &'a [Chunk],
    items: &'a [Item],
}

impl<'a> Model for RunBack<'a> {
    ghost use Rattle.std.specs.Prelude.{ℕ, List, reverse};
    ghost use Rattle.std.specs.List.{All};
    ghost use Rattle.mp_tx.specs.Transaction.{Transaction};
    ghost use Rattle.mp_versions.specs.Pages.{IsFilled, AreFilled};
    ghost use Rattle.mp_versions.specs.Inside.Run.{run_up_to};

    ghost Value = { List (ℕ × Transaction) };

    ghost view = { λ r. reverse (run_up_to r.pages.now r.chunks.now r.items.now) };

    ghost invariant = { λ r. AreFilled r.pages.now × All IsFilled r.chunks.now };
}

// The pages and chunks before the last chunk, and its items.
fn last_of_pages(pages: &[Page]) -> (&[Page], &[Chunk], &[Item])
    requires { AreFilled pages.now }
    ensures all { run_up_to result.0.now result.1.now result.2.now ≡ joined pages.now }
    ensures pages { AreFilled result.0.now }
    ensures chunks { All IsFilled result.1.now }
    ensures none { length result.2.now ≡ 0 → joined pages.now ≡ [] }
{
    let Some((page, others)) = pages.split_last() else {
        return (&[], &[], &[]);
    };
    match page.as_slice().split_last() {
        Some((chunk, chunks)) => (others, chunks, chunk.as_slice()),
        None => (others, &[], &[]),
    }
}

// The pages and chunks before the last chunk, and its items.
fn last_of<'a>(pages: &'a [Page], chunks: &'a [Chunk]) -> (&'a [Page], &'a [Chunk], &'a [Item])
    requires pages { AreFilled pages.now }
    requires chunks { All IsFilled chunks.now }
    ensures all { run_up_to result.0.now result.1.now result.2.now
        ≡ joined pages.now ++ flattened chunks.now }
    ensures pages { AreFilled result.0.now }
    ensures chunks { All IsFilled result.1.now }
    ensures none { length result.2.now ≡ 0 → joined pages.now ++ flattened chunks.now ≡ [] }
{
    match chunks.split_last() {
        Some((chunk, others)) => (pages, others, chunk.as_slice()),
        None => last_of_pages(pages),
    }
}

impl<'a> RunBack<'a> {
    /// The items of these pages, and the newest.
    pub(crate) fn of(pages: &'a [Page], newest: &'a [Item]) -> RunBack<'a>
        requires { AreFilled pages.now }
        ensures { result ≡ reverse (joined pages.now ++ items_of newest.now) }
    {
        RunBack {
            pages,
            chunks: &[],
            items: newest,
        }
    }
}

impl<'a> Iterator for RunBack<'a> {
    type Item = &'a Item;

    ghost next_gives = { TakesFirst shown };

    ghost remaining = { λ s. at_most (length s) };

    fn next(&mut self) -> Option<&'a Item> {
        if self.items.is_empty() {
            (self.pages, self.chunks, self.items) = last_of(self.pages, self.chunks);
        }
        let (item, others) = self.items.split_last()?;
        self.items = others;
        Some(item)
    }
}
