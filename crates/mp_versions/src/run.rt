//! Items in order, read without memory.
ghost use Rattle.std.specs.Prelude.{◌≡◌, [], ◌++◌, length};
ghost use Rattle.std.specs.List.{All};
ghost use Rattle.std.specs.Iterator.{at_most};
ghost use Rattle.std.specs.Map.Iter.{TakesFirst};
ghost use Rattle.mp_seqpool.specs.Item.{items_of, shown};
ghost use Rattle.mp_seqpool.specs.Reading.{within};
ghost use Rattle.mp_versions.specs.Pages.{flattened, joined, IsFilled, AreFilled};
ghost use Rattle.mp_versions.specs.Inside.Run.{run_of};

use crate::chunk::Chunk;
use crate::page::Page;
use mp_seqpool::Item;
use std::marker::Model;

/// Visits items in order, and takes no memory. A contract sees the remaining ones.
#[derive(Drop)]
pub struct Run<'a> {
    items: &'a [Item],
    chunks: &'a [Chunk],
    pages: &'a [Page],
    newest: &'a [Item],
}

impl<'a> Model for Run<'a> {
    ghost use Rattle.std.specs.Prelude.{ℕ, List};
    ghost use Rattle.std.specs.List.{All};
    ghost use Rattle.mp_tx.specs.Transaction.{Transaction};
    ghost use Rattle.mp_versions.specs.Pages.{IsFilled, AreFilled};
    ghost use Rattle.mp_versions.specs.Inside.Run.{run_of};

    ghost Value = { List (ℕ × Transaction) };

    ghost view = { λ r. run_of r.items.now r.chunks.now r.pages.now r.newest.now };

    ghost invariant = { λ r. All IsFilled r.chunks.now × AreFilled r.pages.now };
}

// Items, and the chunks, the pages and the newest items after them.
type Parts<'a> = (&'a [Item], &'a [Chunk], &'a [Page], &'a [Item]);

// Begins with the items of the first chunk, or else with the newest.
fn first_of_pages<'a>(pages: &'a [Page], newest: &'a [Item]) -> Parts<'a>
    requires { AreFilled pages.now }
    ensures all { run_of result.0.now result.1.now result.2.now result.3.now
        ≡ joined pages.now ++ items_of newest.now }
    ensures chunks { All IsFilled result.1.now }
    ensures pages { AreFilled result.2.now }
    ensures none { length result.0.now ≡ 0 → joined pages.now ++ items_of newest.now ≡ [] }
{
    let Some((page, others)) = pages.split_first() else {
        return (newest, &[], &[], &[]);
    };
    match page.as_slice().split_first() {
        Some((chunk, chunks)) => (chunk.as_slice(), chunks, others, newest),
        None => (&[], &[], others, newest),
    }
}

// Begins with the items of the first chunk, or else with the newest.
fn first_of<'a>(chunks: &'a [Chunk], pages: &'a [Page], newest: &'a [Item]) -> Parts<'a>
    requires chunks { All IsFilled chunks.now }
    requires pages { AreFilled pages.now }
    ensures all { run_of result.0.now result.1.now result.2.now result.3.now
        ≡ flattened chunks.now ++ (joined pages.now ++ items_of newest.now) }
    ensures chunks { All IsFilled result.1.now }
    ensures pages { AreFilled result.2.now }
    ensures none { length result.0.now ≡ 0
        → flattened chunks.now ++ (joined pages.now ++ items_of newest.now) ≡ [] }
{
    match chunks.split_first() {
        Some((chunk, others)) => (chunk.as_slice(), others, pages, newest),
        None => first_of_pages(pages, newest),
    }
}

impl<'a> Run<'a> {
    /// These items, the items of these chunks, those of these pages, and the newest.
    pub(crate) fn of(
        items: &'a [Item],
        chunks: &'a [Chunk],
        pages: &'a [Page],
        newest: &'a [Item],
    ) -> Run<'a>
        requires chunks { All IsFilled chunks.now }
        requires pages { AreFilled pages.now }
        ensures { result ≡ run_of items.now chunks.now pages.now newest.now }
    {
        Run {
            items,
            chunks,
            pages,
            newest,
        }
    }

    /// The longest prefix of the remaining items that has at most this many bytes.
    pub fn within(self, bytes: u64) -> RunWithin<'a>
        ensures { result ≡ within bytes self.entry }
    {
        RunWithin {
            run: self,
            room: bytes,
        }
    }
}

impl<'a> Iterator for Run<'a> {
    type Item = &'a Item;

    ghost next_gives = { TakesFirst shown };

    ghost remaining = { λ s. at_most (length s) };

    fn next(&mut self) -> Option<&'a Item> {
        if self.items.is_empty() {
            (self.items, self.chunks, self.pages, self.newest) = first_of(
                self.chunks,
                self.pages,
                self.newest,
            );
        }
        let (item, others) = self.items.split_first()?;
        self.items = others;
        Some(item)
    }
}

/// The longest prefix of a run within a number of bytes. A contract sees what remains of it.
#[derive(Drop)]
pub struct RunWithin<'a> {
    run: Run<'a>,
    room: u64,
}

impl<'a> Model for RunWithin<'a> {
    ghost use Rattle.std.specs.Prelude.{ℕ, List};
    ghost use Rattle.mp_tx.specs.Transaction.{Transaction};
    ghost use Rattle.mp_seqpool.specs.Reading.{within};

    ghost Value = { List (ℕ × Transaction) };

    ghost view = { λ r. within r.room r.run };
}

impl<'a> Iterator for RunWithin<'a> {
    type Item = &'a Item;

    ghost next_gives = { TakesFirst shown };

    ghost remaining = { λ s. at_most (length s) };

    fn next(&mut self) -> Option<&'a Item> {
        let item = self.run.next()?;
        let size = item.tx.size();
        if size <= self.room {
            self.room -= size;
            Some(item)
        } else {
            self.run = Run::of(&[], &[], &[], &[]);
            None
        }
    }
}
