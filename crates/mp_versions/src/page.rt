//! Chunks that are shared together.

use crate::chunk::Chunk;
use mp_memory::{Memory, NoMemory};
use std::marker::Model;
use std::sync::Arc;

/// The greatest number of chunks in a page.
pub const MAX_CHUNKS: usize = 64;

/// Chunks that are shared as one if none of them changes.
pub struct Page {
    chunks: Arc<Vec<Chunk, Memory>, Memory>,
}

impl Drop for Page {
    fn drop(self) {
        let Page { chunks: _ } = self;
    }
}

impl Model for Page {
    ghost use Rattle.std.specs.Prelude.{ℕ, List};
    ghost use Rattle.std.specs.Arc.{arc_value};
    ghost use Rattle.mp_tx.specs.Transaction.{Transaction};

    ghost Value = { List (List (ℕ × Transaction)) };

    ghost view = { λ p. (arc_value p.chunks).items };
}

impl Page {
    ghost use Rattle.std.specs.Prelude.{◌≡◌, IfOk};
    ghost use Rattle.mp_versions.specs.Pages.{first_by, last_by, first_ticket, last_ticket};

    /// A page of these chunks.
    pub fn of(memory: Memory, chunks: Vec<Chunk, Memory>) -> Result<Page, NoMemory>
        ensures { IfOk result (λ p. p ≡ chunks.items) }
    {
        Ok(Page {
            chunks: Arc::new(memory, chunks)?,
        })
    }

    /// The same page, shared. Returns `NoMemory` if there are too many owners.
    pub fn share(&self) -> Result<Page, NoMemory>
        ensures { IfOk result (λ p. p ≡ self.now) }
    {
        Ok(Page {
            chunks: Arc::try_clone(&self.chunks)?,
        })
    }

    /// Its chunks, in order.
    pub fn as_slice(&self) -> &[Chunk]
        ensures { result.now ≡ self.now }
    {
        &self.chunks
    }

    /// The first ticket of its first chunk, or 0 if there are no chunks.
    pub fn first_ticket(&self) -> u64
        ensures { result ≡ first_by first_ticket self.now }
    {
        match self.as_slice().first() {
            Some(chunk) => chunk.first_ticket(),
            None => 0,
        }
    }

    /// The last ticket of its last chunk, or 0 if there are no chunks.
    pub fn last_ticket(&self) -> u64
        ensures { result ≡ last_by last_ticket 0 self.now }
    {
        match self.as_slice().split_last() {
            Some((chunk, _)) => chunk.last_ticket(),
            None => 0,
        }
    }
}
