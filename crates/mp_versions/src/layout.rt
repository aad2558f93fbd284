//! The layout of items: reading it, and changing it.

mod building;
mod counting;
mod growing;
mod reading;
mod removal;
mod searching;

ghost use Rattle.std.specs.Prelude.{◌≡◌, IfOk};

use crate::chunk::Chunk;
use crate::pages::Pages;
pub use building::of_pool;
pub use counting::count_of;
pub use growing::grown;
use mp_memory::NoMemory;
pub use reading::{bytes_among, chunk_at, find, run_after, run_back, run_of};
pub use removal::without;
pub use searching::has;

/// The items of pages, followed by those of an open chunk, which is the newest and may be empty.
pub struct Layout {
    pub pages: Pages,
    pub newest: Chunk,
}

impl Drop for Layout {
    fn drop(self) {
        let Layout {
            pages: _,
            newest: _,
        } = self;
    }
}

impl Layout {
    /// The same items, shared. Returns `NoMemory` if there are too many owners.
    pub fn share(&self) -> Result<Layout, NoMemory>
        ensures { IfOk result (λ l. l ≡ self.now) }
    {
        Ok(Layout {
            pages: self.pages.share()?,
            newest: self.newest.share()?,
        })
    }
}
