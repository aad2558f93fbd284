//! Pages that are shared together.

use crate::page::Page;
use mp_memory::{Memory, NoMemory};
use std::marker::Model;
use std::sync::Arc;

/// Pages that are shared as one if none of them changes.
pub struct Pages {
    pages: Arc<Vec<Page, Memory>, Memory>,
}

impl Drop for Pages {
    fn drop(self) {
        let Pages { pages: _ } = self;
    }
}

impl Model for Pages {
    ghost use Rattle.std.specs.Prelude.{ℕ, List};
    ghost use Rattle.std.specs.Arc.{arc_value};
    ghost use Rattle.mp_tx.specs.Transaction.{Transaction};

    ghost Value = { List (List (List (ℕ × Transaction))) };

    ghost view = { λ p. (arc_value p.pages).items };
}

impl Pages {
    ghost use Rattle.std.specs.Prelude.{◌≡◌, IfOk};
    ghost use Rattle.mp_versions.specs.Pages.{last_by, last_ticket};

    /// These pages.
    pub fn of(memory: Memory, pages: Vec<Page, Memory>) -> Result<Pages, NoMemory>
        ensures { IfOk result (λ p. p ≡ pages.items) }
    {
        Ok(Pages {
            pages: Arc::new(memory, pages)?,
        })
    }

    /// The same pages, shared. Returns `NoMemory` if there are too many owners.
    pub fn share(&self) -> Result<Pages, NoMemory>
        ensures { IfOk result (λ p. p ≡ self.now) }
    {
        Ok(Pages {
            pages: Arc::try_clone(&self.pages)?,
        })
    }

    /// The pages, in order.
    pub fn as_slice(&self) -> &[Page]
        ensures { result.now ≡ self.now }
    {
        &self.pages
    }

    /// The last ticket of the last page, or 0 if there are no pages.
    pub fn last_ticket(&self) -> u64
        ensures { result ≡ last_by (last_by last_ticket 0) 0 self.now }
    {
        match self.as_slice().split_last() {
            Some((page, _)) => page.last_ticket(),
            None => 0,
        }
    }
}
