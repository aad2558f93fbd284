//! Jobs that threads do at once.

ghost use Rattle.std.specs.Prelude.{◌≡◌, ℕ, ◌<◌, length, slice_index_or, All, IfOk};
ghost use Rattle.mp_mempool.specs.Jobs.{IsOfOne};

use std::alloc::{AllocError, Allocator};
use std::sync::Wait;
use std::thread::{Threads, map_vec};

/// What each of several threads does with an item of its own.
pub trait Job<T, U>: Sync {
    // `takes self item`: the job may be done with this item.
    ghost takes: { Self → T → Type 0 };
    // `does self item result`: the job may make this result of the item.
    ghost does: { Self → T → U → Type 0 };

    /// Does the job with the item.
    fn run<R: Wait>(&self, rt: &R, item: T) -> U
        requires { takes self.now item }
        ensures { does self.now item result };
}

/// Does the job with each item, in a thread of its own if one can be made. The results are in the order of the items.
///
/// # Errors
/// An allocation failed, and then some items may have been dropped.
pub fn run_all<
    T: Send + Drop,
    U: Send + Drop,
    A: Allocator + Clone + Send,
    R: Threads + Wait + Sync,
    J: Job<T, U>,
>(rt: &R, job: &J, items: Vec<T, A>) -> Result<Vec<U, A>, AllocError>
    requires { All (J.takes job.now) items.items }
    ensures number { IfOk result (λ done. length done.items ≡ length items.items) }
    ensures of { IfOk result (λ done. All (IsOfOne (J.does job.now) items.items) done.items) }
    ensures each { IfOk result (λ done. (i : ℕ) (t : T) (u : U) → i < length items.items
        → J.does job.now (slice_index_or items.items i t) (slice_index_or done.items i u)) }
{
    map_vec(
        rt,
        items,
        &|item: T| -> U
            requires { J.takes job.now item }
            ensures { J.does job.entry.now item result }
        { job.run(rt, item) },
    )
}
