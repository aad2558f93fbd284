//! A box as its pointer.
ghost use Rattle.std.specs.Prelude.{◌≡◌};
ghost use Rattle.std_alloc.specs.Box.Ownership.{box_owns};

use std::alloc::Allocator;
use std::marker::Model;

/// A value in a block of its own, and a handle that can free the block.
pub(crate) struct RawBox<N, A: Allocator> {
    pub(crate) at: *mut N,
    pub(crate) alloc: A,
    pub(crate) ghost value: { N },
}

impl<N, A: Allocator> Model for RawBox<N, A> {
    ghost also_owns = { λ l. box_owns (A.dealloc_token l.alloc) N.row l.at l.value };
}

impl<N: Drop, A: Allocator> RawBox<N, A> {
    /// The box, taken apart.
    pub(crate) fn from_box(value: Box<N, A>) -> RawBox<N, A>
        ensures { result.value ≡ value.value }
    {
        let (at, alloc) = Box::into_raw_with_allocator(value);
        RawBox { at, alloc }
    }

    /// The box again.
    pub(crate) fn into_box(self) -> Box<N, A>
        ensures { result.value ≡ self.value }
    {
        let RawBox { at, alloc } = self;
        unsafe { Box::from_raw(alloc, at) }
    }
}
