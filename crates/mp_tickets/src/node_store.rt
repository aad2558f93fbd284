//! The owner of the nodes' memory. Only this module and `raw_box` use raw memory.
ghost use Rattle.std.specs.Prelude.{◌≡◌, ◌<◌, List, [], ◌∷◌, ◌++◌};
ghost use Rattle.std.specs.Borrow.{sem};
ghost use Rattle.std.specs.Coded.{prop_coded};
ghost use Rattle.std.specs.Mem.{type_size};
ghost use Rattle.lru.specs.Linked.{IsApart, IsApart-prop};
ghost use Rattle.mp_tickets.specs.Inside.Cell.{Cell, cell, ptrs, IsAt, AtCell};
ghost use Rattle.mp_tickets.specs.Inside.Ownership.{cells_own, cells_lent};

use crate::raw_box::RawBox;
use mp_memory::Memory;
use std::marker::{Model, PhantomData, Send, Sync};

/// The address of a node. It owns nothing.
#[derive(Clone, Copy)]
pub(crate) struct NodePtr {
    pub(crate) at: *mut u8,
}

unsafe impl Send for NodePtr {}

unsafe impl Sync for NodePtr {}

/// Owns the values that were inserted and not yet removed, each in its own block. It takes no space itself, and finds
/// its values only by their pointers.
pub(crate) struct NodeStore<N> {
    mark: PhantomData<*mut N>,
    // The values in the order in which they were inserted, with their addresses.
    ghost cells: { List (Cell N) },
    // No two have the same address.
    ghost apart: { IsApart (ptrs cells) } by { prop_coded (IsApart-prop (ptrs cells)) },
}

impl<N> Model for NodeStore<N> {
    ghost also_owns = { λ h. cells_own N.row h.cells };

    ghost also_shares = { λ h _ κ. cells_lent N.row h.cells κ };
}

unsafe impl<N: Send> Send for NodeStore<N> {}

unsafe impl<N: Sync> Sync for NodeStore<N> {}

impl<N> NodeStore<N> {
    ghost use Rattle.mp_tickets.specs.Inside.Lends.{lends_cell};

    /// An empty store.
    pub(crate) fn new() -> NodeStore<N>
        ensures { result.cells ≡ [] }
    {
        NodeStore { mark: PhantomData }
    }

    /// Takes the value in as the last cell, and returns its address. Any handle may free it later.
    pub(crate) fn insert(&mut self, value: RawBox<N, Memory>) -> NodePtr
        requires { 0 < type_size N.row }
        ensures ptr { result.at ≡ value.at }
        ensures cells { self.new.cells ≡ self.old.cells ++ cell value.at value.value ∷ [] }
    {
        let RawBox { at, alloc: _ } = value;
        NodePtr { at: at as *mut u8 }
    }

    /// Returns the value at this address, with a handle that can free it.
    pub(crate) fn remove(&mut self, ptr: NodePtr, memory: Memory) -> RawBox<N, Memory>
        requires { IsAt self.old.cells ptr.at }
        ensures { AtCell self.old.cells ptr.at (λ xs c ys.
            (self.new.cells ≡ xs ++ ys) × (c ≡ cell result.at result.value)) }
    {
        RawBox {
            at: ptr.at as *mut N,
            alloc: memory,
        }
    }

    /// The value at this address.
    pub(crate) fn get(&self, ptr: NodePtr) -> &N
        requires { IsAt self.now.cells ptr.at }
        ensures { AtCell self.now.cells ptr.at (λ _ c _. result.now ≡ c.value) }
    {
        unsafe { &*(ptr.at as *mut N) }
    }

    /// The value at this address, to write to.
    pub(crate) fn get_mut(&mut self, ptr: NodePtr) -> &mut N
        requires { IsAt self.old.cells ptr.at }
        ensures* writes_back { sem 𝓛 (lends_cell N.row self.entry ptr.at result) }
        ensures value { AtCell self.old.cells ptr.at (λ _ c _. result.now ≡ c.value) }
    {
        unsafe { &mut *(ptr.at as *mut N) }
    }

    /// Ends an empty store.
    pub(crate) fn end(self)
        requires { self.cells ≡ [] }
    {
        let NodeStore { mark: _ } = self;
    }
}
