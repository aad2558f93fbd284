//! A stack of fixed capacity, which takes no memory.

use arrayvec::ArrayVec;
use std::marker::Model;

/// A stack of at most `N` items. Contracts see its items, the top first.
#[derive(Drop)]
pub struct Stack<T: Default + Drop, const N: usize> {
    places: ArrayVec<T, N>,
}

impl<T: Default + Drop, const N: usize> Model for Stack<T, N> {
    ghost use Rattle.std.specs.Prelude.{List, reverse};

    ghost Value = { List T };

    ghost view = { λ s. reverse s.places.items };
}

impl<T: Default + Drop, const N: usize> Stack<T, N> {
    ghost use Rattle.std.specs.Prelude.{◌≡◌, ◌<◌, ◌≤◌, [], ◌∷◌, length, IfSome, IfNone};

    /// An empty stack.
    pub fn new() -> Stack<T, N>
        ensures { result ≡ [] }
    {
        Stack {
            places: ArrayVec::new(),
        }
    }

    /// The number of items.
    pub fn len(&self) -> usize
        ensures same { result ≡ length self.now }
        ensures room { result ≤ N }
    {
        self.places.len()
    }

    /// Puts an item on top. The stack must not be full.
    pub fn push(&mut self, item: T)
        requires { length self.old < N }
        ensures { self.new ≡ item ∷ self.old }
    {
        self.places.push(item);
    }

    /// Takes the top item, if there is one.
    pub fn pop(&mut self) -> Option<T>
        ensures some { IfSome result (λ item. self.old ≡ item ∷ self.new) }
        ensures none { IfNone result ((self.old ≡ []) × (self.new ≡ [])) }
    {
        self.places.pop()
    }
}
