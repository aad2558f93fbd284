//! Lists that rarely have more than one item.

ghost use Rattle.std.specs.Prelude.{◌≡◌};
ghost use Rattle.mp_tx.specs.Inside.Few.{those};

use mp_memory::Memory;
use std::marker::Model;

// One item, which is seen as a slice. It has a type of its own, as the checker has no rule for the drop of an enum with
// an array.
#[derive(Debug, Drop)]
struct Lone<T> {
    item: [T; 1],
}

#[derive(Debug, Drop)]
enum Stored<T> {
    One(Lone<T>),
    Several(Vec<T, Memory>),
}

/// A list of fixed length. A single item is stored in the list itself, and takes no memory. Contracts see the items.
#[derive(Debug)]
pub struct Few<T> {
    kept: Stored<T>,
}

impl<T: Drop> Drop for Few<T> {
    fn drop(self) {
        let Few { kept: _ } = self;
    }
}

impl<T> Model for Few<T> {
    ghost use Rattle.std.specs.Prelude.{List};

    ghost Value = { List T };

    ghost use Rattle.mp_tx.specs.Inside.Few.{those};

    ghost view = { λ f. those f.kept };
}

fn keep_exact<T: Drop>(items: Vec<T, Memory>) -> Stored<T>
    ensures { those result ≡ items.items }
{
    let mut items = items;
    if items.len() == 1 {
        if let Some(only) = items.pop() {
            return Stored::One(Lone { item: [only] });
        }
    }
    items.shrink_to_fit();
    Stored::Several(items)
}

impl<T: Drop> Few<T> {
    /// A list of these items, with no spare capacity. It takes no memory, and frees that of a single item.
    pub fn of(items: Vec<T, Memory>) -> Few<T>
        ensures { result ≡ items.items }
    {
        Few {
            kept: keep_exact(items),
        }
    }

    /// The items, in their order.
    pub fn as_slice(&self) -> &[T]
        ensures { result.now ≡ self.now }
    {
        match &self.kept {
            Stored::One(only) => &only.item,
            Stored::Several(items) => items,
        }
    }
}
