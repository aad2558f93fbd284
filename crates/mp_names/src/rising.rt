//! Lists in increasing order: entries of bundles, inputs, references, policy scripts and signatures.

ghost use Rattle.std.specs.Prelude.{◌≡◌, ◌≤◌, length, position, OnOk};
ghost use Rattle.std.specs.List.{position_or_len};
ghost use Rattle.std.specs.Ordering.{is_lt};
ghost use Rattle.std.specs.declared.cmp.Ordering.{Ordering};
ghost use Rattle.mp_tx.specs.Reference.{ref_cmp};
ghost use Rattle.mp_tx.specs.Transaction.{script_cmp, signature_cmp};
ghost use Rattle.mp_names.specs.Rising.{entry_cmp, input_cmp, insert_rising};

use mp_bundle::TokenEntry;
use mp_memory::{Memory, NoMemory};
use mp_script::Script;
use mp_tx::{Input, OutRef, Signature};
use std::cmp::Ordering;

/// The items of a list in increasing order.
pub trait Rising {
    ghost order: { Self → Self → Ordering };

    /// Its order relative to another item of such a list.
    fn compare(&self, other: &Self) -> Ordering
        ensures { result ≡ order self.now other.now };
}

impl Rising for TokenEntry {
    ghost order = { entry_cmp };

    fn compare(&self, other: &TokenEntry) -> Ordering {
        self.0.cmp(&other.0)
    }
}

impl Rising for Input {
    ghost order = { input_cmp };

    fn compare(&self, other: &Input) -> Ordering {
        self.from.cmp(&other.from)
    }
}

impl Rising for OutRef {
    ghost order = { ref_cmp };

    fn compare(&self, other: &OutRef) -> Ordering {
        self.cmp(other)
    }
}

impl Rising for Script {
    ghost order = { script_cmp };

    fn compare(&self, other: &Script) -> Ordering {
        self.bytes().cmp(other.bytes())
    }
}

impl Rising for Signature {
    ghost order = { signature_cmp };

    fn compare(&self, other: &Signature) -> Ordering {
        self.key.cmp(&other.key).then(self.sig.cmp(&other.sig))
    }
}

fn precedes<T: Rising>(item: &T, other: &T) -> bool
    ensures { result ≡ is_lt (T.order item.now other.now) }
{
    item.compare(other).is_lt()
}

fn first_greater<T: Rising>(item: &T, items: &[T]) -> Option<usize>
    ensures { result ≡ position (λ other. is_lt (T.order item.now other)) items.now }
{
    items.iter().position(|other| precedes(item, other))
}

fn place_of<T: Rising>(item: &T, items: &[T]) -> usize
    ensures place { result
        ≡ position_or_len (λ other. is_lt (T.order item.now other)) items.now }
    ensures within { result ≤ length items.now }
{
    first_greater(item, items).unwrap_or(items.len())
}

/// Puts the item before the first one that is greater.
pub fn insert_rising<T: Rising + Drop>(items: &mut Vec<T, Memory>, item: T) -> Result<(), NoMemory>
    ensures { OnOk result (items.new.items ≡ insert_rising T.order item items.old.items) }
{
    let place = place_of(&item, items);
    items.insert(place, item)?;
    Ok(())
}
