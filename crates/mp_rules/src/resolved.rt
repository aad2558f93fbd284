//! The outputs that a transaction names.

use mp_memory::Memory;
use mp_tx::{Few, Output};
use std::marker::Model;

/// The outputs that a transaction names: those that its inputs spend, in order, and those that its references lead to.
/// Their bundles are shared with the map that they come from.
#[derive(Debug)]
pub struct Resolved {
    spent: Few<Output>,
    referenced: Vec<Output, Memory>,
}

impl Drop for Resolved {
    fn drop(self) {
        let Resolved {
            spent: _,
            referenced: _,
        } = self;
    }
}

impl Model for Resolved {
    ghost use Rattle.mp_rules.specs.Resolved as told;

    ghost Value = { told.Resolved };

    ghost use Rattle.mp_rules.specs.Inside.Resolved.{resolved, IsFew};

    ghost view = { resolved };

    ghost invariant = { IsFew };
}

impl Resolved {
    ghost use Rattle.std.specs.Prelude.{◌≡◌, ◌≤◌, length};

    /// These outputs. There are at most 256 of each.
    pub(crate) fn of(spent: Vec<Output, Memory>, referenced: Vec<Output, Memory>) -> Resolved
        requires spent { length spent.items ≤ 256 }
        requires referenced { length referenced.items ≤ 256 }
        ensures { result ≡ record { spent = spent.items; referenced = referenced.items } }
    {
        Resolved {
            spent: Few::of(spent),
            referenced,
        }
    }

    /// What the inputs spend, in order.
    pub fn spent(&self) -> &[Output]
        ensures same { result.now ≡ self.now.spent }
        ensures few { length result.now ≤ 256 }
    {
        self.spent.as_slice()
    }

    /// What the references lead to, in order.
    pub fn referenced(&self) -> &[Output]
        ensures same { result.now ≡ self.now.referenced }
        ensures few { length result.now ≤ 256 }
    {
        &self.referenced
    }
}
