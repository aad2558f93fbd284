//! One entry of a history.

use mp_seqpool::{Command, Reply};
use std::marker::Model;

/// What one caller asked of the pool, and what the pool replied.
#[derive(Drop)]
pub struct Entry {
    pub caller: u32,
    pub command: Command,
    pub reply: Reply,
}

impl Model for Entry {
    ghost use Rattle.std.specs.Coded.{codes};
    ghost use Rattle.std.specs.FinMap as finite;
    ghost use Rattle.mp_history.specs.Entry as told;

    ghost Value = { told.Entry };

    ghost coded = { Prim.hlevel (codes, finite.code) };

    ghost use Rattle.mp_history.specs.Inside.Entry.{entry_of};

    ghost view = { entry_of };
}
