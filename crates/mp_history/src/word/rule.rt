//! The rule of a history's words, and the steps on them.
use crate::entry::Entry;
use logbook::{Gain, Pen, Plain, Play, Rule, Word};
use mp_seqpool::SeqPool;
use std::marker::{Model, PhantomData};

/// What a book of histories contains. No program has it: only proofs use its values.
pub struct Noted {
    of: PhantomData<()>,
}

impl Model for Noted {
    ghost use Rattle.std.specs.Prelude.{[]};
    ghost use Rattle.std.specs.Coded.{codes};
    ghost use Rattle.std.specs.FinMap as finite;
    ghost use Rattle.mp_history.specs.Inside.Noted as noted;

    ghost Value = { noted.Noted };

    ghost coded = { Prim.hlevel (codes, finite.code) };

    ghost view = { λ n. record {
      root = 0;
      used = 0;
      next = 0;
      opening = noted.no_state;
      entries = [];
    } };
}

/// What holds of the words of histories between any two steps.
pub struct Law;

impl Rule<Noted, u64> for Law {
    ghost use Rattle.std.specs.Prelude.{[]};
    ghost use base.Fml.{ftrue};
    ghost use Rattle.mp_history.specs.Inside.Rule.{IsKept};

    ghost holds = { λ cells log. IsKept cells log };

    ghost first = { [] };

    ghost hinted = { λ n log. Unit {0} };

    ghost shows = { λ log. [] };

    ghost keeps = { λ names log. ftrue };

    ghost moves = { λ ask before after answer. Unit {0} };
}

/// Callers exchange nothing with the book, and a step without an entry has no argument.
pub struct Nothing;

impl Gain<Noted, u64> for Nothing {
    ghost use base.Fml.{ftrue};

    ghost after = { λ names about answer. ftrue };
}

impl Plain<(), Noted, u64> for Nothing {
    ghost use Rattle.std.specs.Prelude.{None, []};
    ghost use Rattle.mp_history.specs.Inside.Noted.{no_state};

    ghost ask = { λ _. record {
      root = 0;
      used = 0;
      next = 0;
      opening = no_state;
      entries = [];
    } };

    ghost state = { λ _. None };
}

/// A step that adds a cell.
pub struct Adds;

impl Play<Noted, u64> for Adds {
    ghost use Rattle.mp_history.specs.Inside.Rule as told;

    ghost then = { told.Adds };
}

/// What a history opens with: the pen of its word, the pen of the first right, the pool's content, and the greatest
/// number of changes.
#[derive(Clone, Copy)]
pub struct Opening<'a> {
    pub head: &'a Pen,
    pub next: &'a Pen,
    pub pool: &'a SeqPool,
    pub limit: u64,
}

/// A step that opens a history.
pub struct Opens;

impl Play<Noted, u64> for Opens {
    ghost use Rattle.mp_history.specs.Inside.Rule as told;

    ghost then = { told.Opens };
}

impl<'a> Plain<Opening<'a>, Noted, u64> for Opens {
    ghost use Rattle.std.specs.Prelude.{None, []};
    ghost use Rattle.mp_seqpool.specs.Config.{renewed};

    ghost ask = { λ p. record {
      root = p.head.now.nib.key;
      used = p.head.now.nib.key;
      next = p.next.now.nib.key;
      opening = renewed p.limit p.pool.now.pool;
      entries = [];
    } };

    ghost state = { λ _. None };
}

/// An entry, with its history's word, the pen that makes it and the pen that makes the next.
#[derive(Clone, Copy)]
pub struct Addition<'a> {
    pub head: &'a Word<Noted, u64, Law>,
    pub entry: &'a Entry,
    pub used: &'a Pen,
    pub next: &'a Pen,
}

/// A step that appends an entry.
pub struct Commits;

impl Play<Noted, u64> for Commits {
    ghost use Rattle.mp_history.specs.Inside.Rule as told;

    ghost then = { told.Commits };
}

impl<'a> Plain<Addition<'a>, Noted, u64> for Commits {
    ghost use Rattle.std.specs.Prelude.{None, [], ◌∷◌};
    ghost use Rattle.mp_history.specs.Inside.Noted.{no_state};

    ghost ask = { λ a. record {
      root = a.head.now.key;
      used = a.used.now.nib.key;
      next = a.next.now.nib.key;
      opening = no_state;
      entries = a.entry.now ∷ [];
    } };

    ghost state = { λ _. None };
}

/// A step that changes nothing.
pub struct Covers;

impl Play<Noted, u64> for Covers {
    ghost use Rattle.mp_history.specs.Inside.Rule as told;

    ghost then = { told.Covers };
}
