//! The name that all parts of one pool share.

use std::marker::Brand;

/// Which pool it is. The parts of one pool (the word, the right, the fronts, the callers' tokens) have its name as
/// their type argument, so parts of two pools can't be mixed. A program has only one type for it, `Brand`. Each call
/// that passes `Brand` says in its proof which name that is: that of a `NewName` that it opens.
pub trait PoolName {
    ghost use Rattle.std.specs.Prelude.{ℕ};
    ghost use Rattle.logbook.specs.Pages.{Book};
    ghost use Rattle.mp_rules.specs.Verifier.{Accepts};

    // The book of its history, in proofs only.
    ghost book: { Book };
    // The key of its history's word in that book.
    ghost root: { ℕ };
    // The number of its callers.
    ghost callers: { ℕ };
    // Which signatures its verifier accepts.
    ghost accepts: { Accepts };
}

impl PoolName for Brand {
    ghost use Rattle.std.specs.Prelude.{false};

    ghost book = { record { number = 0; log_name = 0; cells_name = 0 } };

    ghost root = { 0 };

    ghost callers = { 0 };

    ghost accepts = { λ _ _ _. false };
}
