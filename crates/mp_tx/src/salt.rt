//! The secret that hash tables of references depend on.

use std::fmt;
use std::hash::{BuildHasher, FoldHasher, Hasher};
use std::marker::Model;

/// A number that the host picks at random and keeps secret. The slots of references in a hash table depend on it, so
/// nobody else can find references that collide. No answer depends on it, and no output contains it.
#[derive(Clone, Copy)]
pub struct Salt {
    number: u64,
    // It has already hashed the number, so that no look-up has to.
    hasher: FoldHasher,
}

impl Model for Salt {
    ghost use Rattle.std.specs.Prelude.{◌≡◌, ℕ};
    ghost use Rattle.mp_tx.specs.Inside.Salt.{fed};

    ghost Value = { ℕ };

    ghost view = { λ salt. salt.number };

    ghost invariant = { λ salt. salt.hasher ≡ fed salt.number };

    ghost inverse = { λ number. record { number = number; hasher = fed number } };

    ghost use Rattle.std.proofs.Common.{sym};

    ghost inverse_ok = { λ salt h i. record { number = salt.number; hasher = sym h i } };
}

impl Salt {
    ghost use Rattle.std.specs.Prelude.{◌≡◌};

    /// The salt with this number.
    pub fn new(number: u64) -> Salt
        ensures { result ≡ number }
    {
        let mut hasher = FoldHasher::default();
        hasher.write_u64(number);
        Salt { number, hasher }
    }
}

impl fmt::Debug for Salt {
    fn fmt<W: fmt::Write>(&self, f: &mut fmt::Formatter<W>) -> fmt::Result {
        f.write_str("Salt")
    }
}

impl BuildHasher for Salt {
    type Hasher = FoldHasher;

    ghost use Rattle.mp_tx.specs.Inside.Salt.{fed};

    ghost build_hasher = { fed };

    /// A hasher that has already hashed the salt. A reference takes a few more words.
    fn build_hasher(&self) -> FoldHasher {
        self.hasher
    }
}
