//! Names of tokens.

ghost use Rattle.std.specs.Prelude.{◌≡◌, ◌≤◌, length, nat_eq};
ghost use Rattle.std.specs.Ordering.{nat_cmp, as_partial_cmp};
ghost use Rattle.std.specs.Cmp.{partial_equiv_from_equiv, partial_order_from_total};
ghost use Rattle.std.specs.Cmp.Lexicographic.{pointwise, slice_cmp, nat_list_eq_equiv, nat_list_cmp_total, texts_ties, texts_po};
ghost use Rattle.std.proofs.Common.{rules, refl};

use std::cmp::Ordering;
use std::marker::Model;

/// The most bytes that a name may have.
pub const MAX_NAME_BYTES: usize = 32;

/// The name of a token under its policy: 0 to 32 bytes. Names are ordered by their bytes, and a proper prefix comes
/// first.
#[derive(Clone, Copy, Debug)]
pub struct TokenName {
    bytes: [u8; 32],
    len: u8,
}

impl Model for TokenName {
    ghost use Rattle.std.specs.Prelude.{ℕ, List};

    ghost Value = { List ℕ };

    ghost use Rattle.mp_bundle.specs.Inside.TokenName.{name, padded, IsPadded, padded-name};

    ghost view = { name };

    ghost invariant = { IsPadded };

    ghost inverse = { padded };

    ghost inverse_ok = { padded-name };
}

impl TokenName {
    /// The empty name.
    pub const EMPTY: TokenName = TokenName {
        bytes: [0; 32],
        len: 0,
    };

    /// The name of these bytes, at most 32.
    pub fn of(name: &[u8]) -> TokenName
        requires { length name.now ≤ 32 }
        ensures { result ≡ name.now }
    {
        let mut bytes = [0; 32];
        bytes[..name.len()].copy_from_slice(name);
        TokenName {
            bytes,
            len: name.len() as u8,
        }
    }

    /// Its bytes.
    pub fn as_slice(&self) -> &[u8]
        ensures same { result.now ≡ self.now }
        ensures short { length result.now ≤ 32 }
    {
        &self.bytes[..self.len as usize]
    }
}

impl PartialEq for TokenName {
    ghost eq = { pointwise nat_eq };

    ghost laws = { partial_equiv_from_equiv nat_list_eq_equiv };

    fn eq(&self, other: &TokenName) -> bool {
        self.as_slice() == other.as_slice()
    }
}

impl Eq for TokenName {
    ghost laws = { nat_list_eq_equiv };
}

impl PartialOrd for TokenName {
    ghost partial_cmp = { as_partial_cmp (slice_cmp nat_cmp) };

    ghost laws = { texts_po };

    fn partial_cmp(&self, other: &TokenName) -> Option<Ordering> {
        Some(self.cmp(other))
    }
}

impl Ord for TokenName {
    ghost cmp = { slice_cmp nat_cmp };

    ghost total = { nat_list_cmp_total };

    ghost matches_partial_cmp = { λ _ _. refl };

    ghost matches_eq = { texts_ties };

    fn cmp(&self, other: &TokenName) -> Ordering {
        self.as_slice().cmp(other.as_slice())
    }
}
