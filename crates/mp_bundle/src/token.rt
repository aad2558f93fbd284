//! Tokens.

ghost use Rattle.std.specs.Prelude.{◌≡◌};

use crate::token_name::{MAX_NAME_BYTES, TokenName};

/// The id of the policy under which a token is forged.
pub type PolicyId = [u8; 32];

/// A token: a policy, and a name under it. Tokens are ordered by policy and then by name.
#[derive(Clone, Copy, Debug, PartialEq, Eq, PartialOrd, Ord)]
pub struct Token {
    pub policy: PolicyId,
    pub name: TokenName,
}

/// The policy of coin. Coin is the token with this policy and the empty name.
pub const COIN: PolicyId = [0; 32];

impl Token {
    ghost use Rattle.std.specs.Prelude.{false};
    ghost use Rattle.std.specs.Ordering.{is_lt};
    ghost use Rattle.mp_bundle.specs.Token.{coin, token_cmp, same_token, short_token};

    /// Coin.
    pub const COIN: Token = Token {
        policy: COIN,
        name: TokenName::EMPTY,
    };

    /// The token of this policy and this name, or `None` if the name has more than 32 bytes.
    pub fn of(policy: &PolicyId, name: &[u8]) -> Option<Token>
        ensures { result ≡ short_token policy.now name.now }
    {
        if name.len() > MAX_NAME_BYTES {
            return None;
        }
        Some(Token {
            policy: *policy,
            name: TokenName::of(name),
        })
    }

    /// Whether it is coin, the least token.
    pub fn is_coin(&self) -> bool
        ensures same { result ≡ same_token self.now coin }
        ensures least { is_lt (token_cmp self.now coin) ≡ false }
    {
        *self == Token::COIN
    }
}
