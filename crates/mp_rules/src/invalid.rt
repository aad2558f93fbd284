//! Why a transaction isn't valid.

ghost use Rattle.std.specs.Prelude.{◌≡◌};
ghost use Rattle.mp_rules.specs.declared.invalid.Invalid.TheVariants as rules;
ghost use Rattle.mp_rules.specs.Invalid as invalid;

use crate::hex::Hex;
use mp_memory::NoMemory;
use mp_tx::{Key, PolicyId, TokenName};
use std::alloc::{AllocError, AllocFailed};
use thiserror::Error;

/// The first rule that a transaction breaks, at its least index. `rules` in `specs/Validity.antt` has the order of the
/// checks. `NoMemory` may be returned instead of any answer. Indices count from 0.
#[derive(Clone, Copy, Debug, PartialEq, Eq, Error)]
pub enum Invalid {
    #[error("no memory")]
    NoMemory,
    #[error("the transaction has no input")]
    NoInputs,
    /// The tick is before the first or after the last tick of the transaction's validity interval.
    #[error("the tick is outside of the transaction's interval")]
    OutsideInterval,
    /// The index of an output with a negative quantity.
    #[error("output {0} has a negative quantity")]
    NegativeOutput(usize),
    /// The index of an input that names no output.
    #[error("input {0} names no output")]
    InputMissing(usize),
    /// The index of a reference that names no output.
    #[error("reference {0} names no output")]
    ReferenceMissing(usize),
    /// The index of an input whose validator doesn't have the hash that is its output's address.
    #[error("the validator of input {0} isn't that of the output's address")]
    AddressMismatch(usize),
    /// The index of an input whose datum doesn't have its output's datum hash.
    #[error("the datum of input {0} isn't the one that the output names")]
    DatumMismatch(usize),
    /// The index of an output whose reference already leads to an output.
    #[error("the reference of output {0} is taken")]
    OutputTaken(usize),
    /// The least policy whose tokens are forged and whose script isn't carried.
    #[error("the script of a forged policy isn't carried: {}", Hex(.0))]
    ForgeWithoutPolicy(PolicyId),
    /// The least token for which the quantity forged and spent differs from the quantity paid.
    #[error("of a token {taken} are forged and spent and {paid} paid: policy {}, name '{}'", Hex(.policy), Hex(.name.as_slice()))]
    Unbalanced {
        policy: PolicyId,
        name: TokenName,
        /// The quantity forged and spent.
        taken: i128,
        paid: i128,
    },
    /// The key of the first signature that the verifier doesn't accept.
    #[error("a signature isn't accepted: key {}", Hex(.0))]
    BadSignature(Key),
    /// The index of an input whose validator refuses.
    #[error("the validator of input {0} refuses")]
    ValidatorRefused(usize),
    /// The index of a carried policy script that refuses.
    #[error("policy script {0} refuses")]
    PolicyRefused(usize),
}

impl Invalid {
    /// The number of the rule, from 2 to 14, in the order of the checks. 1 is `NoMemory`.
    pub const fn number(&self) -> u64
        ensures { result ≡ invalid.number self.now }
    {
        match self {
            Invalid::NoMemory => 1,
            Invalid::NoInputs => 2,
            Invalid::OutsideInterval => 3,
            Invalid::NegativeOutput(_) => 4,
            Invalid::InputMissing(_) => 5,
            Invalid::ReferenceMissing(_) => 6,
            Invalid::AddressMismatch(_) => 7,
            Invalid::DatumMismatch(_) => 8,
            Invalid::OutputTaken(_) => 9,
            Invalid::ForgeWithoutPolicy(_) => 10,
            Invalid::Unbalanced { .. } => 11,
            Invalid::BadSignature(_) => 12,
            Invalid::ValidatorRefused(_) => 13,
            Invalid::PolicyRefused(_) => 14,
        }
    }
}

impl From<NoMemory> for Invalid {
    ghost from_gives = { λ _ e. e ≡ rules.NoMemory };

    fn from(_error: NoMemory) -> Invalid {
        Invalid::NoMemory
    }
}

impl From<AllocError> for Invalid {
    ghost from_gives = { λ _ e. e ≡ rules.NoMemory };

    fn from(_error: AllocError) -> Invalid {
        Invalid::NoMemory
    }
}

impl<T: Drop> From<AllocFailed<T>> for Invalid {
    ghost from_gives = { λ _ e. e ≡ rules.NoMemory };

    fn from(_refused: AllocFailed<T>) -> Invalid {
        Invalid::NoMemory
    }
}
