//! Bundles of tokens, and their sums (the native-tokens paper of Chakravarty et al., Native Custom Tokens in the
//! Extended UTXO Model). A bundle says how much of each token there is. A sum is what a balance rule compares.
#![tactic(auto)]

mod bundle;
mod entry;
mod fault;
pub mod laws;
mod sum;
mod token;
mod token_name;
mod totals;

pub use bundle::Bundle;
pub use entry::{Given, TokenEntry, may_follow};
pub use fault::BundleFault;
pub use sum::Sum;
pub use token::{COIN, PolicyId, Token};
pub use token_name::{MAX_NAME_BYTES, TokenName};
