//! The rules of validity. They decide whether a transaction is valid on the outputs that can be spent, and which rule
//! fails first. They follow the EUTXO and native-token papers of Chakravarty et al., and CIP-31. Also blocks: a ledger state
//! after transactions, each of which is valid after those before it.
#![tactic(auto)]

mod balance;
mod block;
mod checked;
mod checking;
mod hex;
mod invalid;
pub mod laws;
mod map;
mod own;
mod resolved;
mod script_context;
mod scripts;
mod signatures;
mod unmoved;
mod verifier;

pub use block::{AppliedBlock, BlockRefusal, apply_block};
pub use checked::{Checked, precheck};
pub use checking::{check, check_with, stays_valid};
pub use invalid::Invalid;
pub use map::output_taken;
pub use resolved::Resolved;
pub use scripts::has_nothing_to_run;
pub use verifier::Verifier;
