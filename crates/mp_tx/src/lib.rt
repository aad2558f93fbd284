//! Transactions and ledger states.
#![tactic(auto)]

mod block_fault;
mod decoding;
mod encoding;
mod extras;
mod fault;
mod few;
mod input;
pub mod laws;
mod ledger;
mod ledger_fault;
mod order;
mod output;
mod parts;
mod reference;
mod salt;
mod signature;
mod tx;
mod typed;
mod undo;

pub use block_fault::BlockFault;
pub use encoding::put_output;
pub use fault::TxFault;
pub use few::Few;
pub use input::Input;
pub use ledger::{Ledger, MAX_BLOCK_BYTES};
pub use ledger_fault::LedgerFault;
pub use mp_bundle::{PolicyId, TokenName};
pub use mp_bytes::Hash;
pub use mp_script::{Address, Data, Key, Script};
pub use output::Output;
pub use reference::{OutRef, TxId};
pub use salt::Salt;
pub use signature::{Sig, Signature};
pub use tx::{MAX_BYTES, MAX_PARTS, Tx, TxParts};
pub use undo::Undo;
