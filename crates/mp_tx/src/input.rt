//! Inputs: what a transaction spends.

use crate::reference::OutRef;
use mp_script::{Data, Script};

/// An input: the output that it spends, the validator and the datum that the output names by their hashes, and the
/// redeemer that the validator gets.
#[derive(Debug, Drop)]
pub struct Input {
    pub from: OutRef,
    pub validator: Script,
    pub datum: Data,
    pub redeemer: Data,
}
