//! The parts of a transaction, wherever they are stored.

use crate::input::Input;
use crate::output::Output;
use crate::reference::OutRef;
use crate::signature::Signature;
use mp_bundle::Bundle;
use mp_script::Script;

/// The borrowed parts of a transaction.
#[derive(Clone, Copy)]
pub struct Parts<'a> {
    pub inputs: &'a [Input],
    pub references: &'a [OutRef],
    pub outputs: &'a [Output],
    pub from: u64,
    pub to: u64,
    pub forge: &'a Bundle,
    pub scripts: &'a [Script],
    pub signatures: &'a [Signature],
}
