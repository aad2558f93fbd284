//! What a pool stores for a ticket.

use mp_memory::Memory;
use mp_rules::Resolved;
use mp_tx::Tx;
use std::marker::Model;
use std::sync::Arc;

/// A transaction that was found valid, and the outputs that it named then.
#[derive(Debug)]
pub struct ValidatedTx {
    pub tx: Arc<Tx, Memory>,
    pub resolved: Resolved,
}

impl Drop for ValidatedTx {
    fn drop(self) {
        let ValidatedTx { tx: _, resolved: _ } = self;
    }
}

impl Model for ValidatedTx {
    ghost use Rattle.mp_seqpool.specs.ValidatedTx as told;

    ghost Value = { told.ValidatedTx };

    ghost use Rattle.mp_seqpool.specs.Inside.ValidatedTx.{validated_tx};

    ghost view = { validated_tx };
}
