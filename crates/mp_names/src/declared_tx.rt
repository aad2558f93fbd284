//! Transactions as a scenario declares them.

use crate::payment::Payment;
use mp_memory::Memory;
use mp_tx::Tx;
use std::marker::Model;
use std::sync::Arc;

/// A transaction, and its outputs with their scripts and data.
pub struct DeclaredTx {
    tx: Arc<Tx, Memory>,
    payments: Vec<Payment, Memory>,
}

impl Drop for DeclaredTx {
    fn drop(self) {
        let DeclaredTx { tx: _, payments: _ } = self;
    }
}

impl Model for DeclaredTx {
    ghost use Rattle.mp_names.specs.DeclaredTx as told;
    ghost use Rattle.mp_names.specs.Inside.DeclaredTx.{declared_tx};

    ghost Value = { told.DeclaredTx };

    ghost view = { declared_tx };
}

impl DeclaredTx {
    ghost use Rattle.std.specs.Prelude.{◌≡◌};
    ghost use Rattle.std.specs.Arc.{arc_value};

    /// The transaction with the payments of its outputs.
    pub fn of(tx: Arc<Tx, Memory>, payments: Vec<Payment, Memory>) -> DeclaredTx
        ensures { result ≡ record { tx = arc_value tx; payments = payments.items } }
    {
        DeclaredTx { tx, payments }
    }

    /// The transaction.
    pub fn tx(&self) -> &Arc<Tx, Memory>
        ensures { arc_value result.now ≡ self.now.tx }
    {
        &self.tx
    }

    /// Its outputs, in its order.
    pub fn payments(&self) -> &[Payment]
        ensures { result.now ≡ self.now.payments }
    {
        &self.payments
    }
}
