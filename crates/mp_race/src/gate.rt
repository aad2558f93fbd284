//! Hooks into a race as it runs.

use mp_rules::Verifier;
use mp_signatures::Signatures;
use mp_tx::{Key, Sig, TxId};

/// Hooks into a race as it runs, which each of its threads calls. A call may delay a worker, and changes no answer.
pub trait Gate: Sync {
    /// The worker is about to do the task with this number, both from 0.
    fn start(&self, worker: u32, task: u64);

    /// A signature of the transaction with this id is about to be checked.
    fn check(&self, id: &TxId);
}

/// Does nothing.
#[derive(Drop)]
pub struct NoGate;

impl Gate for NoGate {
    fn start(&self, _worker: u32, _task: u64) {}

    fn check(&self, _id: &TxId) {}
}

/// What a worker calls as it works.
pub trait Watch {
    /// The worker is about to do the task with this number, both from 0.
    fn start(&self, worker: u32, task: u64);
}

/// Accepts what these signatures do, and calls the gate before each check.
#[derive(Drop)]
pub struct Watched<'a, G: Gate> {
    pub gate: &'a G,
    pub signatures: &'a Signatures,
}

impl<G: Gate> Watch for Watched<'_, G> {
    fn start(&self, worker: u32, task: u64) {
        self.gate.start(worker, task);
    }
}

impl<G: Gate> Verifier for Watched<'_, G> {
    ghost use Rattle.mp_signatures.specs.Scheme.{accepted_by};

    ghost accepts = { λ w. accepted_by w.signatures.now };

    fn verify(&self, key: &Key, id: &TxId, sig: &Sig) -> bool {
        self.gate.check(id);
        self.signatures.verify(key, id, sig)
    }
}
