//! Requests to the pool.

use mp_memory::Memory;
use mp_session as session;
use mp_tx::Tx;
use std::sync::Arc;

/// A request to the pool.
#[derive(Drop)]
pub enum Request {
    /// What a line of a scenario asks.
    Plain(session::Request),
    /// Adopt the ledger state this many steps ago.
    Return(u64),
    /// What the submit of the transaction would answer.
    Check(Arc<Tx, Memory>),
    /// Submit the transaction, and answer with its id.
    Give(Arc<Tx, Memory>),
    /// The pool's numbers.
    Count,
}
