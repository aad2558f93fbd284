//! What a line asks of the pool.

use mp_lines::Query;
use mp_seqpool::Command;
use mp_tx::Ledger;

/// What a line asks of the pool.
#[derive(Drop)]
pub enum Request {
    /// Make this change.
    Change(Command),
    /// Which transactions would stay on the ledger state.
    Try(Ledger),
    /// Answer the query.
    Read(Query),
}
