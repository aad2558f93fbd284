//! Commands to the pool, and its replies.

use crate::ids::Ids;
use crate::refusal::Refusal;
use mp_memory::{Memory, NoMemory};
use mp_tickets::Tickets;
use mp_tx::{Ledger, Tx};
use std::sync::Arc;

/// A command to the pool.
#[derive(Drop)]
pub enum Command {
    /// Add the transaction.
    Submit(Arc<Tx, Memory>),
    /// Take out the transactions with these ids, whether they are valid or not.
    Remove(Arc<Ids, Memory>),
    /// Adopt the ledger state.
    Sync(Ledger),
}

impl Command {
    ghost use Rattle.std.specs.Prelude.{◌≡◌, IfOk};
    ghost use Rattle.mp_seqpool.specs.Inside.Command.{command_of};

    /// The same command. Its parts are shared and not copied.
    pub fn share(&self) -> Result<Command, NoMemory>
        ensures { IfOk result (λ c. command_of c ≡ command_of self.now) }
    {
        match self {
            Command::Submit(tx) => Ok(Command::Submit(Arc::try_clone(tx)?)),
            Command::Remove(ids) => Ok(Command::Remove(Arc::try_clone(ids)?)),
            Command::Sync(ledger) => Ok(Command::Sync(ledger.share()?)),
        }
    }
}

/// The result of a command that isn't refused.
#[derive(Debug, PartialEq, Drop)]
pub enum Reply {
    /// The transaction is now the last one in the pool, with this ticket.
    Accepted { ticket: u64 },
    /// The tickets of the transactions that were named, and of those that aren't valid without them.
    Removed { named: Tickets, dropped: Tickets },
    /// The tickets of the transactions that stay on the adopted ledger state, and of those that aren't valid there.
    Synced { kept: Tickets, dropped: Tickets },
}

/// The pool's answer to a command: a reply or a refusal.
pub type Answer = Result<Reply, Refusal>;

impl Reply {
    ghost use Rattle.std.specs.Prelude.{◌≡◌, IfOk};

    /// The same reply.
    pub fn copy(&self) -> Result<Reply, NoMemory>
        ensures { IfOk result (λ r. r ≡ self.now) }
    {
        match self {
            Reply::Accepted { ticket } => Ok(Reply::Accepted { ticket: *ticket }),
            Reply::Removed { named, dropped } => Ok(Reply::Removed {
                named: named.copy()?,
                dropped: dropped.copy()?,
            }),
            Reply::Synced { kept, dropped } => Ok(Reply::Synced {
                kept: kept.copy()?,
                dropped: dropped.copy()?,
            }),
        }
    }
}
