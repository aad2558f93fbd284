//! Why an endurance test ends early.

use mp_history::AuditFault;
use thiserror::Error;

/// Why an endurance test ends early.
#[derive(Clone, Copy, Debug, PartialEq, Eq, Error)]
pub enum EnduranceFault {
    #[error("no memory, or no clock")]
    Wanting,
    #[error("no pool was opened")]
    NotOpened,
    /// The number of `SuccessorRefusal`.
    #[error("the pool didn't hand over: refusal {0}")]
    NotHandedOver(u64),
    #[error("the passes aren't fresh, one for each caller")]
    StalePasses,
    #[error("a snapshot, a version or an answer was strange")]
    Strange,
    #[error("a caller doesn't see the last version")]
    OldVersion,
    #[error("a pool opened with something else than what the pool before it had")]
    OtherOpening,
    #[error("the receipts don't tell of the whole history")]
    LostEntry,
    #[error("a ticket doesn't rise")]
    OldTicket,
    #[error("the history isn't legal: {0}")]
    Illegal(AuditFault),
    #[error("the history leads to something else than what the pool had")]
    OtherEnd,
    #[error("something holds a transaction of pools that are gone")]
    Held,
}
