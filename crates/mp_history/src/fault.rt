//! Why a history isn't legal.

ghost use Rattle.std.specs.Prelude.{◌≡◌};
ghost use Rattle.mp_history.specs.AuditFault as audit_fault;
ghost use Rattle.mp_history.specs.declared.fault.AuditFault.TheVariants as faults;

use mp_memory::NoMemory;
use thiserror::Error;

/// Why an audit returns no pool: the index of the first bad entry of the history, from 0. `NoMemory` may be returned
/// instead of any answer.
#[derive(Clone, Copy, Debug, PartialEq, Eq, Error)]
pub enum AuditFault {
    #[error("no memory")]
    NoMemory,
    /// The reply isn't the reference pool's after the entries before it.
    #[error("the reply of entry {0} is not the pool's")]
    WrongReply(usize),
    /// The number of the caller isn't less than the number of callers.
    #[error("the caller of entry {0} is strange")]
    StrangeCaller(usize),
}

impl AuditFault {
    /// The number of the fault: 1 to 3.
    pub const fn number(&self) -> u64
        ensures { result ≡ audit_fault.number self.now }
    {
        match self {
            AuditFault::NoMemory => 1,
            AuditFault::WrongReply(_) => 2,
            AuditFault::StrangeCaller(_) => 3,
        }
    }
}

impl From<NoMemory> for AuditFault {
    ghost from_gives = { λ _ e. e ≡ faults.NoMemory };

    fn from(_error: NoMemory) -> AuditFault {
        AuditFault::NoMemory
    }
}
