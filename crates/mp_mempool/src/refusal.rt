//! Why the pool refuses.
ghost use Rattle.std.specs.Prelude.{◌≡◌};
ghost use Rattle.mp_mempool.specs.Opening as opening;
ghost use Rattle.mp_mempool.specs.Answers as told;
ghost use Rattle.mp_mempool.specs.Successor as successor;
ghost use Rattle.mp_mempool.specs.declared.refusal.OpenRefusal.TheVariants as faults;

use mp_history::{Front, PoolName};
use mp_memory::NoMemory;
use std::alloc::AllocError;
use std::fmt;
use thiserror::Error;

/// Why a pool isn't opened. If several reasons hold, the one with the least number is reported, but `NoMemory` only if no other
/// holds.
#[derive(Clone, Copy, Debug, PartialEq, Eq, Error)]
pub enum OpenRefusal {
    /// An allocation failed.
    #[error("no memory")]
    NoMemory,
    /// The number of callers isn't 1 to 1,024.
    #[error("the number of callers is out of range")]
    BadCallers,
    /// The limit of changes isn't 1 to 2^32.
    #[error("the limit of changes is out of range")]
    BadLimit,
}

impl OpenRefusal {
    /// The number of the refusal: 1, 2 or 4.
    pub const fn number(&self) -> u64
        ensures { result ≡ opening.number self.now }
    {
        match self {
            OpenRefusal::NoMemory => 1,
            OpenRefusal::BadCallers => 2,
            OpenRefusal::BadLimit => 4,
        }
    }
}

impl From<NoMemory> for OpenRefusal {
    ghost from_gives = { λ _ e. e ≡ faults.NoMemory };

    fn from(_error: NoMemory) -> OpenRefusal {
        OpenRefusal::NoMemory
    }
}

impl From<AllocError> for OpenRefusal {
    ghost from_gives = { λ _ e. e ≡ faults.NoMemory };

    fn from(_error: AllocError) -> OpenRefusal {
        OpenRefusal::NoMemory
    }
}

/// Why the pool refuses a change. The pool is as it was.
#[derive(Drop)]
pub enum Refusal<N: PoolName> {
    /// The sequential pool refuses. The caller's pass holds the version at which it does. After an allocation failure the pass is
    /// as it was.
    Pool(mp_seqpool::Refusal),
    /// The pool's history, which is this one, has an entry of this caller that its pass doesn't know. The pass is as it was.
    Foreign(Front<N>),
}

impl<N: PoolName> Refusal<N> {
    /// The number of the refusal: 1 to 6 for the sequential pool's, 7 for `Foreign`.
    pub fn number(&self) -> u64
        ensures { result ≡ told.number self.now }
    {
        match self {
            Refusal::Pool(refusal) => refusal.number(),
            Refusal::Foreign(_) => 7,
        }
    }
}

impl<N: PoolName> fmt::Display for Refusal<N> {
    fn fmt<W: fmt::Write>(&self, f: &mut fmt::Formatter<W>) -> fmt::Result {
        match self {
            Refusal::Pool(refusal) => write!(f, "{refusal}"),
            Refusal::Foreign(_) => write!(f, "the pass doesn't know an entry of its caller"),
        }
    }
}

/// Why a pool doesn't hand over to a successor. If several reasons hold, the one with the least number is reported, but
/// `NoMemory` only if no other holds. The pool and the passes are as they were.
#[derive(Drop)]
pub enum SuccessorRefusal<N: PoolName> {
    /// An allocation failed.
    NoMemory,
    /// The passes aren't those of the callers 0, 1, .. of the pool, in order. This is the first place with a wrong pass, one too
    /// many, or a missing one.
    BadPasses(usize),
    /// The number of callers isn't 1 to 1,024.
    BadCallers,
    /// The limit of changes isn't 1 to 2^32.
    BadLimit,
    /// The pool's history, which is this one, has an entry of a caller that its pass doesn't know.
    Foreign(Front<N>),
}

impl<N: PoolName> SuccessorRefusal<N> {
    /// The number of the refusal: 1 to 5.
    pub fn number(&self) -> u64
        ensures { result ≡ successor.number self.now }
    {
        match self {
            SuccessorRefusal::NoMemory => 1,
            SuccessorRefusal::BadPasses(_) => 2,
            SuccessorRefusal::BadCallers => 3,
            SuccessorRefusal::BadLimit => 4,
            SuccessorRefusal::Foreign(_) => 5,
        }
    }
}

impl<N: PoolName> fmt::Display for SuccessorRefusal<N> {
    fn fmt<W: fmt::Write>(&self, f: &mut fmt::Formatter<W>) -> fmt::Result {
        match self {
            SuccessorRefusal::NoMemory => write!(f, "no memory"),
            SuccessorRefusal::BadPasses(place) => {
                write!(f, "at place {place} isn't the pass of that caller")
            }
            SuccessorRefusal::BadCallers => write!(f, "the number of callers is out of range"),
            SuccessorRefusal::BadLimit => write!(f, "the limit of changes is out of range"),
            SuccessorRefusal::Foreign(_) => {
                write!(f, "a pass doesn't know an entry of its caller")
            }
        }
    }
}
