//! Why a line doesn't hold.

use hex::FromHexError;
use mp_bundle::BundleFault;
use mp_memory::NoMemory;
use mp_script::{DataFault, ScriptFault};
use mp_tx::TxFault;
use std::alloc::{AllocError, AllocFailed};
use std::num::ParseIntError;

/// Why a line doesn't hold, as a text. It owns nothing, so little has to be proved at each early return.
#[derive(Clone, Copy)]
pub struct Wrong(pub &'static str);

/// An allocation failed.
pub const NO_MEMORY: Wrong = Wrong("no memory");

impl Wrong {
    /// Whether an allocation failed.
    pub fn is_no_memory(self) -> bool {
        self.0 == NO_MEMORY.0
    }
}

/// The result of a line, or of a part of it.
pub type Result<T> = std::result::Result<T, Wrong>;

impl From<NoMemory> for Wrong {
    fn from(_fault: NoMemory) -> Wrong {
        NO_MEMORY
    }
}

impl From<AllocError> for Wrong {
    fn from(_fault: AllocError) -> Wrong {
        NO_MEMORY
    }
}

impl<T: Drop> From<AllocFailed<T>> for Wrong {
    fn from(_fault: AllocFailed<T>) -> Wrong {
        NO_MEMORY
    }
}

impl From<ParseIntError> for Wrong {
    fn from(_fault: ParseIntError) -> Wrong {
        Wrong("no number")
    }
}

impl From<FromHexError> for Wrong {
    fn from(fault: FromHexError) -> Wrong {
        match fault {
            FromHexError::OutOfMemory => NO_MEMORY,
            _ => Wrong("no digits of bytes"),
        }
    }
}

impl From<DataFault> for Wrong {
    fn from(fault: DataFault) -> Wrong {
        match fault {
            DataFault::NoMemory => NO_MEMORY,
            _ => Wrong("no datum"),
        }
    }
}

impl From<ScriptFault> for Wrong {
    fn from(fault: ScriptFault) -> Wrong {
        match fault {
            ScriptFault::NoMemory => NO_MEMORY,
            _ => Wrong("no script"),
        }
    }
}

impl From<BundleFault> for Wrong {
    fn from(fault: BundleFault) -> Wrong {
        match fault {
            BundleFault::NoMemory => NO_MEMORY,
            _ => Wrong("no bundle"),
        }
    }
}

impl From<TxFault> for Wrong {
    fn from(fault: TxFault) -> Wrong {
        match fault {
            TxFault::NoMemory => NO_MEMORY,
            _ => Wrong("no bytes of a transaction"),
        }
    }
}
