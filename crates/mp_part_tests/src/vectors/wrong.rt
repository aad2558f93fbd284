//! Why a line doesn't hold.

use hex::FromHexError;
use mp_bundle::BundleFault;
use mp_memory::NoMemory;
use mp_script::{DataFault, ScriptFault};
use mp_tx::{LedgerFault, TxFault};
use std::alloc::{AllocError, AllocFailed};
use std::num::ParseIntError;

/// Why a line doesn't hold. It owns nothing, so little has to be proved at each early return.
#[derive(Clone, Copy)]
pub enum Wrong {
    /// An allocation failed.
    NoMemory,
    /// It can't be read, or gives another result.
    Because(&'static str),
    /// A fault with this number was found, and another or none was expected.
    Fault(u64),
}

/// The result of a line, or of a part of it.
pub type Result<T> = std::result::Result<T, Wrong>;

impl From<NoMemory> for Wrong {
    fn from(_fault: NoMemory) -> Wrong {
        Wrong::NoMemory
    }
}

impl From<AllocError> for Wrong {
    fn from(_fault: AllocError) -> Wrong {
        Wrong::NoMemory
    }
}

impl<T: Drop> From<AllocFailed<T>> for Wrong {
    fn from(_fault: AllocFailed<T>) -> Wrong {
        Wrong::NoMemory
    }
}

impl From<ParseIntError> for Wrong {
    fn from(_fault: ParseIntError) -> Wrong {
        Wrong::Because("no number")
    }
}

impl From<FromHexError> for Wrong {
    fn from(fault: FromHexError) -> Wrong {
        match fault {
            FromHexError::OutOfMemory => Wrong::NoMemory,
            _ => Wrong::Because("no digits of bytes"),
        }
    }
}

impl From<DataFault> for Wrong {
    fn from(fault: DataFault) -> Wrong {
        match fault {
            DataFault::NoMemory => Wrong::NoMemory,
            _ => Wrong::Because("no datum"),
        }
    }
}

impl From<ScriptFault> for Wrong {
    fn from(fault: ScriptFault) -> Wrong {
        match fault {
            ScriptFault::NoMemory => Wrong::NoMemory,
            _ => Wrong::Because("no script"),
        }
    }
}

impl From<BundleFault> for Wrong {
    fn from(fault: BundleFault) -> Wrong {
        match fault {
            BundleFault::NoMemory => Wrong::NoMemory,
            _ => Wrong::Because("no bundle"),
        }
    }
}

impl From<TxFault> for Wrong {
    fn from(fault: TxFault) -> Wrong {
        match fault {
            TxFault::NoMemory => Wrong::NoMemory,
            _ => Wrong::Because("no transaction"),
        }
    }
}

impl From<LedgerFault> for Wrong {
    fn from(fault: LedgerFault) -> Wrong {
        match fault {
            LedgerFault::NoMemory => Wrong::NoMemory,
            _ => Wrong::Because("no ledger state"),
        }
    }
}
