//! The numbers of faults.

use mp_bundle::BundleFault;
use mp_history::AuditFault;
use mp_memory::NoMemory;
use mp_script::{DataFault, ScriptFault};
use mp_seqpool::{Invalid, Refusal};
use mp_text::{InputFault, WriteFault};
use mp_tx::{LedgerFault, TxFault};

/// A fault that may have a number.
pub trait Numbered {
    /// Its number. Those of a scenario's text and answers have none.
    fn number_if_any(&self) -> Option<u64>;
}

impl Numbered for BundleFault {
    fn number_if_any(&self) -> Option<u64> {
        Some(self.number())
    }
}

impl Numbered for AuditFault {
    fn number_if_any(&self) -> Option<u64> {
        Some(self.number())
    }
}

impl Numbered for NoMemory {
    fn number_if_any(&self) -> Option<u64> {
        Some(self.number())
    }
}

impl Numbered for DataFault {
    fn number_if_any(&self) -> Option<u64> {
        Some(self.number())
    }
}

impl Numbered for ScriptFault {
    fn number_if_any(&self) -> Option<u64> {
        Some(self.number())
    }
}

impl Numbered for Invalid {
    fn number_if_any(&self) -> Option<u64> {
        Some(self.number())
    }
}

impl Numbered for Refusal {
    fn number_if_any(&self) -> Option<u64> {
        Some(self.number())
    }
}

impl Numbered for InputFault {
    fn number_if_any(&self) -> Option<u64> {
        None
    }
}

impl Numbered for WriteFault {
    fn number_if_any(&self) -> Option<u64> {
        None
    }
}

impl Numbered for LedgerFault {
    fn number_if_any(&self) -> Option<u64> {
        Some(self.number())
    }
}

impl Numbered for TxFault {
    fn number_if_any(&self) -> Option<u64> {
        Some(self.number())
    }
}
