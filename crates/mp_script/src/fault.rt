//! Why bytes spell no datum, or no script.

ghost use Rattle.std.specs.Prelude.{◌≡◌};
ghost use Rattle.mp_script.specs.declared.fault.DataFault.TheVariants as data_faults;
ghost use Rattle.mp_script.specs.declared.fault.ScriptFault.TheVariants as script_faults;
ghost use Rattle.mp_script.specs.FaultNumbers.{data_number, script_number};

use mp_memory::NoMemory;
use thiserror::Error;

/// Why bytes spell no datum.
#[derive(Clone, Copy, Debug, PartialEq, Eq, Error)]
pub enum DataFault {
    #[error("no memory")]
    NoMemory,
    #[error("the bytes end within a datum")]
    Truncated,
    #[error("a datum has an unknown tag")]
    BadTag,
    #[error("a datum stands at depth 17")]
    TooDeep,
    #[error("bytes follow the datum")]
    Trailing,
}

impl DataFault {
    /// The number of the fault: 1 to 5.
    pub const fn number(self) -> u64
        ensures { result ≡ data_number self }
    {
        match self {
            DataFault::NoMemory => 1,
            DataFault::Truncated => 2,
            DataFault::BadTag => 3,
            DataFault::TooDeep => 4,
            DataFault::Trailing => 5,
        }
    }
}

impl From<NoMemory> for DataFault {
    ghost from_gives = { λ _ e. e ≡ data_faults.NoMemory };

    fn from(_error: NoMemory) -> DataFault {
        DataFault::NoMemory
    }
}

/// Why bytes spell no script.
#[derive(Clone, Copy, Debug, PartialEq, Eq, Error)]
pub enum ScriptFault {
    #[error("no memory")]
    NoMemory,
    #[error("the bytes end within an operator")]
    Truncated,
    #[error("a byte is no operator")]
    BadOperator,
    #[error("an operator has too few operands")]
    Underflow,
    #[error("the operators don't make one expression")]
    NotOneExpression,
    #[error("there are more than 1024 operators")]
    TooLong,
    #[error("an expression is deeper than 64")]
    TooDeep,
}

impl ScriptFault {
    /// The number of the fault: 1 to 7.
    pub const fn number(self) -> u64
        ensures { result ≡ script_number self }
    {
        match self {
            ScriptFault::NoMemory => 1,
            ScriptFault::Truncated => 2,
            ScriptFault::BadOperator => 3,
            ScriptFault::Underflow => 4,
            ScriptFault::NotOneExpression => 5,
            ScriptFault::TooLong => 6,
            ScriptFault::TooDeep => 7,
        }
    }
}

impl From<NoMemory> for ScriptFault {
    ghost from_gives = { λ _ e. e ≡ script_faults.NoMemory };

    fn from(_error: NoMemory) -> ScriptFault {
        ScriptFault::NoMemory
    }
}
