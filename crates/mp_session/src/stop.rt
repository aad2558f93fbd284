//! Why the answers to a text end early.

ghost use Rattle.std.specs.Prelude.{◌≡◌};
ghost use Rattle.mp_session.specs.Ending.{bad_line_of, fault_of};

use crate::fault::RunFault;
use mp_names::Reason;

/// Why the answers to a text end early.
#[derive(Clone, Copy)]
pub enum RunStop<'a> {
    NoMemory,
    /// The number of the bad line, from 1, and what is wrong with it.
    BadLine(u64, Reason<'a>),
    Write,
}

impl<'a> RunStop<'a> {
    /// The number of the bad line and what is wrong with it, if that is the reason.
    pub fn bad_line(&self) -> Option<(u64, Reason<'a>)>
        ensures { result ≡ bad_line_of self.now }
    {
        match self {
            RunStop::BadLine(number, reason) => Some((*number, *reason)),
            _ => None,
        }
    }

    /// The fault of a run that ends like this.
    pub fn to_fault(&self) -> RunFault
        ensures { result ≡ fault_of self.now }
    {
        match self {
            RunStop::NoMemory => RunFault::NoMemory,
            RunStop::BadLine(number, _) => RunFault::BadLine(*number),
            RunStop::Write => RunFault::WriteFault,
        }
    }
}
