//! The signatures that the command line asks for.

ghost use Rattle.std.specs.Prelude.{◌≡◌, IfErr, IfOk};
ghost use Rattle.std.specs.Process.{exit_status};
ghost use Rattle.mp_main.specs.Scheme as told;

use crate::command_line::SchemeName;
use crate::ending::end_fault;
use mp_memory::{Memory, NoMemory};
use mp_session::RunFault;
use mp_signatures::{Scheme, Signatures};
use std::process::ExitCode;

fn scheme_of(name: SchemeName) -> Scheme
    ensures { result ≡ told.scheme_of name }
{
    match name {
        SchemeName::Trial => Scheme::Trial,
        SchemeName::Checked => Scheme::Checked,
        SchemeName::Ed25519 => Scheme::Ed25519,
    }
}

/// The verifier of the scheme with this name, or how the program ends if there is no memory for it.
pub fn signatures_of(
    rt: &HostRuntime,
    memory: Memory,
    name: SchemeName,
) -> Result<Signatures, ExitCode>
    ensures named { IfOk result (λ s. s ≡ told.scheme_of name) }
    ensures status { IfErr result (λ code. exit_status code ≡ 1) }
{
    match Signatures::new(memory, scheme_of(name)) {
        Ok(signatures) => Ok(signatures),
        Err(NoMemory) => Err(end_fault(rt, RunFault::NoMemory)),
    }
}
