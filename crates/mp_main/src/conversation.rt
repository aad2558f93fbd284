//! `keltuvar serve`: a conversation over standard input and output.

ghost use Rattle.std.specs.Prelude.{◌≡◌, IfErr, IfSome};
ghost use Rattle.std.specs.Process.{exit_status};
ghost use Rattle.mp_serve.specs.Served.{Ended};
ghost use Rattle.mp_serve.specs.Device.{EndsAt};
ghost use Rattle.mp_serve.specs.Talk.{new_conversation};
ghost use Rattle.mp_main.specs.Status.{EndsAs};

use crate::command_line::SchemeName;
use crate::ending::end_fault;
use crate::salt::salt_of;
use crate::schemes::signatures_of;
use mp_memory::Memory;
use mp_serve::{ConversationFault, Device, Streams, Turn, serve};
use mp_signatures::Signatures;
use mp_tx::Salt;
use std::io::BufReader;
use std::process::ExitCode;

/// Answers each line of the device's input, until the input ends. At most `names` names may be declared.
pub fn converse_over<D: Device>(
    rt: &HostRuntime,
    memory: Memory,
    signatures: Signatures,
    salt: Salt,
    names: u64,
    device: &mut D,
) -> ExitCode
    requires { D.turn device.old ≡ Turn.Listens }
    ensures { EndsAs (λ ended. IfSome (D.input device.old) (λ bytes.
        Ended (new_conversation signatures salt names) bytes
        (D.output device.old) (D.output device.new) ended)
        × EndsAt ended (D.turn device.new)) (exit_status result) }
{
    match serve(memory, signatures, salt, names, device) {
        Ok(()) => ExitCode::SUCCESS,
        Err(fault) => end_fault(rt, fault),
    }
}

/// Makes what a conversation needs, or returns how the program ends. The salt is random if none is given.
pub fn prepare(
    rt: &HostRuntime,
    signatures: SchemeName,
    salt: Option<u64>,
) -> Result<(Memory, Signatures, Salt), ExitCode>
    ensures status { IfErr result (λ code. exit_status code ≡ 1) }
{
    let salt = salt_of(rt, salt)?;
    let Ok(memory) = Memory::new(rt.alloc()) else {
        return Err(end_fault(rt, ConversationFault::NoMemory));
    };
    let signatures = signatures_of(rt, memory, signatures)?;
    Ok((memory, signatures, salt))
}

/// Answers each line of standard input on standard output, until the input ends. The salt is random if none is given.
pub fn converse(
    rt: &HostRuntime,
    signatures: SchemeName,
    salt: Option<u64>,
    names: u64,
) -> ExitCode {
    let (memory, signatures, salt) = match prepare(rt, signatures, salt) {
        Ok(prepared) => prepared,
        Err(code) => return code,
    };
    let Ok(reader) = BufReader::new(memory, rt.stdin()) else {
        return end_fault(rt, ConversationFault::NoMemory);
    };
    let mut device = Streams::new(reader, rt.stdout());
    converse_over(rt, memory, signatures, salt, names, &mut device)
}
