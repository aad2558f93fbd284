//! The salt of a conversation's pool.

ghost use Rattle.std.specs.Prelude.{◌≡◌, IfSome, IfErr, IfOk};
ghost use Rattle.std.specs.Process.{exit_status};
ghost use Rattle.mp_main.specs.Salt.{IsDrawn};

use crate::ending::end_undrawn;
use mp_tx::Salt;
use std::fs::File;
use std::io::{self, Read};
use std::process::ExitCode;

// Where Linux has random bytes.
const RANDOM: &str = "/dev/urandom";

/// Returns the number that the reader's next eight bytes encode, least significant first.
///
/// # Errors
/// If a read fails, or if there are fewer bytes.
pub fn draw_salt<R: Read>(reader: &mut R) -> io::Result<u64>
    ensures { IfSome (R.remaining reader.old) (λ bytes. IfOk result (IsDrawn bytes)) }
{
    let mut bytes = [0; 8];
    reader.read_exact(&mut bytes)?;
    Ok(u64::from_le_bytes(bytes))
}

/// The salt of this number, or a random one without a number.
pub fn salt_of(rt: &HostRuntime, number: Option<u64>) -> Result<Salt, ExitCode>
    ensures given { IfSome number (λ n. IfOk result (λ salt. salt ≡ n)) }
    ensures status { IfErr result (λ code. exit_status code ≡ 1) }
{
    match number {
        Some(number) => Ok(Salt::new(number)),
        None => match File::open(rt, RANDOM) {
            Ok(mut device) => match draw_salt(&mut device) {
                Ok(number) => Ok(Salt::new(number)),
                Err(error) => Err(end_undrawn(rt, error)),
            },
            Err(error) => Err(end_undrawn(rt, error)),
        },
    }
}
