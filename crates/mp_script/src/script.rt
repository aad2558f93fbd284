//! Scripts.

ghost use Rattle.std.specs.Prelude.{◌≡◌, Err, IfErr, OnOk};
ghost use Rattle.mp_script.specs.Script.{IsScript};
ghost use Rattle.mp_script.specs.ScriptReading.{script_of};

use crate::depths::check_depths;
use crate::fault::ScriptFault;
use mp_bytes::{Hash, HashedBytes};
use mp_memory::{Memory, NoMemory};
use std::marker::Model;

/// A script: one expression of at most 1,024 operators, with a depth of at most 64. Contracts see its bytes.
#[derive(Debug)]
pub struct Script {
    spelled: HashedBytes,
}

impl Drop for Script {
    fn drop(self) {
        let Script { spelled: _ } = self;
    }
}

impl Model for Script {
    ghost use Rattle.std.specs.Prelude.{ℕ, List};
    ghost use Rattle.mp_script.specs.Script.{IsScript};

    ghost Value = { List ℕ };

    ghost view = { λ s. s.spelled };

    ghost invariant = { λ s. IsScript s.spelled };
}

// Whether the bytes spell a script.
fn check(bytes: &[u8]) -> Result<(), ScriptFault>
    ensures ok { OnOk result (IsScript bytes.now) }
    ensures err { IfErr result (λ e. script_of bytes.now ≡ Err e) }
{
    check_depths(bytes)
}

impl Script {
    ghost use Rattle.std.specs.Prelude.{◌≡◌, IfOk, IfErr};
    ghost use Rattle.sha2.specs.Sha256.{sha256};
    ghost use Rattle.mp_script.specs.declared.fault.ScriptFault.TheVariants as faults;
    ghost use Rattle.mp_script.specs.Script.{Tree, Spells, IsScript};
    ghost use Rattle.mp_script.specs.ScriptReading.{IsFaultOf};

    /// The script that the bytes spell, stored in two allocations: one of exactly their length, and one of what owners
    /// share. The one operator that gives true takes no allocation.
    ///
    /// # Errors
    /// The first fault from the left. The checks of each operator, in this order, are: `BadOperator` if its byte is no
    /// operator's, and `Truncated` if further bytes are missing. Then `TooLong` if it is the 1,025th, and `Underflow`
    /// if fewer expressions are on the stack than it has operands. Then `TooDeep` if its expression is deeper than 64.
    /// At the end: `NotOneExpression` if the stack doesn't have exactly one expression. `NoMemory` may be returned
    /// instead of a script.
    pub fn decode(memory: Memory, bytes: &[u8]) -> Result<Script, ScriptFault>
        ensures found { IfOk result (λ s. (s ≡ bytes.now) × IsScript bytes.now) }
        ensures only { (t : Tree) → Spells bytes.now t → IfErr result (λ e. e ≡ faults.NoMemory) }
        ensures exact { IfErr result (λ e. IsFaultOf bytes.now e) }
    {
        check(bytes)?;
        Ok(Script {
            spelled: HashedBytes::of(memory, bytes)?,
        })
    }

    /// The same script. Its bytes are shared and not copied. Returns `NoMemory` if there are too many owners.
    pub fn share(&self) -> Result<Script, NoMemory>
        ensures { IfOk result (λ s. s ≡ self.now) }
    {
        Ok(Script {
            spelled: self.spelled.share()?,
        })
    }

    /// Its bytes.
    pub fn bytes(&self) -> &[u8]
        ensures same { result.now ≡ self.now }
        ensures script { IsScript self.now }
    {
        self.spelled.bytes()
    }

    /// The SHA-256 (FIPS 180-4) of its bytes.
    pub fn hash(&self) -> &Hash
        ensures { result.now ≡ sha256 self.now }
    {
        self.spelled.hash()
    }
}
