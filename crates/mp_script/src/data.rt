//! Data.

ghost use Rattle.std.specs.Prelude.{◌≡◌, Err, IfErr, OnOk};
ghost use Rattle.mp_script.specs.Datum.{IsDatum};
ghost use Rattle.mp_script.specs.DataReading.{datum_of};

use crate::datum_ref::DatumRef;
use crate::fault::DataFault;
use crate::walk::{MAX_DEPTH, datum_end};
use mp_bytes::{Hash, HashedBytes};
use mp_memory::{Memory, NoMemory};
use std::marker::Model;

/// A datum: a whole number, bytes, or a list of data, with a depth of at most 16. Contracts see its bytes.
#[derive(Debug)]
pub struct Data {
    spelled: HashedBytes,
}

impl Drop for Data {
    fn drop(self) {
        let Data { spelled: _ } = self;
    }
}

impl Model for Data {
    ghost use Rattle.std.specs.Prelude.{ℕ, List};
    ghost use Rattle.mp_script.specs.Datum.{IsDatum};

    ghost Value = { List ℕ };

    ghost view = { λ d. d.spelled };

    ghost invariant = { λ d. IsDatum d.spelled };
}

// Whether the bytes spell a datum.
fn check(bytes: &[u8]) -> Result<(), DataFault>
    ensures ok { OnOk result (IsDatum bytes.now) }
    ensures err { IfErr result (λ e. datum_of bytes.now ≡ Err e) }
{
    if datum_end(bytes, MAX_DEPTH)?.is_empty() {
        Ok(())
    } else {
        Err(DataFault::Trailing)
    }
}

impl Data {
    ghost use Rattle.std.specs.Prelude.{◌≡◌, IfOk, IfErr};
    ghost use Rattle.sha2.specs.Sha256.{sha256};
    ghost use Rattle.mp_script.specs.declared.fault.DataFault.TheVariants as faults;
    ghost use Rattle.mp_script.specs.Datum.{Datum, Spells, IsDatum};
    ghost use Rattle.mp_script.specs.DataReading.{IsFaultOf};

    /// The datum that the bytes spell, stored in two allocations: one of exactly their length, and one of what owners
    /// share. The list without items takes no allocation.
    ///
    /// # Errors
    /// The first fault from the left. The checks of each datum, in reading order, are: `Truncated` if no byte is left,
    /// and `TooDeep` if its depth would be 17. Then `BadTag` if its first byte is no tag, and `Truncated` if some of
    /// its bytes are missing. At the end: `Trailing` if bytes are left. `NoMemory` may be returned instead of a datum.
    pub fn decode(memory: Memory, bytes: &[u8]) -> Result<Data, DataFault>
        ensures found { IfOk result (λ d. (d ≡ bytes.now) × IsDatum bytes.now) }
        ensures only { (d : Datum) → Spells bytes.now d → IfErr result (λ e. e ≡ faults.NoMemory) }
        ensures exact { IfErr result (λ e. IsFaultOf bytes.now e) }
    {
        check(bytes)?;
        Ok(Data {
            spelled: HashedBytes::of(memory, bytes)?,
        })
    }

    /// The same datum. Its bytes are shared and not copied. Returns `NoMemory` if there are too many owners.
    pub fn share(&self) -> Result<Data, NoMemory>
        ensures { IfOk result (λ d. d ≡ self.now) }
    {
        Ok(Data {
            spelled: self.spelled.share()?,
        })
    }

    /// Its bytes.
    pub fn bytes(&self) -> &[u8]
        ensures same { result.now ≡ self.now }
        ensures datum { IsDatum self.now }
    {
        self.spelled.bytes()
    }

    /// The SHA-256 (FIPS 180-4) of its bytes.
    pub fn hash(&self) -> &Hash
        ensures { result.now ≡ sha256 self.now }
    {
        self.spelled.hash()
    }

    /// The whole datum, as a part.
    pub fn whole(&self) -> DatumRef<'_>
        ensures { result ≡ self.now }
    {
        DatumRef::of(self.spelled.bytes())
    }
}
