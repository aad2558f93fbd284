//! Outputs: what a transaction pays.

use mp_bundle::Bundle;
use mp_bytes::Hash;
use mp_memory::NoMemory;
use mp_script::Address;

/// An output (the EUTXO and native-token papers of Chakravarty et al.): a bundle that a script locks, and the hash of a
/// datum.
#[derive(Debug, PartialEq, Eq, Drop)]
pub struct Output {
    /// The hash of the script that locks it.
    pub address: Address,
    /// The hash of its datum.
    pub datum_hash: Hash,
    pub value: Bundle,
}

impl Output {
    ghost use Rattle.std.specs.Prelude.{◌≡◌, IfOk};

    /// The same output. The entries of its bundle are shared and not copied. Returns `NoMemory` if there are too many
    /// owners.
    pub fn share(&self) -> Result<Output, NoMemory>
        ensures { IfOk result (λ o. o ≡ self.now) }
    {
        Ok(Output {
            address: self.address,
            datum_hash: self.datum_hash,
            value: self.value.share()?,
        })
    }
}
