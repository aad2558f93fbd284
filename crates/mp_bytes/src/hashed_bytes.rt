//! Bytes that are stored with their digest.

use crate::hash::{Hash, TRUE_SCRIPT, TRUE_SCRIPT_HASH, UNIT_DATUM, UNIT_DATUM_HASH, digest};
use mp_memory::{Memory, NoMemory};
use std::marker::Model;
use std::sync::Arc;

#[derive(Debug)]
struct Digested {
    bytes: Vec<u8, Memory>,
    hash: Hash,
}

impl Drop for Digested {
    fn drop(self) {
        let Digested { bytes: _, hash: _ } = self;
    }
}

impl Model for Digested {
    ghost use Rattle.std.specs.Prelude.{ℕ, List, ◌≡◌};
    ghost use Rattle.sha2.specs.Sha256.{sha256};

    ghost Value = { List ℕ };

    ghost view = { λ d. d.bytes.items };

    ghost invariant = { λ d. d.hash ≡ sha256 d.bytes.items };
}

// Nearly every input has the first two, so these take no memory. Several owners may share the others.
#[derive(Debug, Drop)]
enum Content {
    TrueScript,
    UnitDatum,
    Shared(Arc<Digested, Memory>),
}

/// Bytes with their SHA-256 digest (FIPS 180-4), which is computed once. Contracts see only the bytes.
#[derive(Debug)]
pub struct HashedBytes {
    kept: Content,
}

impl Drop for HashedBytes {
    fn drop(self) {
        let HashedBytes { kept: _ } = self;
    }
}

impl Model for HashedBytes {
    ghost use Rattle.std.specs.Prelude.{ℕ, List};
    ghost use Rattle.mp_bytes.specs.Inside.HashedBytes.{bytes_in};

    ghost Value = { List ℕ };

    ghost view = { λ h. bytes_in h.kept };
}

impl HashedBytes {
    ghost use Rattle.std.specs.Prelude.{◌≡◌, IfOk};
    ghost use Rattle.sha2.specs.Sha256.{sha256};

    /// A copy of the bytes, in two allocations: one of exactly their length, and one of what owners share.
    /// The bytes `01` (the script of the one operator that gives true) and `030000` (the datum of no fields) take no
    /// allocation.
    /// Returns `NoMemory` if an allocation fails.
    pub fn of(memory: Memory, bytes: &[u8]) -> Result<HashedBytes, NoMemory>
        ensures { IfOk result (λ kept. kept ≡ bytes.now) }
    {
        if bytes == TRUE_SCRIPT.as_slice() {
            return Ok(HashedBytes {
                kept: Content::TrueScript,
            });
        }
        if bytes == UNIT_DATUM.as_slice() {
            return Ok(HashedBytes {
                kept: Content::UnitDatum,
            });
        }
        let digested = Digested {
            bytes: bytes.to_vec(memory)?,
            hash: digest(bytes),
        };
        Ok(HashedBytes {
            kept: Content::Shared(Arc::new(memory, digested)?),
        })
    }

    /// The same bytes, shared and not copied. Returns `NoMemory` if there are too many owners.
    pub fn share(&self) -> Result<HashedBytes, NoMemory>
        ensures { IfOk result (λ kept. kept ≡ self.now) }
    {
        let kept = match &self.kept {
            Content::TrueScript => Content::TrueScript,
            Content::UnitDatum => Content::UnitDatum,
            Content::Shared(digested) => Content::Shared(Arc::try_clone(digested)?),
        };
        Ok(HashedBytes { kept })
    }

    /// The bytes.
    pub fn bytes(&self) -> &[u8]
        ensures { result.now ≡ self.now }
    {
        match &self.kept {
            Content::TrueScript => &TRUE_SCRIPT,
            Content::UnitDatum => &UNIT_DATUM,
            Content::Shared(digested) => &digested.bytes,
        }
    }

    /// Their SHA-256 digest (FIPS 180-4).
    #[tactic(auto, using(crate::proofs::Known::one, crate::proofs::Known::unit))]
    pub fn hash(&self) -> &Hash
        ensures { result.now ≡ sha256 self.now }
    {
        match &self.kept {
            Content::TrueScript => &TRUE_SCRIPT_HASH,
            Content::UnitDatum => &UNIT_DATUM_HASH,
            Content::Shared(digested) => &digested.hash,
        }
    }
}
