//! Versions with their fronts.
ghost use Rattle.std.specs.Prelude.{◌≡◌, IfOk};
ghost use Rattle.std.specs.Arc.{arc_value};
ghost use Rattle.mp_history.specs.Log.{IsLegalLog, state_after};
ghost use Rattle.mp_versions.specs.Shown.{IsVersionOf};

use crate::version::Version;
use mp_history::{Front, PoolName};
use mp_memory::{Memory, NoMemory};
use std::marker::Model;
use std::sync::Arc;

/// A version that callers may hold, with its front. The history is legal, and the version is the slow pool after it. Contracts
/// see it as that history.
pub struct Shown<N: PoolName> {
    version: Arc<Version, Memory>,
    front: Front<N>,
}

impl<N: PoolName> Drop for Shown<N> {
    fn drop(self) {
        let Shown {
            version: _,
            front: _,
        } = self;
    }
}

impl<N: PoolName> Model for Shown<N> {
    ghost use Rattle.std.specs.Arc.{arc_value};
    ghost use Rattle.std.specs.Coded.{codes};
    ghost use Rattle.std.specs.FinMap as finite;
    ghost use Rattle.mp_history.specs.Log.{Log};
    ghost use Rattle.mp_versions.specs.Shown.{IsVersionOf};

    ghost Value = { Log };

    ghost coded = { Prim.hlevel (codes, finite.code) };

    ghost view = { λ s. s.front };

    ghost invariant = { λ s. IsVersionOf N.accepts N.callers s.front (arc_value s.version) };
}

impl<N: PoolName> Shown<N> {
    /// The version with its front. It allocates nothing.
    pub fn of(version: Arc<Version, Memory>, front: Front<N>) -> Shown<N>
        requires { IsVersionOf N.accepts N.callers front (arc_value version) }
        ensures { result ≡ front }
    {
        Shown { version, front }
    }

    /// The version: the slow pool after the entries of the front.
    pub fn version(&self) -> &Version
        ensures state { result.now.pool ≡ state_after N.accepts self.now }
        ensures legal { IsLegalLog N.accepts N.callers self.now }
    {
        &self.version
    }

    /// The front: the prefix of the history that the version is after.
    pub fn front(&self) -> &Front<N>
        ensures { result.now ≡ self.now }
    {
        &self.front
    }

    /// The same version with the same front. The version is shared, not copied.
    pub fn share(&self) -> Result<Shown<N>, NoMemory>
        ensures { IfOk result (λ s. s ≡ self.now) }
    {
        Ok(Shown {
            version: Arc::try_clone(&self.version)?,
            front: self.front.again(),
        })
    }
}
