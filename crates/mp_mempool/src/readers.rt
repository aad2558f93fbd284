//! Readers of a pool, for the pool and for its host.
ghost use Rattle.std.specs.Prelude.{◌≡◌};
ghost use Rattle.std.specs.Arc.{arc_value};

use crate::read::Reader;
use mp_history::PoolName;
use mp_memory::{Memory, NoMemory};
use mp_rules::Verifier;
use mp_versions::Boards;
use std::sync::Arc;

/// Two owners of a pool's reader.
#[derive(Drop)]
pub(crate) struct Readers<N: PoolName, V: Verifier + Drop> {
    pub(crate) for_pool: Arc<Reader<N, V>, Memory>,
    pub(crate) for_host: Arc<Reader<N, V>, Memory>,
}

/// Readers of these boards.
pub(crate) fn make_readers<N: PoolName, V: Verifier + Drop>(
    memory: Memory,
    verifier: Arc<V, Memory>,
    boards: Boards<N>,
) -> Result<Readers<N, V>, NoMemory>
    requires { V.accepts (arc_value verifier) ≡ N.accepts }
{
    let for_pool = Arc::new(memory, Reader::of(memory, verifier, boards))?;
    let for_host = Arc::try_clone(&for_pool)?;
    Ok(Readers { for_pool, for_host })
}
