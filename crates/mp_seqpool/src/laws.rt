//! The laws of pools. Each is the contract of a function that does nothing.

ghost use Rattle.std.specs.Prelude.{ℕ, List};
ghost use Rattle.mp_tx.specs.Ledger.{LedgerState};
ghost use Rattle.mp_rules.specs.Verifier.{Accepts};
ghost use Rattle.mp_seqpool.specs.Command.{Command};
ghost use Rattle.mp_seqpool.specs.Pool.{Pool};
ghost use Rattle.mp_seqpool.specs.Config.{renewed};
ghost use Rattle.mp_seqpool.specs.SlowPool.{empty_pool, AreSigned};
ghost use Rattle.mp_seqpool.specs.PoolLaws.{IsLawful, ObeysLaws};
ghost use Rattle.mp_seqpool.specs.Dependents.{IsApart, DropsDependents};

/// For every verifier, the pool laws hold along every list of commands from each lawful state. A pool that opens
/// without transactions is lawful, and so is one that opens with the content of a lawful pool. The verifier accepts all
/// signatures in a lawful pool.
pub fn pool_laws()
    ensures histories { (accepts : Accepts) (p : Pool) (cs : List Command)
        → IsLawful accepts p → ObeysLaws accepts p cs }
    ensures openings { (accepts : Accepts) (limit last : ℕ) (ledger : LedgerState)
        → IsLawful accepts (empty_pool limit last ledger) }
    ensures renewals { (accepts : Accepts) (limit : ℕ) (p : Pool)
        → IsLawful accepts p → IsLawful accepts (renewed limit p) }
    ensures signed { (accepts : Accepts) (p : Pool) → IsLawful accepts p → AreSigned accepts p }
{}

/// What a remove drops in addition to the named transactions: exactly those that spend or read an output of one that
/// goes. This requires that the ledger state has no output at the id of any transaction of the pool.
pub fn dependents()
    ensures { (accepts : Accepts) (p : Pool) (ids : List (List ℕ))
        → IsLawful accepts p → IsApart p → DropsDependents accepts p ids }
{}
