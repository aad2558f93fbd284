//! The laws of every history of a pool that many callers share, and of every audit.

ghost use Rattle.std.specs.Prelude.{◌≡◌, ℕ, List, None, Some};
ghost use Rattle.mp_rules.specs.Verifier.{Accepts};
ghost use Rattle.mp_seqpool.specs.Pool.{Pool};
ghost use Rattle.mp_seqpool.specs.PoolLaws.{IsLawful};
ghost use Rattle.mp_history.specs.declared.fault.AuditFault.{AuditFault};
ghost use Rattle.mp_history.specs.Entry.{Entry};
ghost use Rattle.mp_history.specs.Log.{Log, IsLegal, IsLegalLog};
ghost use Rattle.mp_history.specs.Successors.{AreSuccessors, SuccessorLaw};
ghost use Rattle.mp_history.specs.AuditFault.{first_fault, IsFirstFault};
ghost use Rattle.mp_history.specs.World.{Event, opens, run};
ghost use Rattle.mp_history.specs.CoreLaw.{CoreLaw};

/// For every verifier and every interleaving of the callers' events, the history stays legal, and every version that a
/// caller has is a true one.
pub fn interleavings()
    ensures { (accepts : Accepts) (callers : ℕ) (p : Pool) (es : List Event) → IsLawful accepts p
        → CoreLaw accepts callers p es (run accepts callers (opens p) es) }
{}

/// However often a pool hands over to another, the tickets are strictly increasing through all of their histories, so
/// none is given twice. A later pool's item with a ticket that was given before is the item that had this ticket then.
pub fn successors()
    ensures { (accepts : Accepts) (callers : ℕ) (log : Log) (logs : List Log)
        → IsLegalLog accepts callers log → AreSuccessors accepts log logs
        → SuccessorLaw accepts log logs }
{}

/// The first fault of a history is that of its first bad entry. A history without a fault is legal.
pub fn audit_faults()
    ensures first { (accepts : Accepts) (callers : ℕ) (p : Pool) (log : List Entry)
        → (fault : AuditFault) → first_fault accepts callers p log ≡ Some fault
        → IsFirstFault accepts callers p log fault }
    ensures legal { (accepts : Accepts) (callers : ℕ) (p : Pool) (log : List Entry)
        → first_fault accepts callers p log ≡ None → IsLegal accepts callers p log }
{}
