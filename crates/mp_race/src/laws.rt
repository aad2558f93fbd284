//! A race of one worker is a run.

ghost use Rattle.std.specs.Prelude.{◌≡◌, List};
ghost use Rattle.mp_rules.specs.Verifier.{Accepts};
ghost use Rattle.mp_seqpool.specs.Pool.{Pool};
ghost use Rattle.mp_history.specs.Log.{Log};
ghost use Rattle.mp_race.specs.Task.{Task};
ghost use Rattle.mp_race.specs.Race.{IsRace};
ghost use Rattle.mp_race.specs.Sequential.{entries_from};

/// The history of a race of one worker has exactly the entries that a pool of one thread makes of its tasks, in order.
pub fn one_worker_runs()
    ensures { (accepts : Accepts) (opening : Pool) (tasks : List Task) (log : Log)
        → IsRace accepts opening 1 tasks log → log.entries ≡ entries_from accepts opening tasks }
{}
