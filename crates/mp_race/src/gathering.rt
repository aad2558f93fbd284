//! What all workers return.

ghost use Rattle.std.specs.Prelude.{◌≡◌, true, List, All, IfOk};
ghost use Rattle.mp_seqpool.specs.Pool.{Pool};
ghost use Rattle.mp_history.specs.Log.{Begins, IsLegalLog};
ghost use Rattle.mp_race.specs.Task.{Task};
ghost use Rattle.mp_race.specs.Inside.Gathered.{IsBack, AreGathered};

use crate::told::{Done, Refused};
use crate::worker::Worker;
use mp_history::{Front, PoolName};
use mp_memory::{Memory, NoMemory};
use mp_mempool::Pass;

/// What all workers return.
#[derive(Drop)]
pub struct Gathered<N: PoolName> {
    /// The longest front that one of them has.
    pub front: Front<N>,
    /// The passes by worker.
    pub passes: Vec<Pass<N>, Memory>,
    pub done: Vec<Done, Memory>,
    pub refused: Vec<Refused, Memory>,
    /// Whether the pass of each knew each entry of its own that the pool had.
    pub is_sure: bool,
}

// What the pass holds is legal. This costs nothing at run time.
fn look_at<N: PoolName>(pass: &Pass<N>)
    ensures { IsLegalLog N.accepts N.callers pass.now.front }
{
    let _version = pass.shown().version();
}

// The longer of the two fronts. The other is a prefix of it.
fn longer<N: PoolName>(front: Front<N>, pass: &Pass<N>) -> Front<N>
    ensures this { Begins front result }
    ensures that { Begins pass.now.front result }
    ensures legal { IsLegalLog N.accepts N.callers front → IsLegalLog N.accepts N.callers result }
{
    look_at(pass);
    front.compare(pass.front());
    if front.len() < pass.front().len() {
        pass.front().again()
    } else {
        front
    }
}

impl<N: PoolName> Gathered<N> {
    ghost use Rattle.std.specs.Prelude.{◌≡◌, [], true, List, IfOk};
    ghost use Rattle.mp_seqpool.specs.Pool.{Pool};
    ghost use Rattle.mp_race.specs.Task.{Task};
    ghost use Rattle.mp_race.specs.Inside.Work.{HasMade};
    ghost use Rattle.mp_race.specs.Inside.Gathered.{AreGathered};

    // Before any worker.
    fn new(memory: Memory, front: Front<N>) -> Gathered<N>
        ensures front { result.front ≡ front }
        ensures passes { result.passes.items ≡ [] }
        ensures done { result.done.items ≡ [] }
        ensures refused { result.refused.items ≡ [] }
    {
        Gathered {
            front,
            passes: Vec::new(memory),
            done: Vec::new(memory),
            refused: Vec::new(memory),
            is_sure: true,
        }
    }

    // Adds one more worker.
    fn add(self, worker: Worker<N>) -> Result<Gathered<N>, NoMemory>
        ensures sure { IfOk result (λ g. g.is_sure ≡ true → self.is_sure ≡ true) }
        ensures worker { IfOk result (λ g. g.is_sure ≡ true → worker.is_sure ≡ true) }
        ensures gathered { (opening : Pool) (ts : List Task) → IfOk result (λ g.
            AreGathered N.accepts N.callers opening ts
            self.front self.passes.items self.done.items self.refused.items
            → HasMade N.accepts N.callers opening ts
            worker.pass worker.done.items worker.refused.items
            → AreGathered N.accepts N.callers opening ts
            g.front g.passes.items g.done.items g.refused.items) }
    {
        let Gathered {
            front,
            mut passes,
            mut done,
            mut refused,
            is_sure,
        } = self;
        let Worker {
            pass,
            done: mut more,
            refused: mut others,
            is_sure: knows,
        } = worker;
        let front = longer(front, &pass);
        done.append(&mut more)?;
        refused.append(&mut others)?;
        passes.push(pass)?;
        Ok(Gathered {
            front,
            passes,
            done,
            refused,
            is_sure: is_sure && knows,
        })
    }
}

/// Collects what all workers return. Each has seen at least the front.
///
/// # Errors
/// `NoMemory`, also if an allocation of a worker failed.
pub fn gather<N: PoolName>(
    memory: Memory,
    front: Front<N>,
    workers: Vec<Result<Worker<N>, NoMemory>, Memory>,
) -> Result<Gathered<N>, NoMemory>
    requires { IsLegalLog N.accepts N.callers front }
    ensures { (opening : Pool) (ts : List Task) → front.opening ≡ opening
        → All (IsBack N.accepts N.callers opening ts) workers.items
        → IfOk result (λ g. g.is_sure ≡ true → AreGathered N.accepts N.callers opening ts
        g.front g.passes.items g.done.items g.refused.items) }
{
    let mut gathered = Gathered::new(memory, front);
    for worker in workers {
        let back = worker?;
        gathered = gathered.add(back)?;
    }
    Ok(gathered)
}
