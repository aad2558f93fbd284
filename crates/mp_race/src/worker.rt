//! What one worker does.

ghost use Rattle.std.specs.Prelude.{◌≡◌, ◌≤◌, ◌<◌, true, IfOk};
ghost use Rattle.mp_seqpool.specs.Pool.{Pool};
ghost use Rattle.mp_race.specs.Inside.Task.{task_of, tasks_of};
ghost use Rattle.mp_race.specs.Inside.Work.{IsUnused, Does};
ghost use Rattle.mp_race.specs.Inside.Gathered.{IsBack};

use crate::gate::Watch;
use crate::task::Task;
use crate::told::{Done, Refused};
use mp_history::PoolName;
use mp_memory::{Memory, NoMemory};
use mp_mempool::{Job, Mempool, Pass, Reader, Refusal};
use mp_rules::Verifier;
use std::sync::{Arc, Wait};

/// The pool that the workers share, and its reader.
pub struct SharedPool<N: PoolName, V: Verifier> {
    pub mempool: Mempool<N, V>,
    pub reader: Arc<Reader<N, V>, Memory>,
}

impl<N: PoolName, V: Verifier + Drop> Drop for SharedPool<N, V> {
    fn drop(self) {
        let SharedPool {
            mempool: _,
            reader: _,
        } = self;
    }
}

/// What a worker returns.
#[derive(Drop)]
pub struct Worker<N: PoolName> {
    pub pass: Pass<N>,
    /// The changes that it has made, in order.
    pub done: Vec<Done, Memory>,
    /// Its commands that were refused.
    pub refused: Vec<Refused, Memory>,
    /// Whether its pass knew each entry of its own that the pool had.
    pub is_sure: bool,
}

// Does the task with this number. Returns whether the pass knows all entries of its caller in the pool.
fn do_task<N: PoolName, V: Verifier>(
    rt: &impl Wait,
    pool: &SharedPool<N, V>,
    pass: &mut Pass<N>,
    done: &mut Vec<Done, Memory>,
    refused: &mut Vec<Refused, Memory>,
    number: u64,
    task: &Task,
) -> Result<bool, NoMemory>
    ensures { IfOk result (λ sure. sure ≡ true → Does N.accepts N.callers
        pass.old done.old.items refused.old.items number (task_of task.now)
        pass.new done.new.items refused.new.items) }
{
    match task {
        Task::Read => {
            pool.reader.refresh(pass);
            Ok(true)
        }
        Task::Change(command) => match pool.mempool.ask(rt, pass, command) {
            Ok(receipt) => {
                done.push(Done {
                    task: number,
                    receipt,
                })?;
                Ok(true)
            }
            Err(Refusal::Pool(mp_seqpool::Refusal::NoMemory)) => Err(NoMemory),
            Err(Refusal::Pool(_)) => {
                refused.push(Refused {
                    worker: pass.caller(),
                    task: number,
                    entries: pass.front().len(),
                })?;
                Ok(true)
            }
            Err(Refusal::Foreign(_)) => Ok(false),
        },
    }
}

/// The tasks of a race, which are dealt to this number of workers of a pool.
pub struct Work<'a, N: PoolName, V: Verifier> {
    pub pool: &'a SharedPool<N, V>,
    pub tasks: &'a [Task],
    pub workers: u32,
    ghost some: { 1 ≤ workers },
}

impl<N: PoolName, V: Verifier> Drop for Work<'_, N, V> {
    fn drop(self) {
        let Work {
            pool: _,
            tasks: _,
            workers: _,
        } = self;
    }
}

impl<N: PoolName + Send + Sync, V: Verifier + Watch + Send + Sync> Job<
    Pass<N>,
    Result<Worker<N>, NoMemory>,
> for Work<'_, N, V> {
    ghost use Rattle.mp_seqpool.specs.Pool.{Pool};
    ghost use Rattle.mp_race.specs.Inside.Task.{tasks_of};
    ghost use Rattle.mp_race.specs.Inside.Work.{IsUnused};
    ghost use Rattle.mp_race.specs.Inside.Gathered.{IsBack};

    ghost takes = { λ w pass. Unit {0} };

    ghost does = { λ w pass result. (opening : Pool) → IsUnused opening pass
        → IsBack N.accepts w.workers opening (tasks_of w.tasks.now) result };

    /// Does the tasks that are dealt to the pass's caller: task j goes to worker j mod `workers`. It calls the gate before each.
    fn run<R: Wait>(&self, rt: &R, pass: Pass<N>) -> Result<Worker<N>, NoMemory> {
        do_tasks(rt, self.pool, self.tasks, self.workers, pass)
    }
}

// Does the tasks of one worker.
fn do_tasks<N: PoolName, V: Verifier + Watch>(
    rt: &impl Wait,
    pool: &SharedPool<N, V>,
    tasks: &[Task],
    workers: u32,
    mut pass: Pass<N>,
) -> Result<Worker<N>, NoMemory>
    requires some { 1 ≤ workers }
    ensures { (opening : Pool) → IsUnused opening pass
        → IsBack N.accepts workers opening (tasks_of tasks.now) result }
{
    let memory = pool.reader.memory();
    let mut done = Vec::new(memory);
    let mut refused = Vec::new(memory);
    let number = pass.caller();
    for (place, task) in tasks.iter().enumerate() {
        if place % workers as usize == number as usize {
            pool.reader.verifier().start(number, place as u64);
            let is_sure = do_task(
                rt,
                pool,
                &mut pass,
                &mut done,
                &mut refused,
                place as u64,
                task,
            )?;
            if !is_sure {
                return Ok(Worker {
                    pass,
                    done,
                    refused,
                    is_sure,
                });
            }
        }
    }
    Ok(Worker {
        pass,
        done,
        refused,
        is_sure: true,
    })
}
