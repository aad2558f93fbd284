//! Running a whole list of commands on a pool.

ghost use Rattle.std.specs.Prelude.{◌≡◌, ◌++◌, IfOk, OnOk};
ghost use Rattle.mp_seqpool.specs.Config.{fresh_pool};
ghost use Rattle.mp_seqpool.specs.SlowPool.{answers, pool_after};
ghost use Rattle.mp_seqpool.specs.Inside.Command.{commands_of};
ghost use Rattle.mp_seqpool.specs.PoolLaws.{IsLawful, ObeysLaws};

use crate::command::{Answer, Command};
use crate::config::Config;
use crate::pool::SeqPool;
use mp_memory::{Memory, NoMemory};
use mp_rules::Verifier;
use mp_tx::Ledger;

/// The result of a list of commands.
#[derive(Drop)]
pub struct Played {
    /// The answer to each command, in order.
    pub answers: Vec<Answer, Memory>,
    /// The pool after all commands.
    pub pool: SeqPool,
}

// Runs the commands in order, and appends the answers.
fn step_all<V: Verifier>(
    pool: &mut SeqPool,
    told: &mut Vec<Answer, Memory>,
    commands: &[Command],
    verifier: &V,
) -> Result<(), NoMemory>
    requires { IsLawful (V.accepts verifier.now) pool.old.pool }
    ensures answers { OnOk result (told.new.items ≡ told.old.items
        ++ answers (V.accepts verifier.now) pool.old.pool (commands_of commands.now)) }
    ensures pool { OnOk result (pool.new.pool
        ≡ pool_after (V.accepts verifier.now) pool.old.pool (commands_of commands.now)) }
{
    for command in commands {
        told.push(pool.step(command, verifier)?)?;
    }
    Ok(())
}

/// Runs the commands in order on a pool that opens on the ledger state. The answers and the pool are those of the
/// reference pool, and every state on the way obeys the pool laws. `NoMemory` may be returned instead.
pub fn play<V: Verifier>(
    memory: Memory,
    config: Config,
    ledger: &Ledger,
    commands: &[Command],
    verifier: &V,
) -> Result<Played, NoMemory>
    ensures answers { IfOk result (λ played. played.answers.items
        ≡ answers (V.accepts verifier.now)
        (fresh_pool config ledger.now) (commands_of commands.now)) }
    ensures pool { IfOk result (λ played. played.pool.pool ≡ pool_after (V.accepts verifier.now)
        (fresh_pool config ledger.now) (commands_of commands.now)) }
    ensures laws { ObeysLaws (V.accepts verifier.now)
        (fresh_pool config ledger.now) (commands_of commands.now) }
{
    let mut answers = Vec::with_capacity(memory, commands.len())?;
    let mut pool = SeqPool::start(memory, config, ledger)?;
    step_all(&mut pool, &mut answers, commands, verifier)?;
    Ok(Played { answers, pool })
}
