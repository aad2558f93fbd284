//! Pools, each with its version.
ghost use Rattle.std.specs.Prelude.{◌≡◌, IfOk};
ghost use Rattle.std.specs.Coded.{codes};
ghost use Rattle.std.specs.FinMap as finite;
ghost use Rattle.mp_seqpool.specs.Prepared.{IsPrepared, leads_to};

use mp_memory::{Memory, NoMemory};
use mp_seqpool::{Command, Prepared, Refusal, SeqPool};
use mp_testing::commands::Samples;
use mp_testing::told::with_digit;
use mp_testing::{ACCEPTS_ALL, CONFIG, Seen};
use mp_tx::Ledger;
use mp_versions::{Run, Version};

/// A pool and its version.
pub struct Both {
    pub pool: SeqPool,
    pub version: Version,
    ghost same: { version.pool ≡ pool.pool } by { Prim.hlevel (codes, finite.code) },
}

impl Drop for Both {
    fn drop(self) {
        let Both {
            pool: _,
            version: _,
        } = self;
    }
}

// The pool with a version of all its items.
fn whole(memory: Memory, pool: SeqPool) -> Option<Both> {
    match Version::of(memory, &pool) {
        Ok(version) => Some(Both { pool, version }),
        Err(NoMemory) => None,
    }
}

/// A pool without transactions.
pub fn start(memory: Memory, ledger: &Ledger) -> Option<Both> {
    match SeqPool::start(memory, CONFIG, ledger) {
        Ok(pool) => whole(memory, pool),
        Err(NoMemory) => None,
    }
}

/// The step that executes the command.
pub fn prepare(pool: &mut SeqPool, command: &Command) -> Result<Prepared, Refusal>
    ensures same { pool.new.pool ≡ pool.old.pool }
    ensures ready { IfOk result (IsPrepared pool.new) }
{
    match command {
        Command::Submit(tx) => pool.prepare_submit(tx, None, &ACCEPTS_ALL),
        Command::Remove(ids) => pool.prepare_remove(ids, &ACCEPTS_ALL),
        Command::Sync(ledger) => pool.prepare_sync(ledger, &ACCEPTS_ALL),
    }
}

/// The version after the step.
pub fn next(memory: Memory, both: &Both, prepared: &Prepared) -> Result<Version, NoMemory>
    requires { IsPrepared both.now.pool prepared.now }
    ensures { IfOk result (λ v. v.pool ≡ leads_to both.now.pool.pool prepared.now) }
{
    both.version.after(memory, &both.pool, prepared)
}

// Executes the step, which leads to the version.
fn take(both: &mut Both, prepared: Prepared, version: Version)
    requires prepared { IsPrepared both.old.pool prepared }
    requires next { version.pool ≡ leads_to both.old.pool.pool prepared }
{
    both.pool.finish(prepared);
    both.version = version;
}

/// Executes the command. The version is made from the one before.
pub fn step(memory: Memory, both: &mut Both, command: &Command) -> Option<()> {
    let Ok(prepared) = prepare(&mut both.pool, command) else {
        return None;
    };
    let Ok(version) = next(memory, both, &prepared) else {
        return None;
    };
    take(both, prepared, version);
    Some(())
}

/// Executes the commands in order.
pub fn step_all(memory: Memory, both: &mut Both, commands: &[Command]) -> Option<()> {
    for command in commands {
        step(memory, both, command)?;
    }
    Some(())
}

/// A pool on the ledger state, after these commands.
pub fn asked(samples: &Samples, ledger: usize, commands: &[Command]) -> Option<Both> {
    let mut both = start(samples.memory, samples.ledger(ledger)?)?;
    step_all(samples.memory, &mut both, commands)?;
    Some(both)
}

fn digits(run: Run<'_>) -> u64 {
    let mut digits: u64 = 0;
    for item in run {
        digits = with_digit(digits, item.ticket);
    }
    digits
}

/// The number of items, their bytes, the last ticket, the version's number, the ledger state's block bytes, and the
/// tickets. These are the digits of a number: 1 and 2 are 12, and 0 is none.
pub fn look_at(version: &Version) -> Seen {
    [
        version.len() as u64,
        version.bytes(),
        version.last_ticket(),
        version.number(),
        version.ledger().block_bytes(),
        digits(version.contents()),
    ]
}
