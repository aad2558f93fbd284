//! Sample commands for pools, made once. The result is `None` if they can't be made.
mod guarded;
mod ledgers;
mod submits;

use crate::commands::guarded::push_guarded;
use crate::commands::ledgers::push_ledgers;
use crate::commands::submits::{push_merged, push_submits};
use mp_memory::Memory;
use mp_seqpool::{Command, Ids};
use mp_tx::{Ledger, Tx, TxId, TxParts};
use std::sync::Arc;

/// How many samples, from 0 on, submit a transaction of 181 bytes: sample n spends opening output n and pays 100.
pub const SPENDING: u16 = 130;

/// The first of three submits: the first spends opening 0, the second what the first pays, the third opening 1.
pub const THREE: usize = 130;

/// A submit of a transaction that spends what sample 1 pays.
pub const CHAINED: usize = 133;

/// The first of two submits that spend the first two opening outputs, and are signed by keys of 0 and of 1.
pub const SIGNED: usize = 134;

/// A submit that spends the same output as sample 1, and pays 60 and 40. The next two samples spend these, and are
/// signed by keys of 0 and of 1.
pub const RIVAL: usize = 136;

/// All samples before this one are submits.
pub const SUBMITS: usize = 139;

/// Six commands. The first and the last submit the guarded transaction. Between them are a remove of nothing and three
/// syncs, to guarded ledger states at the ticks 1, 2 and 3. There the guarded output has 100, 120 and 99 coin.
pub const GUARDED: usize = 139;

/// The guarded ledger state at tick 0, in which the guarded output has 100 coin.
pub const OF_100: usize = 145;

/// The same with 120 coin.
pub const OF_120: usize = 146;

/// A remove of nothing.
pub const NOTHING: usize = 140;

/// A ledger state at tick 1 with only the outputs of sample 0.
pub const AFTER_FIRST: usize = 147;

/// The ledger state of all opening outputs that samples spend.
pub const ALL: usize = 148;

/// Only the first opening output.
pub const PART: usize = 149;

/// The first hundred opening outputs.
pub const HUNDRED: usize = 150;

/// A remove of sample 0.
pub const REMOVE_FIRST: usize = 151;

/// A remove of sample 1.
pub const REMOVE_SECOND: usize = 152;

/// A remove of the samples 63 and 64. They have the tickets 64 and 65 if all are submitted in order.
pub const REMOVE_TWO: usize = 153;

/// A remove of sample 69.
pub const REMOVE_SEVENTIETH: usize = 154;

/// A signed submit that spends both outputs of the submit `RIVAL`, which have 60 and 40 coin.
pub const MERGED: usize = 155;

/// A submit that spends the same output as sample 1, and pays 50 twice. The next sample is signed and spends both of
/// these.
pub const EVEN: usize = 156;

/// A remove of sample 2.
pub const REMOVE_THIRD: usize = 158;

/// Commands in order.
pub type Commands = Vec<Command, Memory>;

/// All samples.
pub struct Samples {
    pub memory: Memory,
    commands: Commands,
}

impl Drop for Samples {
    fn drop(self) {
        let Samples {
            memory: _,
            commands: _,
        } = self;
    }
}

impl Samples {
    /// The sample of this number.
    pub fn command(&self, number: usize) -> Option<&Command> {
        self.commands.get(number)
    }

    /// The samples from the first number up to and without the second, or none if there aren't that many.
    pub fn commands(&self, from: usize, to: usize) -> &[Command] {
        match self.commands.get(from..to) {
            Some(commands) => commands,
            None => &[],
        }
    }

    /// The transaction that the sample submits.
    pub fn transaction(&self, number: usize) -> Option<&Arc<Tx, Memory>> {
        match self.command(number) {
            Some(Command::Submit(tx)) => Some(tx),
            _ => None,
        }
    }

    /// The ledger state that the sample adopts.
    pub fn ledger(&self, number: usize) -> Option<&Ledger> {
        match self.command(number) {
            Some(Command::Sync(ledger)) => Some(ledger),
            _ => None,
        }
    }
}

/// The id of the transaction that the command submits.
pub fn submitted(commands: &[Command], place: usize) -> Option<TxId> {
    match commands.get(place) {
        Some(Command::Submit(tx)) => Some(*tx.id()),
        _ => None,
    }
}

fn ids_of(memory: Memory, commands: &[Command], numbers: &[usize]) -> Option<Vec<TxId, Memory>> {
    let mut ids = Vec::new(memory);
    for number in numbers {
        if ids.push(submitted(commands, *number)?).is_err() {
            return None;
        }
    }
    Some(ids)
}

/// Appends a remove of the transactions that these samples submit.
pub fn push_remove(memory: Memory, commands: &mut Commands, numbers: &[usize]) -> Option<()> {
    let ids = ids_of(memory, commands, numbers)?;
    let Ok(shared) = Arc::new(memory, Ids::of(ids)) else {
        return None;
    };
    commands.push(Command::Remove(shared)).ok()
}

/// Appends a submit of the transaction.
pub fn push_tx(memory: Memory, commands: &mut Commands, parts: TxParts) -> Option<()> {
    let Ok(tx) = Tx::of_parts(memory, parts) else {
        return None;
    };
    let Ok(shared) = Arc::new(memory, tx) else {
        return None;
    };
    commands.push(Command::Submit(shared)).ok()
}

fn push_all(memory: Memory, commands: &mut Commands) -> Option<()> {
    push_submits(memory, commands)?;
    push_guarded(memory, commands)?;
    push_ledgers(memory, commands)?;
    push_remove(memory, commands, &[0])?;
    push_remove(memory, commands, &[1])?;
    push_remove(memory, commands, &[63, 64])?;
    push_remove(memory, commands, &[69])?;
    push_merged(memory, commands)?;
    push_remove(memory, commands, &[2])
}

/// Makes all samples.
pub fn all_samples(memory: Memory) -> Option<Samples> {
    let mut commands = Vec::new(memory);
    push_all(memory, &mut commands)?;
    Some(Samples { memory, commands })
}
