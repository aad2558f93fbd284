//! The pool that conversations share.

ghost use Rattle.std.specs.Prelude.{◌≡◌, [], IfOk, IfErr};
ghost use Rattle.mp_clients.specs.Inside.Asked.{answer_in, IsUnanswered};

use crate::asking::{Asked, make_room};
use crate::journal::Journal;
use crate::recorded::{Change, change_lines, put_entry};
use crate::stop::ClientStop;
use mp_history::PoolName;
use mp_memory::{Memory, NoMemory};
use mp_mempool::{Mempool, Reader, Receipt};
use mp_rules::Verifier;
use mp_text::Text;
use std::sync::{Arc, Wait};

/// The pool that conversations share, its reader, and the file of its history, if it has one.
pub struct Shared<N: PoolName, V: Verifier> {
    pub pool: Mempool<N, V>,
    pub reader: Arc<Reader<N, V>, Memory>,
    pub journal: Option<Journal>,
}

impl<N: PoolName, V: Verifier + Drop> Drop for Shared<N, V> {
    fn drop(self) {
        let Shared {
            pool: _,
            reader: _,
            journal: _,
        } = self;
    }
}

/// What is allocated before a change is made.
#[derive(Drop)]
pub struct Room {
    /// Room for the answer.
    pub answer: Text,
    /// The change's lines in the history.
    pub lines: Text,
}

// Writes the entry of the change, whose lines are given.
fn enter_in(
    rt: &impl Wait,
    journal: &Journal,
    lines: Text,
    receipt: &Receipt,
) -> Result<(), ClientStop>
    ensures { IfErr result (λ stop. stop ≡ ClientStop.Untold) }
{
    let mut lines = lines;
    let text = match put_entry(&mut lines, receipt) {
        Ok(()) => Some(lines.as_slice()),
        Err(_) => None,
    };
    match journal.append(rt, receipt.place, text) {
        Ok(()) => Ok(()),
        Err(_) => Err(ClientStop::Untold),
    }
}

impl<N: PoolName, V: Verifier> Shared<N, V> {
    ghost use Rattle.std.specs.Prelude.{◌≡◌, [], IfOk, IfErr};
    ghost use Rattle.mp_clients.specs.Inside.Asked.{answer_in, IsUnanswered};

    /// What is to be allocated before the change is made, with room for an answer of this many bytes.
    pub(crate) fn prepare(
        &self,
        memory: Memory,
        bytes: usize,
        change: Change<'_>,
    ) -> Result<Room, NoMemory>
        ensures { IfOk result (λ room. room.answer.items ≡ []) }
    {
        let lines = match &self.journal {
            Some(_) => change_lines(memory, change)?,
            None => Vec::new(memory),
        };
        Ok(Room {
            answer: make_room(memory, bytes)?,
            lines,
        })
    }

    /// If the change was made and the pool has a file of its history, the entry is written. That may wait for earlier entries.
    ///
    /// # Errors
    /// `Untold` if the entry is missing in the file. Then the change was made.
    pub(crate) fn enter(&self, rt: &impl Wait, lines: Text, asked: &Asked) -> Result<(), ClientStop>
        ensures { IfErr result (IsUnanswered (answer_in asked.now)) }
    {
        match (asked, &self.journal) {
            (Ok(receipt), Some(journal)) => enter_in(rt, journal, lines, receipt),
            _ => Ok(()),
        }
    }
}
