//! The report on a race.

ghost use Rattle.std.specs.Prelude.{◌≡◌, ◌+◌, ◌<◌, ◌^◌, count_by};
ghost use Rattle.mp_race.specs.Report.{is_read};
ghost use Rattle.mp_race.specs.Inside.Task.{tasks_of};
ghost use Rattle.mp_race.specs.Inside.Counts.{with_reply, counts_of};

use crate::fault::RaceFault;
use crate::report_text::report_text;
use crate::task::Task;
use mp_history::Entry;
use mp_memory::Memory;
use mp_seqpool::Reply;
use mp_text::write_all;
use std::io::Write;

/// The report on a race. Its commands are its entries, its refusals and its reads.
#[derive(Clone, Copy, Debug, PartialEq, Eq)]
pub struct Report {
    /// How many workers there were: 1 to 64.
    pub workers: u32,
    /// The transactions that were added.
    pub accepted: u64,
    /// The changes that were refused.
    pub refused: u64,
    /// The removals that were made.
    pub removes: u64,
    /// The ledger states that were adopted.
    pub syncs: u64,
    /// The snapshots.
    pub reads: u64,
    /// The entries of the history.
    pub entries: u64,
    /// The last ticket.
    pub last: u64,
}

impl Report {
    ghost use Rattle.mp_race.specs.ReportText.{IsWritten};

    /// Writes the report: a line of numbers, and the line that the history was found legal.
    ///
    /// # Errors
    /// `WriteFault`, after writing a prefix of the text. `NoMemory`, after writing nothing.
    pub fn write<W: Write>(&self, memory: Memory, writer: &mut W) -> Result<(), RaceFault>
        ensures { IsWritten self.now (W.contents writer.old) (W.contents writer.new) result }
    {
        let text = report_text(memory, self)?;
        match write_all(writer, &text) {
            Ok(()) => Ok(()),
            Err(_) => Err(RaceFault::WriteFault),
        }
    }
}

/// How many entries have each kind of reply.
#[derive(Clone, Copy)]
pub struct Counts {
    pub accepted: u64,
    pub removes: u64,
    pub syncs: u64,
}

// One more reply.
fn add_reply(counts: Counts, reply: &Reply) -> Counts
    requires accepted { counts.accepted + 1 < 2 ^ 64 }
    requires removes { counts.removes + 1 < 2 ^ 64 }
    requires syncs { counts.syncs + 1 < 2 ^ 64 }
    ensures { result ≡ with_reply counts reply.now }
{
    match reply {
        Reply::Accepted { .. } => Counts {
            accepted: counts.accepted + 1,
            ..counts
        },
        Reply::Removed { .. } => Counts {
            removes: counts.removes + 1,
            ..counts
        },
        Reply::Synced { .. } => Counts {
            syncs: counts.syncs + 1,
            ..counts
        },
    }
}

/// How many of the entries have each kind of reply.
pub fn counts_of(entries: &[Entry]) -> Counts
    ensures { result ≡ counts_of entries.now }
{
    let mut counts = Counts {
        accepted: 0,
        removes: 0,
        syncs: 0,
    };
    for entry in entries {
        counts = add_reply(counts, &entry.reply);
    }
    counts
}

/// How many of the tasks are snapshots.
pub fn count_reads(tasks: &[Task]) -> u64
    ensures { result ≡ count_by is_read (tasks_of tasks.now) }
{
    let mut count = 0;
    for task in tasks {
        if matches!(task, Task::Read) {
            count += 1;
        }
    }
    count
}
