//! Histories of two submits and a removal. The first submit spends an opening output, and the second spends what the
//! first pays. The removal takes out the first, so the second goes with it.
use mp_history::Entry;
use mp_memory::{Memory, NoMemory};
use mp_seqpool::{Reply, Tickets};
use mp_testing::commands::{NOTHING, REMOVE_FIRST, Samples, THREE};

/// The variable parts of a history.
#[derive(Clone, Copy)]
pub struct Telling {
    /// The callers of the submits. Caller 0 makes the removal.
    pub callers: [u32; 2],
    /// The tickets of the submits, and the one that goes with the first.
    pub tickets: [u64; 3],
}

/// Entries in order.
pub type Entries = Vec<Entry, Memory>;

// Appends the entry of this caller, for the sample and this reply.
fn push_entry(
    samples: &Samples,
    entries: &mut Entries,
    caller: u32,
    number: usize,
    reply: Reply,
) -> Option<()> {
    let Ok(command) = samples.command(number)?.share() else {
        return None;
    };
    entries
        .push(Entry {
            caller,
            command,
            reply,
        })
        .ok()
}

fn push_submit(
    samples: &Samples,
    entries: &mut Entries,
    caller: u32,
    number: usize,
    ticket: u64,
) -> Option<()> {
    push_entry(samples, entries, caller, number, Reply::Accepted { ticket })
}

fn only(memory: Memory, ticket: u64) -> Result<Tickets, NoMemory> {
    let mut tickets = Tickets::new(memory);
    tickets.push(ticket)?;
    Ok(tickets)
}

// Its transaction had ticket 1.
fn removal(memory: Memory, ticket: u64) -> Result<Reply, NoMemory> {
    let named = only(memory, 1)?;
    Ok(Reply::Removed {
        named,
        dropped: only(memory, ticket)?,
    })
}

fn push_three(samples: &Samples, entries: &mut Entries, telling: Telling) -> Option<()> {
    let Telling {
        callers: [one, other],
        tickets: [first, second, dropped],
    } = telling;
    push_submit(samples, entries, one, THREE, first)?;
    push_submit(samples, entries, other, THREE + 1, second)?;
    let Ok(reply) = removal(samples.memory, dropped) else {
        return None;
    };
    push_entry(samples, entries, 0, REMOVE_FIRST, reply)
}

fn push_nothing(samples: &Samples, entries: &mut Entries) -> Option<()> {
    let reply = Reply::Removed {
        named: Tickets::new(samples.memory),
        dropped: Tickets::new(samples.memory),
    };
    push_entry(samples, entries, 0, NOTHING, reply)
}

/// This number of entries, each of which removes nothing.
pub fn idle_entries(samples: &Samples, number: u64) -> Option<Entries> {
    let mut entries = Vec::new(samples.memory);
    for _ in 0..number {
        push_nothing(samples, &mut entries)?;
    }
    Some(entries)
}

/// The three entries.
pub fn three_entries(samples: &Samples, telling: Telling) -> Option<Entries> {
    let mut entries = Vec::new(samples.memory);
    push_three(samples, &mut entries, telling)?;
    Some(entries)
}
