//! Observed answers, as plain data.
use crate::trial::Seen;
use mp_history::AuditFault;
use mp_seqpool::{Answer, Invalid, Refusal, Reply, SeqPool};

/// An observed answer. Tickets are the digits of a number: 1 and 2 are 12, and 0 is none.
#[derive(Clone, Copy)]
pub enum Told {
    Accepted(u64),
    /// The tickets that were named, and those that went with them.
    Removed(u64, u64),
    /// The tickets that stay, and those that don't.
    Synced(u64, u64),
    AlreadyInPool(u64),
    HistoryFull,
    InputMissing(usize),
    ValidatorRefused(usize),
    /// The pool after a legal history: the number of its transactions, and the last ticket.
    Legal(usize, u64),
    WrongReply(usize),
    StrangeCaller(usize),
    NoMemory,
    /// None of these, or two answers that differ.
    Otherwise,
}

impl Told {
    /// The answer as numbers. The first is its kind, and from the fourth on they are 0.
    pub fn seen(self) -> Seen {
        let [kind, first, second] = match self {
            Told::Accepted(ticket) => [1, ticket, 0],
            Told::Removed(named, dropped) => [2, named, dropped],
            Told::Synced(kept, dropped) => [3, kept, dropped],
            Told::AlreadyInPool(ticket) => [4, ticket, 0],
            Told::HistoryFull => [5, 0, 0],
            Told::InputMissing(place) => [6, place as u64, 0],
            Told::ValidatorRefused(place) => [7, place as u64, 0],
            Told::Legal(len, last) => [8, len as u64, last],
            Told::WrongReply(place) => [9, place as u64, 0],
            Told::StrangeCaller(place) => [10, place as u64, 0],
            Told::NoMemory => [11, 0, 0],
            Told::Otherwise => [12, 0, 0],
        };
        [kind, first, second, 0, 0, 0]
    }

    /// The answer, or `None` if an allocation failed.
    pub fn answered(self) -> Option<Seen> {
        match self {
            Told::NoMemory => None,
            told => Some(told.seen()),
        }
    }
}

/// The digits, with those of one more ticket.
pub fn with_digit(digits: u64, ticket: u64) -> u64 {
    digits.saturating_mul(10).saturating_add(ticket)
}

fn digits(tickets: &[u64]) -> u64 {
    let mut digits = 0;
    for ticket in tickets {
        digits = with_digit(digits, *ticket);
    }
    digits
}

/// The observed reply.
pub fn read_reply(reply: &Reply) -> Told {
    match reply {
        Reply::Accepted { ticket } => Told::Accepted(*ticket),
        Reply::Removed { named, dropped } => {
            Told::Removed(digits(named.as_slice()), digits(dropped.as_slice()))
        }
        Reply::Synced { kept, dropped } => {
            Told::Synced(digits(kept.as_slice()), digits(dropped.as_slice()))
        }
    }
}

/// The observed refusal.
pub fn read_refusal(refusal: &Refusal) -> Told {
    match refusal {
        Refusal::NoMemory => Told::NoMemory,
        Refusal::HistoryFull => Told::HistoryFull,
        Refusal::AlreadyInPool(ticket) => Told::AlreadyInPool(*ticket),
        Refusal::Invalid(Invalid::InputMissing(place)) => Told::InputMissing(*place),
        Refusal::Invalid(Invalid::ValidatorRefused(place)) => Told::ValidatorRefused(*place),
        _ => Told::Otherwise,
    }
}

/// The observed answer.
pub fn read_answer(answer: &Answer) -> Told {
    match answer {
        Ok(reply) => read_reply(reply),
        Err(refusal) => read_refusal(refusal),
    }
}

/// The pool's tickets as the digits of a number, its bytes, the last ticket and the number of changes.
pub fn read_pool(pool: &SeqPool) -> Seen {
    let mut tickets = 0;
    for (ticket, _) in pool.contents() {
        tickets = with_digit(tickets, ticket);
    }
    [
        tickets,
        pool.bytes(),
        pool.last_ticket(),
        pool.changes(),
        0,
        0,
    ]
}

/// The observed fault of an audit.
pub fn read_fault(fault: AuditFault) -> Told {
    match fault {
        AuditFault::NoMemory => Told::NoMemory,
        AuditFault::WrongReply(place) => Told::WrongReply(place),
        AuditFault::StrangeCaller(place) => Told::StrangeCaller(place),
    }
}
