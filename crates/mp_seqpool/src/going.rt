//! Lists of tickets of what goes.

ghost use Rattle.std.specs.Prelude.{◌≡◌, true, All, IfOk, IsTrue};
ghost use Rattle.std.specs.List.Sorted.{IsStrictlyIncreasing};
ghost use Rattle.mp_tickets.specs.Tickets.{has_ticket};

use mp_memory::{Memory, NoMemory};
use mp_tickets::Tickets;

/// The strictly increasing tickets, as a list.
pub fn as_tickets(memory: Memory, rising: &[u64]) -> Result<Tickets, NoMemory>
    requires { IsStrictlyIncreasing rising.now }
    ensures { IfOk result (λ tickets. tickets ≡ rising.now) }
{
    let mut tickets = Tickets::new(memory);
    for ticket in rising {
        tickets.push(*ticket)?;
    }
    Ok(tickets)
}

/// These tickets in order, each once.
pub fn in_order(memory: Memory, mut found: Vec<u64, Memory>) -> Result<Tickets, NoMemory> {
    found.sort_unstable();
    found.dedup();
    as_tickets(memory, &found)
}

/// Adds the ticket to the increasing ones, if it isn't among them.
pub fn insert_in_order(found: &mut Vec<u64, Memory>, ticket: u64) -> Result<(), NoMemory> {
    if let Err(place) = found.binary_search(&ticket) {
        found.insert(place, ticket)?;
    }
    Ok(())
}

/// Whether each of these tickets is among the others.
pub fn are_among(named: &Tickets, gone: &Tickets) -> bool
    ensures { IsTrue result → All (λ n. has_ticket gone.now n ≡ true) named.now }
{
    named.as_slice().iter().all(|ticket| gone.contains(*ticket))
}
