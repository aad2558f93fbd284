//! Lists of tickets.
use mp_memory::{Memory, NoMemory};
use std::marker::Model;

/// Strictly increasing tickets, so none occurs twice. A contract sees the list of them.
#[derive(Debug)]
pub struct Tickets {
    tickets: Vec<u64, Memory>,
}

impl Drop for Tickets {
    fn drop(self) {
        let Tickets { tickets: _ } = self;
    }
}

impl Model for Tickets {
    ghost use Rattle.std.specs.Prelude.{ℕ, List};
    ghost use Rattle.std.specs.List.Sorted.{IsStrictlyIncreasing};

    ghost Value = { List ℕ };

    ghost view = { λ t. t.tickets.items };

    ghost invariant = { λ t. IsStrictlyIncreasing t.tickets.items };
}

impl Tickets {
    ghost use Rattle.std.specs.Prelude.{◌≡◌, ◌<◌, [], ◌∷◌, ◌++◌, All, IfOk, OnOk, OnErr};
    ghost use Rattle.std.specs.List.Sorted.{IsStrictlyIncreasing};
    ghost use Rattle.mp_tickets.specs.Tickets.{has_ticket};

    /// No tickets. It takes no memory.
    pub fn new(memory: Memory) -> Tickets
        ensures { result ≡ [] }
    {
        Tickets {
            tickets: Vec::new(memory),
        }
    }

    /// Appends the ticket, which has to be greater than each in the list.
    ///
    /// # Errors
    /// `NoMemory`, and then the list doesn't change.
    pub fn push(&mut self, ticket: u64) -> Result<(), NoMemory>
        requires { All (λ t. t < ticket) self.old }
        ensures ok { OnOk result (self.new ≡ self.old ++ ticket ∷ []) }
        ensures err { OnErr result (self.new ≡ self.old) }
    {
        self.tickets.push(ticket)?;
        Ok(())
    }

    /// The same tickets.
    pub fn copy(&self) -> Result<Tickets, NoMemory>
        ensures { IfOk result (λ t. t ≡ self.now) }
    {
        let memory = *self.tickets.allocator();
        let tickets = Vec::from_slice(memory, self.as_slice())?;
        Ok(Tickets { tickets })
    }

    /// The tickets, in order.
    pub fn as_slice(&self) -> &[u64]
        ensures same { result.now ≡ self.now }
        ensures rising { IsStrictlyIncreasing result.now }
    {
        &self.tickets
    }

    /// Whether the list has the ticket, by a binary search.
    pub fn contains(&self, ticket: u64) -> bool
        ensures { result ≡ has_ticket self.now ticket }
    {
        self.tickets.binary_search(&ticket).is_ok()
    }
}

impl PartialEq for Tickets {
    ghost use Rattle.std.proofs.Common.{rules};
    ghost use Rattle.std.proofs.lemmas.Grind.{common_steps};
    ghost use Rattle.std.specs.Bool.{nat_eq};
    ghost use Rattle.std.specs.Cmp.Lexicographic.{pointwise};

    ghost eq = { pointwise nat_eq };

    ghost laws = { Prim.search (rules, common_steps) };

    fn eq(&self, other: &Tickets) -> bool {
        self.tickets == other.tickets
    }
}

impl Eq for Tickets {
    ghost use Rattle.std.proofs.lemmas.Cmp.{nat_list_eq_equiv};

    ghost laws = { nat_list_eq_equiv };
}
