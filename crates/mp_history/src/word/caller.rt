//! The callers that may commit.
ghost use Rattle.std.specs.Prelude.{◌≡◌, ◌<◌, IfOk, Some};
ghost use Rattle.mp_history.specs.Caller.{new_callers};
ghost use Rattle.mp_seqpool.specs.Inside.Command.{command_of};

use crate::entry::Entry;
use crate::word::pool_name::PoolName;
use mp_memory::{Memory, NoMemory};
use mp_seqpool::{Command, Reply};
use std::marker::{Model, PhantomData};

/// The token of one caller of the pool. Contracts see the caller's number, and the place of its last entry. The tokens
/// come with the pool's history, one for each number. A token can't be cloned, and nothing else makes one. Only
/// `History::commit` changes it.
#[derive(Drop)]
pub struct Caller<N: PoolName> {
    number: u32,
    last: Option<u64>,
    of: PhantomData<N>,
}

impl<N: PoolName> Model for Caller<N> {
    ghost use Rattle.std.specs.Prelude.{◌<◌};
    ghost use Rattle.std.specs.Coded.{codes};
    ghost use Rattle.std.specs.FinMap as finite;
    ghost use Rattle.mp_history.specs.Caller as told;

    ghost Value = { told.Caller };

    ghost coded = { Prim.hlevel (codes, finite.code) };

    ghost view = { λ c. record { number = c.number; last = c.last } };

    ghost invariant = { λ c. c.number < N.callers };
}

impl<N: PoolName> Caller<N> {
    /// The tokens of all callers, in order. None has made an entry.
    pub(crate) fn all(memory: Memory, callers: u32) -> Result<Vec<Caller<N>, Memory>, NoMemory>
        requires { callers ≡ N.callers }
        ensures { IfOk result (λ tokens. tokens.items ≡ new_callers callers) }
    {
        let mut tokens = Vec::with_capacity(memory, callers as usize)?;
        for number in 0..callers {
            tokens.push(Caller {
                number,
                last: None,
                of: PhantomData,
            })?;
        }
        Ok(tokens)
    }

    /// Its number, below the number of callers.
    pub fn number(&self) -> u32
        ensures number { result ≡ self.now.number }
        ensures known { self.now.number < N.callers }
    {
        self.number
    }

    /// The place of its last entry, if it has made one.
    pub fn last_place(&self) -> Option<u64>
        ensures { result ≡ self.now.last }
    {
        self.last
    }

    /// Records that it made the entry at this place.
    pub(crate) fn made(&mut self, place: u64)
        ensures { self.new ≡ record self.old { last = Some place } }
    {
        self.last = Some(place);
    }

    /// The entry for a command of this caller and the pool's reply.
    pub fn entry(&self, command: Command, reply: Reply) -> Entry
        ensures caller { result.caller ≡ self.now.number }
        ensures command { result.command ≡ command_of command }
        ensures reply { result.reply ≡ reply }
    {
        Entry {
            caller: self.number,
            command,
            reply,
        }
    }
}
