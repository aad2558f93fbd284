//! Prepared steps.

ghost use Rattle.std.specs.Prelude.{◌≡◌, IfOk};
ghost use Rattle.mp_seqpool.specs.Prepared.{Keep};
ghost use Rattle.mp_seqpool.specs.Inside.Effect.{effect_of, IsOfOne};

use crate::command::{Command, Reply};
use crate::validated_tx::ValidatedTx;
use mp_memory::{Memory, NoMemory};
use mp_tickets::{Node, Tickets};
use mp_tx::{Ledger, Tx};
use mp_utxo::Overlay;
use std::marker::Model;
use std::sync::Arc;

/// What a step does to the pool.
#[derive(Drop)]
pub enum Effect {
    /// The item becomes the last one, and its transaction is applied.
    Append(Node<ValidatedTx>, Arc<Tx, Memory>),
    /// Those with these tickets stay, and the overlay has applied exactly these. The overlay has a block of its own,
    /// since a step that is moved would be large with it.
    Keep(Box<Overlay, Memory>, Tickets),
    /// Those with these tickets go, and nothing else.
    TakeOut(Tickets),
    /// Those with these tickets go, and no others depend on them. The others stay, on this ledger state.
    Adopt(Ledger, Tickets),
}

/// The effect of a step after which those with these tickets stay, which are all that the overlay has applied.
pub fn keep_effect(memory: Memory, overlay: Overlay, kept: Tickets) -> Result<Effect, NoMemory>
    ensures effect { IfOk result (λ e. effect_of e ≡ Keep overlay kept) }
    ensures one { IfOk result IsOfOne }
{
    Ok(Effect::Keep(Box::new(memory, overlay)?, kept))
}

/// A prepared step of the pool: nothing can refuse it any more, and it has the memory that it needs. `SeqPool::finish`
/// executes it. If it is dropped instead, nothing has happened.
pub struct Prepared {
    pub(crate) command: Command,
    pub(crate) reply: Reply,
    pub(crate) effect: Effect,
}

impl Drop for Prepared {
    fn drop(self) {
        let Prepared {
            command: _,
            reply: _,
            effect: _,
        } = self;
    }
}

impl Model for Prepared {
    ghost use Rattle.std.specs.Coded.{codes};
    ghost use Rattle.std.specs.FinMap as finite;
    ghost use Rattle.mp_seqpool.specs.Prepared as told;

    ghost Value = { told.Prepared };

    ghost coded = { Prim.hlevel (codes, finite.code) };

    ghost use Rattle.mp_seqpool.specs.Inside.Effect.{prepared, IsOfOne};

    ghost view = { prepared };

    ghost invariant = { λ q. IsOfOne q.effect };
}

impl Prepared {
    ghost use Rattle.std.specs.Prelude.{◌≡◌};
    ghost use Rattle.mp_seqpool.specs.Inside.Command.{command_of};
    ghost use Rattle.mp_seqpool.specs.Inside.Effect.{effect_of, IsOfOne};

    // Its reply and its effect.
    pub(crate) fn into_parts(self) -> (Reply, Effect)
        ensures reply { result.0 ≡ self.reply }
        ensures effect { effect_of result.1 ≡ self.effect }
        ensures one { IsOfOne result.1 }
    {
        let Prepared {
            command: _,
            reply,
            effect,
        } = self;
        (reply, effect)
    }

    /// Its command.
    pub fn command(&self) -> &Command
        ensures { command_of result.now ≡ self.now.command }
    {
        &self.command
    }

    /// The reply that `finish` will return.
    pub fn reply(&self) -> &Reply
        ensures { result.now ≡ self.now.reply }
    {
        &self.reply
    }
}
