//! The steps of the sequential pool, with their replies and effects.

ghost use Rattle.std.specs.Prelude.{◌≡◌, IfOk};
ghost use Rattle.std.specs.Arc.{arc_value};
ghost use Rattle.mp_seqpool.specs.Command.{Submit, Remove, Sync};
ghost use Rattle.mp_seqpool.specs.Prepared.{Append, Keep, TakeOut, Adopt};
ghost use Rattle.mp_seqpool.specs.declared.command.Reply.TheVariants.{Accepted, Removed, Synced};
ghost use Rattle.mp_seqpool.specs.Inside.Followed.{beyond};

use crate::command::{Command, Reply};
use crate::ids::Ids;
use crate::kept::Kept;
use crate::parting::Parted;
use crate::prepared::{Effect, Prepared, keep_effect};
use crate::validated_tx::ValidatedTx;
use mp_memory::{Memory, NoMemory};
use mp_rules::Resolved;
use mp_tickets::{Tickets, make_node};
use mp_tx::{Ledger, Tx};
use std::sync::Arc;

/// The step that adds the transaction with this ticket.
pub fn append_step(
    memory: Memory,
    tx: &Arc<Tx, Memory>,
    resolved: Resolved,
    ticket: u64,
) -> Result<Prepared, NoMemory>
    ensures command { IfOk result (λ q. q.command ≡ Submit (arc_value tx.now)) }
    ensures reply { IfOk result (λ q. q.reply ≡ Accepted ticket) }
    ensures effect { IfOk result (λ q. q.effect
        ≡ Append (record { tx = arc_value tx.now; resolved = resolved })) }
{
    let asked = Arc::try_clone(tx)?;
    let applied = Arc::try_clone(tx)?;
    let item = ValidatedTx {
        tx: Arc::try_clone(tx)?,
        resolved,
    };
    let Ok(node) = make_node(memory, item) else {
        return Err(NoMemory);
    };
    Ok(Prepared {
        command: Command::Submit(asked),
        reply: Reply::Accepted { ticket },
        effect: Effect::Append(node, applied),
    })
}

/// The step of a sync after which these stay. The reply and the effect have the same tickets.
pub fn sync_step(memory: Memory, adopted: Ledger, left: Kept) -> Result<Prepared, NoMemory>
    ensures command { IfOk result (λ q. q.command ≡ Sync adopted) }
    ensures reply { IfOk result (λ q. q.reply ≡ Synced left.kept left.dropped) }
    ensures effect { IfOk result (λ q. q.effect ≡ Keep left.overlay left.kept) }
{
    let told = left.kept.copy()?;
    let effect = keep_effect(memory, left.overlay, left.kept)?;
    Ok(Prepared {
        command: Command::Sync(adopted),
        reply: Reply::Synced {
            kept: told,
            dropped: left.dropped,
        },
        effect,
    })
}

// Those of the tickets that aren't among the named ones.
fn beyond(memory: Memory, named: &Tickets, gone: &Tickets) -> Result<Tickets, NoMemory>
    ensures { IfOk result (λ rest. rest ≡ beyond named.now gone.now) }
{
    let mut rest = Tickets::new(memory);
    for ticket in gone.as_slice() {
        if !named.contains(*ticket) {
            rest.push(*ticket)?;
        }
    }
    Ok(rest)
}

/// The step of a remove that takes out only the items with these tickets, of which some are named and the others
/// dropped.
pub fn take_out_step(
    memory: Memory,
    asked: Arc<Ids, Memory>,
    named: Tickets,
    gone: Tickets,
) -> Result<Prepared, NoMemory>
    ensures command { IfOk result (λ q. q.command ≡ Remove (arc_value asked)) }
    ensures reply { IfOk result (λ q. q.reply ≡ Removed named (beyond named gone)) }
    ensures effect { IfOk result (λ q. q.effect ≡ TakeOut gone) }
{
    let dropped = beyond(memory, &named, &gone)?;
    Ok(Prepared {
        command: Command::Remove(asked),
        reply: Reply::Removed { named, dropped },
        effect: Effect::TakeOut(gone),
    })
}

/// The step of a sync in which no others depend on those that go, and the others stay as they are. The reply and
/// the effect have the same tickets.
pub fn adopt_step(ledger: &Ledger, parted: Parted) -> Result<Prepared, NoMemory>
    ensures command { IfOk result (λ q. q.command ≡ Sync ledger.now) }
    ensures reply { IfOk result (λ q. q.reply ≡ Synced parted.kept parted.dropped) }
    ensures effect { IfOk result (λ q. q.effect ≡ Adopt ledger.now parted.dropped) }
{
    let asked = ledger.share()?;
    let adopted = ledger.share()?;
    let gone = parted.dropped.copy()?;
    Ok(Prepared {
        command: Command::Sync(asked),
        reply: Reply::Synced {
            kept: parted.kept,
            dropped: parted.dropped,
        },
        effect: Effect::Adopt(adopted, gone),
    })
}
