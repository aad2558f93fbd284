//! Ledger states that a pool adopts one after the other, and to which it can return.

ghost use Rattle.std.specs.Prelude.{◌≡◌, ◌≤◌, ◌-◌, [], ◌∷◌, ◌++◌, length, take, drop, IfOk, OnOk, OnErr};
ghost use Rattle.mp_seqpool.specs.Command.{Sync};
ghost use Rattle.mp_seqpool.specs.SlowPool.{answer, next};
ghost use Rattle.mp_answers.specs.AnswerText.{answer_text};
ghost use Rattle.mp_signatures.specs.Scheme.{accepted_by};
ghost use Rattle.mp_serve.specs.ServedPool.{latest};
ghost use Rattle.mp_serve.specs.Request.{counted_anew};
ghost use Rattle.mp_serve.specs.Inside.Former.{LeadsBack, CanAllGoBack, states_of, earliest};
ghost use Rattle.mp_serve.specs.Inside.Pool.{IsReady};

use crate::former::{Former, Formers, earliest};
use crate::obeying::obey;
use mp_memory::{Memory, NoMemory};
use mp_names::Names;
use mp_seqpool::{Command, SeqPool};
use mp_signatures::Signatures;
use mp_text::Text;
use mp_tx::Ledger;

// How many former ledger states are kept.
const MAX_FORMER: usize = 2160;

// Removes the oldest if there is one too many.
fn keep_latest(formers: &mut Formers)
    requires { length formers.old.items ≤ 2161 }
    ensures latest { formers.new.items ≡ latest formers.old.items }
    ensures few { length formers.new.items ≤ 2160 }
{
    if formers.len() > MAX_FORMER {
        let _ = formers.remove(0);
    }
}

/// Makes the pool adopt a new ledger state, and keeps how to go back to the one that it had.
pub fn go_on(
    memory: Memory,
    names: &Names,
    signatures: &Signatures,
    pool: &mut SeqPool,
    formers: &mut Formers,
    ledger: Ledger,
    former: Former,
) -> Result<Text, NoMemory>
    requires ready { IsReady (accepted_by signatures.now) pool.old.pool }
    requires few { length formers.old.items ≤ 2160 }
    requires can { CanAllGoBack formers.old.items pool.old.pool.ledger }
    requires before { LeadsBack ledger former pool.old.pool.ledger }
    ensures pool { OnOk result (pool.new.pool
        ≡ counted_anew (next (accepted_by signatures.now) pool.old.pool (Sync ledger))) }
    ensures formers { OnOk result (states_of formers.new.items pool.new.pool.ledger
        ≡ latest (states_of formers.old.items pool.old.pool.ledger ++ pool.old.pool.ledger ∷ [])) }
    ensures text { IfOk result (λ text. text.items
        ≡ answer_text names.now (answer (accepted_by signatures.now) pool.old.pool (Sync ledger))) }
    ensures err { OnErr result
        ((pool.new.pool ≡ pool.old.pool) × (formers.new.items ≡ formers.old.items)) }
    ensures ready { IsReady (accepted_by signatures.now) pool.new.pool }
    ensures few { length formers.new.items ≤ 2160 }
    ensures can { CanAllGoBack formers.new.items pool.new.pool.ledger }
{
    formers.push(former)?;
    match obey(memory, names, signatures, pool, &Command::Sync(ledger)) {
        Ok((text, _)) => {
            keep_latest(formers);
            Ok(text)
        }
        Err(NoMemory) => {
            let _ = formers.pop();
            Err(NoMemory)
        }
    }
}

/// Makes the pool adopt the ledger state after the first `left` former ones. Those stay.
pub fn go_back(
    memory: Memory,
    names: &Names,
    signatures: &Signatures,
    pool: &mut SeqPool,
    formers: &mut Formers,
    left: usize,
) -> Result<Text, NoMemory>
    requires ready { IsReady (accepted_by signatures.now) pool.old.pool }
    requires left { left ≤ length formers.old.items }
    requires can { CanAllGoBack formers.old.items pool.old.pool.ledger }
    ensures pool { OnOk result (pool.new.pool
        ≡ counted_anew (next (accepted_by signatures.now) pool.old.pool
        (Sync (earliest (drop left formers.old.items) pool.old.pool.ledger)))) }
    ensures formers { OnOk result (states_of formers.new.items pool.new.pool.ledger
        ≡ take left (states_of formers.old.items pool.old.pool.ledger)) }
    ensures text { IfOk result (λ text. text.items ≡ answer_text names.now
        (answer (accepted_by signatures.now) pool.old.pool
        (Sync (earliest (drop left formers.old.items) pool.old.pool.ledger)))) }
    ensures err { OnErr result
        ((pool.new.pool ≡ pool.old.pool) × (formers.new.items ≡ formers.old.items)) }
    ensures ready { IsReady (accepted_by signatures.now) pool.new.pool }
    ensures few { length formers.new.items ≤ length formers.old.items }
    ensures can { CanAllGoBack formers.new.items pool.new.pool.ledger }
{
    let ledger = earliest(memory, &formers[left..], pool.ledger())?;
    let (text, _) = obey(memory, names, signatures, pool, &Command::Sync(ledger))?;
    formers.truncate(left);
    Ok(text)
}
