//! Adopting ledger states.

ghost use Rattle.std.specs.Prelude.{◌≡◌, ◌≤◌, [], ◌∷◌, ◌++◌, take, drop, length, IfOk, IfErr, OnErr};
ghost use Rattle.mp_seqpool.specs.Command.{Sync};
ghost use Rattle.mp_serve.specs.ServedPool.{latest};
ghost use Rattle.mp_serve.specs.Inside.Former.{LeadsBack, CanAllGoBack, states_of, earliest};
ghost use Rattle.mp_clients.specs.Answers.{IsAnswerTo};
ghost use Rattle.mp_clients.specs.Inside.Asked.{answer_in, if_made, IsBefore};

use crate::asking::{Asked, ask_pool};
use crate::former::keep_latest;
use crate::stop::ClientStop;
use mp_history::PoolName;
use mp_mempool::{Mempool, Pass};
use mp_rules::Verifier;
use mp_seqpool::Command;
use mp_serve::{Former, Formers};
use mp_tx::Ledger;
use std::sync::Wait;

/// Adopts a new ledger state, and keeps how to go back to the one before it.
pub fn go_on<N: PoolName, V: Verifier>(
    rt: &impl Wait,
    pool: &Mempool<N, V>,
    pass: &mut Pass<N>,
    formers: &mut Formers,
    now: &mut Ledger,
    ledger: Ledger,
    former: Former,
) -> Result<Asked, ClientStop>
    requires few { length formers.old.items ≤ 2160 }
    requires can { CanAllGoBack formers.old.items now.old }
    requires back { LeadsBack ledger former now.old }
    ensures ok { IfOk result (λ asked. IsAnswerTo N.accepts N.callers
        pass.old (Sync ledger) (answer_in asked) pass.new) }
    ensures formers { IfOk result (λ asked. states_of formers.new.items now.new
        ≡ if_made (answer_in asked) (latest (states_of formers.old.items now.old ++ now.old ∷ []))
        (states_of formers.old.items now.old)) }
    ensures now { IfOk result (λ asked. now.new ≡ if_made (answer_in asked) ledger now.old) }
    ensures err { OnErr result (pass.new ≡ pass.old) }
    ensures kept { OnErr result (formers.new.items ≡ formers.old.items) }
    ensures same { OnErr result (now.new ≡ now.old) }
    ensures before { IfErr result IsBefore }
    ensures few { length formers.new.items ≤ 2160 }
    ensures can { CanAllGoBack formers.new.items now.new }
{
    let command = Command::Sync(ledger.share()?);
    formers.reserve(1)?;
    match ask_pool(rt, pool, pass, &command) {
        Ok(Ok(receipt)) => {
            formers.push_reserved(former);
            keep_latest(formers);
            *now = ledger;
            Ok(Ok(receipt))
        }
        Ok(Err(refusal)) => Ok(Err(refusal)),
        Err(stop) => Err(stop),
    }
}

/// Adopts the ledger state after the first `left` former ones. Those stay.
pub fn go_back<N: PoolName, V: Verifier>(
    rt: &impl Wait,
    pool: &Mempool<N, V>,
    pass: &mut Pass<N>,
    formers: &mut Formers,
    now: &mut Ledger,
    left: usize,
    ledger: Ledger,
) -> Result<Asked, ClientStop>
    requires left { left ≤ length formers.old.items }
    requires can { CanAllGoBack formers.old.items now.old }
    requires back { ledger ≡ earliest (drop left formers.old.items) now.old }
    ensures ok { IfOk result (λ asked. IsAnswerTo N.accepts N.callers
        pass.old (Sync ledger) (answer_in asked) pass.new) }
    ensures formers { IfOk result (λ asked. states_of formers.new.items now.new
        ≡ if_made (answer_in asked) (take left (states_of formers.old.items now.old))
        (states_of formers.old.items now.old)) }
    ensures now { IfOk result (λ asked. now.new ≡ if_made (answer_in asked) ledger now.old) }
    ensures err { OnErr result (pass.new ≡ pass.old) }
    ensures kept { OnErr result (formers.new.items ≡ formers.old.items) }
    ensures same { OnErr result (now.new ≡ now.old) }
    ensures before { IfErr result IsBefore }
    ensures few { length formers.new.items ≤ length formers.old.items }
    ensures can { CanAllGoBack formers.new.items now.new }
{
    let command = Command::Sync(ledger.share()?);
    match ask_pool(rt, pool, pass, &command) {
        Ok(Ok(receipt)) => {
            formers.truncate(left);
            *now = ledger;
            Ok(Ok(receipt))
        }
        Ok(Err(refusal)) => Ok(Err(refusal)),
        Err(stop) => Err(stop),
    }
}
