//! How to go back to former ledger states.

ghost use Rattle.std.specs.Prelude.{◌≡◌, IfOk};
ghost use Rattle.mp_serve.specs.Inside.Former.{CanGoBack, CanAllGoBack, state_before, earliest};

use mp_memory::{Memory, NoMemory};
use mp_tx::{Ledger, Undo};

/// How to go back to the previous ledger state.
#[derive(Drop)]
pub enum Former {
    /// Undo the changes of a block.
    Block(Undo),
    /// Use the stored ledger state.
    Whole(Ledger),
}

/// How to go back to each ledger state that a pool had, oldest first.
pub type Formers = Vec<Former, Memory>;

fn state_before(memory: Memory, now: &Ledger, former: &Former) -> Result<Ledger, NoMemory>
    requires { CanGoBack now.now former.now }
    ensures { IfOk result (λ l. l ≡ state_before now.now former.now) }
{
    match former {
        Former::Block(undo) => undo.apply(memory, now),
        Former::Whole(ledger) => ledger.share(),
    }
}

/// The first of the ledger states that lead to this one. The cost is proportional to the changes of their blocks.
pub fn earliest(memory: Memory, formers: &[Former], now: &Ledger) -> Result<Ledger, NoMemory>
    requires { CanAllGoBack formers.now now.now }
    ensures { IfOk result (λ l. l ≡ earliest formers.now now.now) }
{
    let mut rest = formers;
    let mut ledger = now.share()?;
    while let Some((last, others)) = rest.split_last() {
        ledger = state_before(memory, &ledger, last)?;
        rest = others;
    }
    Ok(ledger)
}
