//! Former ledger states of a conversation.

ghost use Rattle.std.specs.Prelude.{◌≡◌, ◌≤◌, length, IfOk};
ghost use Rattle.mp_serve.specs.ServedPool.{latest, state_back};
ghost use Rattle.mp_serve.specs.Inside.Former.{CanAllGoBack, states_of};

use mp_memory::{Memory, NoMemory};
use mp_serve::{Former, Formers, earliest};
use mp_tx::Ledger;

// How many former ledger states are kept.
const MAX_FORMER: usize = 2160;

/// Removes the oldest if there is one too many.
pub fn keep_latest(formers: &mut Formers)
    requires { length formers.old.items ≤ 2161 }
    ensures latest { formers.new.items ≡ latest formers.old.items }
    ensures few { length formers.new.items ≤ 2160 }
{
    if formers.len() > MAX_FORMER {
        let _ = formers.remove(0);
    }
}

/// The ledger state this many steps ago, if it is kept.
pub fn state_back(
    memory: Memory,
    formers: &[Former],
    now: &Ledger,
    count: usize,
) -> Result<Option<Ledger>, NoMemory>
    requires { CanAllGoBack formers.now now.now }
    ensures { IfOk result (λ l. l ≡ state_back (states_of formers.now now.now) now.now count) }
{
    let kept = formers.len();
    if count > kept {
        return Ok(None);
    }
    let ledger = earliest(memory, &formers[kept - count..], now)?;
    Ok(Some(ledger))
}
