//! What may occur at most once.

ghost use Rattle.std.specs.Prelude.{◌≡◌, None, Some, OnOk, OnErr};
ghost use Rattle.mp_names.specs.Fault.{IsBad};
ghost use Rattle.mp_names.specs.Once.{set_once};

use crate::fault::LineFault;
use crate::reason::Reason;

/// Sets a value that isn't set yet. If it is set, it stays as it is, and this is `Bad` for the given reason.
pub fn set_once<'a, T: Drop>(
    set: &mut Option<T>,
    value: T,
    reason: Reason<'a>,
) -> Result<(), LineFault<'a>>
    ensures ok { OnOk result (set_once set.old value ≡ Some set.new) }
    ensures bad { IsBad result → set_once set.old value ≡ None }
    ensures err { OnErr result (set.new ≡ set.old) }
{
    if set.is_some() {
        return Err(LineFault::Bad(reason));
    }
    *set = Some(value);
    Ok(())
}
