//! References, as words write them.

ghost use Rattle.std.specs.Prelude.{◌≡◌, option_copied, option_and_then};
ghost use Rattle.std.specs.Result.{result_ok};
ghost use Rattle.mp_names.specs.References.{place_of, ref_by, ref_of, output_ref, payment_at, paid_by, paid_at};
ghost use Rattle.mp_names.specs.Names.{tx_named};

use crate::names::{Binding, Names};
use crate::numbers::number_in;
use crate::payment::Payment;
use crate::reason::Reason;
use crate::splitting::split_once;
use mp_tx::OutRef;

const MAX_PLACE: u64 = (1 << 16) - 1;

const DOT: u8 = b'.';

fn place_of(word: &[u8]) -> Result<u16, Reason<'_>>
    ensures { result_ok result ≡ place_of word.now }
{
    let place = number_in(word, 0, MAX_PLACE)?;
    Ok(place as u16)
}

// Output `place` of the transaction with this name.
fn output_ref<'a>(names: &Names, name: &'a [u8], place: &'a [u8]) -> Result<OutRef, Reason<'a>>
    ensures { result_ok result
        ≡ output_ref (tx_named name.now names.now) (place_of place.now) }
{
    let declared = names.tx(name)?;
    let index = place_of(place)?;
    Ok(OutRef {
        id: *declared.tx().id(),
        index,
    })
}

/// The reference that a word is: `TX.K` of a declared transaction, even if it has no such output, or the name of an opening
/// output.
#[tactic(auto, unfolding(crate::specs::References::ref_of))]
pub fn ref_of<'a>(names: &Names, word: &'a [u8]) -> Result<OutRef, Reason<'a>>
    ensures { result_ok result ≡ ref_of names.now word.now }
{
    let (name, place) = split_once(word, DOT);
    match place {
        Some(place) => output_ref(names, name, place),
        None => match names.binding(name) {
            Some(Binding::Opening(reference, _)) => Ok(*reference),
            _ => Err(Reason::NoOutput(word)),
        },
    }
}

fn payment_at<'a>(names: &'a Names, name: &[u8], place: &[u8]) -> Option<&'a Payment>
    ensures { option_copied result
        ≡ payment_at (tx_named name.now names.now) (place_of place.now) }
{
    let declared = names.tx(name).ok()?;
    let place = place_of(place).ok()?;
    declared.payments().get(place as usize)
}

/// The payment of the named output, if that output exists.
#[tactic(auto, unfolding(crate::specs::References::paid_at))]
pub fn paid_at<'a>(names: &'a Names, word: &[u8]) -> Option<&'a Payment>
    ensures { option_copied result ≡ paid_at names.now word.now }
{
    let (name, place) = split_once(word, DOT);
    match place {
        Some(place) => payment_at(names, name, place),
        None => match names.binding(name) {
            Some(Binding::Opening(_, payment)) => Some(payment),
            _ => None,
        },
    }
}
