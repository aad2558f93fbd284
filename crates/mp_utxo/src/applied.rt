//! The applied transactions. Each keeps its place, which is its index in the list.

ghost use Rattle.std.specs.Prelude.{◌≡◌, ◌<◌, None, set, slice_get, option_map, option_copied, vec_len};
ghost use Rattle.mp_utxo.specs.Inside.Applied.{output_at, places, slots};

use mp_memory::Memory;
use mp_tx::{Output, Tx};
use std::sync::Arc;

/// An applied transaction, or the vacant place of one that was taken out, so that the others keep theirs.
#[derive(Drop)]
pub struct Applied {
    pub ticket: u64,
    pub tx: Option<Arc<Tx, Memory>>,
}

/// The output with this index of the transaction at the place.
pub fn output_at(applied: &[Applied], place: usize, index: u16) -> Option<&Output>
    ensures { option_copied result ≡ output_at applied.now place index }
{
    match &applied.get(place)?.tx {
        Some(maker) => maker.outputs().get(index as usize),
        None => None,
    }
}

/// The ticket of the transaction at the place.
pub fn ticket_at(applied: &[Applied], place: usize) -> Option<u64>
    ensures { result ≡ option_map (λ a. a.ticket) (slice_get applied.now place) }
{
    Some(applied.get(place)?.ticket)
}

/// Takes out the transaction at the place, which is left vacant.
pub fn vacate(applied: &mut Vec<Applied, Memory>, place: usize)
    requires { place < vec_len applied.old }
    ensures places { places applied.new.items ≡ set (places applied.old.items) place None }
    ensures slots { slots applied.new.items ≡ set (slots applied.old.items) place None }
{
    let ticket = applied[place].ticket;
    applied[place] = Applied { ticket, tx: None };
}

/// Whether enough places are vacant that it pays to build a new overlay of the remaining transactions.
pub fn is_sparse(vacant: usize, places: usize) -> bool {
    vacant > 64 && vacant > places / 2
}
