//! Which items stay.

use mp_tickets::Tickets;
use mp_utxo::Overlay;

/// Which items stay, and which don't.
#[derive(Drop)]
pub struct Kept {
    /// The ledger state with all items applied that were kept, in order.
    pub overlay: Overlay,
    /// The tickets of the items that were kept.
    pub kept: Tickets,
    /// The tickets of the items that were taken out by id.
    pub named: Tickets,
    /// The tickets of the other items, which are no longer valid.
    pub dropped: Tickets,
}
