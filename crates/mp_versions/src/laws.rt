//! What holds of versions, of reading items, and of offers and blocks. Except `chunk`, the laws are contracts of functions that do
//! nothing.

ghost use Rattle.std.specs.Prelude.{◌≡◌, ◌≤◌, ℕ, List, length, slice_get, option_map, All, flat_map};
ghost use Rattle.mp_tx.specs.Transaction.{Transaction};
ghost use Rattle.mp_rules.specs.Verifier.{Accepts};
ghost use Rattle.mp_tickets.specs.Tickets.{after};
ghost use Rattle.mp_seqpool.specs.Item.{items_of};
ghost use Rattle.mp_seqpool.specs.Reading.{within, offer};
ghost use Rattle.mp_history.specs.Log.{Log, IsLegalLog, state_after};
ghost use Rattle.mp_versions.specs.Reading.{IsLongestWithin};
ghost use Rattle.mp_versions.specs.Offers.{Offer, Turn, IsLongestOffer, AreOffersOf, AreTurns};
ghost use Rattle.mp_versions.specs.Offers.{IsEachOfferedOnce, IsEachOfferedAfter, IsOfferedOnceInAll};
ghost use Rattle.mp_versions.specs.Blocks.{IsValidBlock};

use crate::layout::chunk_at;
use crate::version::Version;
use mp_seqpool::Item;

/// The chunk at this index, from 0, of the chunks that make up the version's items. Joined in order they are its items, and each
/// has 1 to 64. Versions share the chunks that don't change between them.
pub fn chunk(version: &Version, place: usize) -> Option<&[Item]>
    ensures which { option_map (λ c. items_of c.now) result ≡ slice_get version.now.chunks place }
    ensures joined { flat_map (λ c. c) version.now.chunks ≡ version.now.pool.items }
    ensures least { All (λ c. 1 ≤ length c) version.now.chunks }
    ensures most { All (λ c. length c ≤ 64) version.now.chunks }
{
    chunk_at(&version.layout, place)
}

/// What is read within a number of bytes is the longest prefix with at most that many bytes.
pub fn longest_within()
    ensures { (bytes : ℕ) (items : List (ℕ × Transaction))
        → IsLongestWithin bytes items (within bytes items) }
{}

/// An offer is the longest prefix of what comes after the cursor, within the limits of items and bytes.
pub fn longest_offer()
    ensures { (cursor count bytes : ℕ) (items : List (ℕ × Transaction))
        → IsLongestOffer count bytes (after items cursor) (offer cursor count bytes items) }
{}

/// A reader that reads one pool offers no ticket twice: tickets are strictly increasing over all offers, whichever snapshots are
/// read. And it leaves nothing out: what the pool holds up to the cursor, now or later, was offered.
pub fn offers()
    ensures { (accepts : Accepts) (callers : ℕ) (offers : List Offer) (log : Log)
        → IsLegalLog accepts callers log → AreOffersOf log offers
        → IsEachOfferedOnce accepts offers log }
{}

/// The same for a reader that began after the ticket `start`, whatever that is: it offers what the pool holds above it, once.
pub fn offers_after()
    ensures { (accepts : Accepts) (callers start : ℕ) (offers : List Offer) (log : Log)
        → IsLegalLog accepts callers log → AreOffersOf log offers
        → IsEachOfferedAfter accepts start offers log }
{}

/// However often the pool hands over, a reader that continues after the previous cursor offers no ticket twice and leaves nothing
/// out.
pub fn offers_in_all()
    ensures { (accepts : Accepts) (callers : ℕ) (offers : List Offer) (log : Log)
        → (turns : List Turn) → IsLegalLog accepts callers log → AreOffersOf log offers
        → AreTurns accepts log turns → IsOfferedOnceInAll accepts offers log turns }
{}

/// The transactions of a block are valid one after the other on the ledger state that the pool has adopted.
pub fn blocks()
    ensures { (accepts : Accepts) (callers bytes : ℕ) (log : Log) → IsLegalLog accepts callers log
        → IsValidBlock accepts (state_after accepts log)
        (within bytes (state_after accepts log).items) }
{}
