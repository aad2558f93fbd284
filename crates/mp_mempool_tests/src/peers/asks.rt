//! Calls on the pool and on the reader of one peer, as data.
use crate::mempool::ask;
use crate::peers::growths::{Trial, try_call};
use crate::peers::seen::{see_block, see_offer};
use mp_history::PoolName;
use mp_mempool::{Mempool, Pass, Reader};
use mp_testing::commands::Samples;
use mp_testing::{AcceptsAll, Seen};
use mp_versions::PeerReader;
use std::sync::Wait;

/// A call.
#[derive(Clone, Copy)]
pub enum Ask {
    /// Gives the command of the sample.
    Change(usize),
    /// Begins with another peer, which has been offered nothing.
    NewPeer,
    /// Begins with another peer, which continues after the ticket.
    PeerAfter(u64),
    /// At most this many items, with at most this many bytes.
    Offer(u64, u64),
    /// At most this many bytes.
    Forge(u64),
    /// Tries the call with each allocation failing.
    Try(Trial),
}

// The place of the entry.
fn change<N: PoolName>(
    rt: &impl Wait,
    mempool: &Mempool<N, AcceptsAll>,
    pass: &mut Pass<N>,
    samples: &Samples,
    number: usize,
) -> Option<Seen> {
    match ask(rt, mempool, pass, samples.command(number)?) {
        Ok(receipt) => Some([receipt.place, 0, 0, 0, 0, 0]),
        Err(_) => None,
    }
}

fn renew(peer: &mut PeerReader, with: PeerReader) -> Seen {
    *peer = with;
    [peer.cursor(), 0, 0, 0, 0, 0]
}

/// The answer: for a change, the place of its entry. Returns `None` if it is refused.
pub fn make<N: PoolName>(
    rt: &impl Wait,
    mempool: &Mempool<N, AcceptsAll>,
    reader: &Reader<N, AcceptsAll>,
    pass: &mut Pass<N>,
    peer: &mut PeerReader,
    samples: &Samples,
    asked: Ask,
) -> Option<Seen> {
    match asked {
        Ask::Change(number) => change(rt, mempool, pass, samples, number),
        Ask::NewPeer => Some(renew(peer, PeerReader::new())),
        Ask::PeerAfter(ticket) => Some(renew(peer, PeerReader::after(ticket))),
        Ask::Offer(count, bytes) => {
            reader.refresh(pass);
            see_offer(samples, peer, &pass.snapshot(), count, bytes)
        }
        Ask::Forge(bytes) => {
            reader.refresh(pass);
            see_block(samples, &pass.snapshot(), bytes)
        }
        Ask::Try(trial) => try_call(samples, pass, trial),
    }
}
