//! An offer and a block with each allocation failing.
use crate::peers::seen::{owners, see_block, see_offer};
use mp_history::PoolName;
use mp_mempool::Pass;
use mp_testing::commands::Samples;
use mp_testing::{Call, Seen, under_each_refusal};
use mp_versions::PeerReader;

/// The call that is tried.
#[derive(Clone, Copy)]
pub enum Trial {
    /// An offer of at most this many items, with at most this many bytes, to a new peer.
    Offer(u64, u64),
    /// A block of at most this many bytes.
    Block(u64),
}

#[derive(Drop)]
struct Trying<'a, N: PoolName> {
    samples: &'a Samples,
    pass: &'a Pass<N>,
    trial: Trial,
}

impl<N: PoolName> Call for Trying<'_, N> {
    type Value = PeerReader;

    fn make(&self) -> Option<PeerReader> {
        Some(PeerReader::new())
    }

    fn call(&self, reader: &mut PeerReader) -> Option<Seen> {
        let snapshot = self.pass.snapshot();
        match self.trial {
            Trial::Offer(count, bytes) => see_offer(self.samples, reader, &snapshot, count, bytes),
            Trial::Block(bytes) => see_block(self.samples, &snapshot, bytes),
        }
    }

    fn look(&self, reader: &PeerReader) -> Seen {
        [reader.cursor(), owners(self.samples), 0, 0, 0, 0]
    }
}

/// The answer of the call, with the number of its allocations as the last number. Returns `None` unless after each
/// failure the cursor was as before, and the same call was then answered.
pub fn try_call<N: PoolName>(samples: &Samples, pass: &Pass<N>, trial: Trial) -> Option<Seen> {
    let trying = Trying {
        samples,
        pass,
        trial,
    };
    let Ok(done) = under_each_refusal(&samples.memory, &trying) else {
        return None;
    };
    let [tickets, places, shared, fourth, fifth, _] = done.answer;
    Some([tickets, places, shared, fourth, fifth, done.growths])
}
