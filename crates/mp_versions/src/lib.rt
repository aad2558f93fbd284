//! Versions of a pool, which never change, and what is made from their snapshots: offers to a peer, and blocks. Each version shares
//! nearly everything with the versions before it.
#![tactic(auto)]

mod block;
mod board;
mod boards;
mod chunk;
mod first_items;
mod items;
mod kept_items;
pub mod laws;
pub mod layout;
mod page;
mod pages;
mod peer_reader;
mod publisher;
mod run;
mod run_back;
mod shown;
mod snapshot;
mod subscriber;
mod version;

pub use block::{Block, forge};
pub use boards::Boards;
pub use chunk::Chunk;
pub use items::Items;
pub use kept_items::{KeptItems, keep_valid};
pub use layout::Layout;
pub use mp_seqpool::Item;
pub use page::Page;
pub use pages::Pages;
pub use peer_reader::PeerReader;
pub use publisher::Publisher;
pub use run::{Run, RunWithin};
pub use run_back::RunBack;
pub use shown::Shown;
pub use snapshot::Snapshot;
pub use subscriber::Subscriber;
pub use version::Version;
