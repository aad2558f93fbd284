//! What a caller of a shared pool holds, and what reads the pool without its lock.

mod early;
mod pass;
mod reader;
mod receipt;
mod snapshot_for;

pub use pass::Pass;
pub use reader::Reader;
pub use receipt::Receipt;
pub use snapshot_for::SnapshotFor;
