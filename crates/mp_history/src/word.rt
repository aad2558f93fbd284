//! The word that the callers of a pool share, and the right to append to its history.

mod caller;
mod commit_right;
mod front;
mod history;
mod new_name;
mod pool_name;
mod rule;

pub use caller::Caller;
pub use commit_right::CommitRight;
pub use front::{Front, look};
pub use history::History;
pub use new_name::NewName;
pub use pool_name::PoolName;
