//! What a shared pool's lock guards, and the steps of a change. The thread that holds the lock has exclusive access.

mod locked;
mod ready;

pub use locked::Locked;
pub use ready::{Outcome, Owners, Ready};
