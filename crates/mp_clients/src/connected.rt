//! A conversation and its device.

use crate::conversation::Conversation;
use mp_history::PoolName;
use mp_memory::Memory;
use mp_serve::Device;

/// A conversation that goes on, its device, and the line that was read already, if there is one.
#[derive(Drop)]
pub struct Connected<N: PoolName, D: Device> {
    pub conversation: Conversation<N>,
    pub device: D,
    pub line: Option<Vec<u8, Memory>>,
}
