//! Texts in memory.

use mp_memory::Memory;

/// The bytes of a text.
pub type Text = Vec<u8, Memory>;
