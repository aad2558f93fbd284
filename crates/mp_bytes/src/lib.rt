//! Bytes: fields at their front, their SHA-256 digest, and bytes that are stored with it.
#![tactic(auto)]

mod fields;
mod hash;
mod hashed_bytes;

pub use fields::{split_array, split_count, split_number, split_run, split_sized, split_unsigned};
pub use hash::{Hash, digest};
pub use hashed_bytes::HashedBytes;
