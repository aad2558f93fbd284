//! Ed25519 signatures (RFC 8032): whether one is good.
#![tactic(auto)]

mod base;
mod decoding;
mod equation;
mod field_element;
pub mod laws;
mod multiples;
mod number;
mod point;
mod power;
mod scalar;
mod small_order;
mod wide_element;

pub use base::Base;
