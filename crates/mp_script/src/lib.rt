//! Data, scripts, and the values of scripts.
//!
//! A datum and a script are stored as their bytes, which `decode` has checked. So decoding needs few allocations: a
//! later read returns a slice of those bytes, and evaluation takes no memory.
#![tactic(auto)]

mod data;
mod datum_ref;
mod depths;
mod evaluation;
mod fault;
pub mod laws;
mod operator;
mod script;
mod stack;
mod value;
mod view;
mod walk;

pub use data::Data;
pub use datum_ref::DatumRef;
pub use evaluation::eval;
pub use fault::{DataFault, ScriptFault};
pub use mp_bytes::Hash;
pub use script::Script;
pub use value::Value;
pub use view::{Address, Key, PaidTo, Referred, View};
