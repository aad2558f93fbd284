//! What tests of several crates share: trials with failing allocations, devices that fail, sample transactions, commands for
//! pools, and observed answers. No crate of the product depends on it.
#![tactic(auto)]

mod audited;
pub mod commands;
mod failures;
mod reader;
mod rows;
mod samples;
pub mod told;
mod trial;
mod verifier;
mod writer;

pub use audited::{tell, tell_handover};
pub use failures::{Ending, Failures, fail_each, fail_first};
use mp_seqpool::Config;
pub use reader::FailingReader;
pub use rows::count;
pub use samples::{
    COIN, coin, input, ledger, opening, output, output_of, parts, script, transaction, unit,
};
pub use trial::{Call, MAX_GROWTHS, Refusals, Seen, TrialFault, Trialled, under_each_refusal};
pub use verifier::{ACCEPTS_ALL, AcceptsAll};
pub use writer::FailingWriter;

/// The configuration of the pools.
pub const CONFIG: Config = Config {
    limit: 1_000_000,
    last: 0,
};
