//! Races: many workers over one scenario, and the one legal history that explains every answer to a change.
#![tactic(auto)]

mod auditing;
mod fault;
mod gate;
mod gathering;
mod history;
mod input;
mod laws;
mod ordering;
pub mod picture;
mod racing;
mod reading;
mod refusals;
mod report;
mod report_text;
mod scenario;
mod stop;
mod task;
mod task_lines;
mod told;
mod worker;

pub use auditing::{audit_history, text_if_legal};
pub use fault::RaceFault;
pub use gate::{Gate, NoGate};
pub use history::RecordedHistory;
pub use input::{MAX_HISTORY_BYTES, read_history_text};
pub use laws::one_worker_runs;
pub use racing::{Raced, race};
pub use report::Report;
pub use scenario::Scenario;
pub use stop::RaceStop;
pub use told::{Refused, Told};
