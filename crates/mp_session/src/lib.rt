//! What lines declare and ask, for scenarios, conversations and races; and runs of scenarios.
#![tactic(auto)]

mod beginning;
mod fault;
mod fault_text;
mod ledgers;
mod pool;
mod request;
mod running;
mod scene;
mod session;
mod settings;
mod stop;

pub use beginning::{Beginning, add_all, put_in};
pub use fault::RunFault;
pub use fault_text::{MANY_LINES_FAULT, NO_MEMORY_FAULT, READ_FAULT, WRITE_FAULT, put_bad_line};
pub use ledgers::{block_bytes_at, ledger_at, make_ledger};
pub use request::Request;
pub use running::{answer_text, run};
pub use session::{Session, Stage};
pub use settings::Settings;
pub use stop::RunStop;
