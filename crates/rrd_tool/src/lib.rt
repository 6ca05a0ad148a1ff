//! Commands on a database: parses words, runs the command, and prints its output. `tests_of_database/src/examples.rt`
//! shows how to call the crate.
#![tactic(auto)]

mod arguments;
mod batch;
mod changed_by;
mod commands;
mod execution;
mod faults;
mod fields;
mod lines;
mod observer;
mod refusals;
mod words;

pub use batch::{BatchEnd, StreamFault, run_batch};
pub use changed_by::ChangedBy;
pub use commands::{Command, choose_rows, read_command};
pub use execution::{Outcome, execute};
pub use faults::{Fault, LineFault, Part, write_error, write_fault};
pub use observer::{Observer, Unobserved};
pub use words::{Words, begins_with_minus};
