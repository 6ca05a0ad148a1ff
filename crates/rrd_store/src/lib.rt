//! The tasks of the program: a batch, or one command, on the database in a file.
#![tactic(auto)]

mod differing;
mod encoding;
mod ending;
mod faults;
pub mod laws;
mod loaded;
mod session;
mod single;
mod storage;
mod stored;
mod stored_batch;
mod task;
mod usage;

pub use ending::{report_batch, report_command, report_file_batch};
pub use faults::TaskFault;
pub use loaded::Loaded;
pub use session::Session;
pub use single::run_file_command;
pub use storage::{Access, Storage};
pub use stored::decoded;
pub use stored_batch::{Always, FileBatchEnd, Gate, run_file_batch};
pub use task::{Task, parse_task};
pub use usage::USAGE;
