//! The requests that commands make of a database, and the results of some of them.

mod create;
mod fetch;
mod resize;
mod tune;
mod update;

pub use create::CreateSpec;
pub use fetch::{Candidate, Chosen, FetchRequest};
pub use resize::Change;
pub use tune::{ArchiveTune, Tuning};
pub use update::{Given, Receipt, Sample, Update};
