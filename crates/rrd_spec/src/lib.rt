//! The definition of a round-robin database.
//!
//! The crate has the types of requests and refusals, the definitions, which look at every second and every row by
//! themselves, and the theorems on the definitions.
#![tactic(auto)]

mod archive_list;
mod due;
mod entry;
pub mod laws;
pub mod limits;
mod list;
mod outline;
mod refusal;
mod requests;
mod settings;
mod slots;
mod version;

pub use archive_list::ArchiveList;
pub use due::Due;
pub use entry::SavedSource;
pub use list::List;
pub use outline::Outline;
pub use refusal::Refusal;
pub use requests::{
    ArchiveTune, Candidate, Change, Chosen, CreateSpec, FetchRequest, Given, Receipt, Sample,
    Tuning, Update,
};
pub use settings::{DsDef, RraDef};
pub use slots::first_slot_row;
pub use version::Version;
