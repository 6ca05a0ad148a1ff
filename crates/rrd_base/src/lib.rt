//! A round-robin database of many data sources and archives, with a journal that can undo its changes.
//!
//! `tests_of_database/src/examples.rt` has a complete caller.
#![tactic(auto)]

mod archives;
mod cell_run;
mod columns;
mod content;
mod create;
mod database;
mod fetch;
mod journal;
mod named;
mod rebuild;
mod resize;
mod rows;
mod rra;
mod tune;
mod update;
mod walk;

pub use database::{Database, database_is_valid};
pub use journal::{BeforeUpdate, EachSource, Entry, SavedArchive};
pub use rebuild::{EntryValidator, Header, PieceFault, Rebuild, is_bounded};
pub use rra::Rra;
pub use rrd_spec::{
    ArchiveList, ArchiveTune, Change, Chosen, CreateSpec, DsDef, Due, Given, List, Outline,
    Receipt, Refusal, RraDef, Sample, SavedSource, Tuning, Update, Version,
};
