//! Archives, and the rows that archives dropped.
//!
//! An archive has the consolidated rows of a round-robin database: each new row replaces the oldest. Contracts see a
//! list of rows, oldest first; each row is a list of cells.
#![tactic(auto)]

mod archive;
mod dropped;
mod ring;
mod table;
mod unwritten;

pub use archive::Archive;
pub use dropped::{Dropped, DroppedCells, PLACES};
pub use ring::are_unknown;
pub use table::Table;
