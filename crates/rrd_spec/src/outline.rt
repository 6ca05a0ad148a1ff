//! The outline of a database.

use crate::{ArchiveList, DsDef, List, RraDef};

/// The last time and the settings of a database.
///
/// The last time and the settings decide which journal entry fits the database.
#[derive(Drop)]
pub struct Outline {
    /// The time of the last sample, or the start, in seconds since 1970.
    pub last: u64,
    /// The settings of the data sources.
    pub sources: List<DsDef>,
    /// The settings of the archives.
    pub archives: ArchiveList<RraDef>,
}
