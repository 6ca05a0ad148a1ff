//! The request for a new database.
use crate::{DsDef, List, RraDef};

/// The settings of a new database (rrdcreate).
#[derive(Drop)]
pub struct CreateSpec {
    /// The step, in seconds: 1 to 1,000,000.
    pub step: u64,
    /// The time before the first second that is recorded.
    ///
    /// The time is in seconds since 1970: 0 to 9,999,999,999.
    pub start: u64,
    /// The number of changes that can be reverted: 1 to 100,000.
    pub depth: u64,
    /// The data sources, 1 to 64, numbered from 0.
    pub sources: List<DsDef>,
    /// The archives, 1 to 128, numbered from 0.
    pub archives: List<RraDef>,
}
