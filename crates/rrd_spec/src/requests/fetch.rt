//! The request of a fetch, and the rows that the fetch reads.
use rrd_fold::Function;

/// The request of a fetch (rrdfetch).
#[derive(Clone, Copy, Debug)]
pub struct FetchRequest {
    /// The consolidation function of the archives that the fetch may read.
    pub function: Function,
    /// The requested resolution, in seconds per row.
    pub asked: u64,
    /// The time from which rows are requested, in seconds since 1970: 0 to 9,999,999,999.
    pub start: u64,
    /// The time up to which rows are requested, in seconds since 1970: `start` to 9,999,999,999.
    pub end: u64,
}

/// The rows of an archive that a fetch reads.
///
/// The rows that a fetch reads: those at the multiples of `res` after `lo`, up to `hi`.
#[derive(Clone, Copy, Debug, PartialEq, Eq)]
pub struct Chosen {
    /// The number of the archive.
    pub archive: u64,
    /// The resolution, in seconds per row.
    pub res: u64,
    /// The start, in seconds since 1970, rounded down to a multiple of `res`.
    pub lo: u64,
    /// The first multiple of `res` after the end, in seconds since 1970.
    pub hi: u64,
}

/// An archive that a fetch may read.
#[derive(Clone, Copy, Debug)]
pub struct Candidate {
    /// The number of the archive.
    pub archive: u64,
    /// The resolution, in seconds per row.
    pub resolution: u64,
    /// The time after which all rows end, in seconds since 1970; negative before 1970.
    pub reach: i64,
}
