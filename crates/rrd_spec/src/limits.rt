//! The maximum of each setting of a database. A minimum that is not named here is 1.

/// The maximum step, in seconds (rrdcreate, "--step").
pub const MAX_STEP_SECONDS: u64 = 1_000_000;

/// The maximum time of a start, a sample and a fetch, in seconds since 1970.
///
/// The minimum is 0. The times are those of rrdcreate, "--start", rrdupdate and rrdfetch.
pub const MAX_TIME: u64 = 9_999_999_999;

/// The maximum number of changes that can be reverted.
pub const MAX_JOURNAL_DEPTH: u64 = 100_000;

/// The maximum number of data sources of a database (rrdcreate, "DS").
pub const MAX_SOURCES: usize = 64;

/// The maximum number of archives of a database (rrdcreate, "RRA").
pub const MAX_ARCHIVES: usize = 128;

/// The maximum number of cells of a database.
///
/// The cells of a database are its data sources times the rows of all archives.
pub const MAX_CELLS: u64 = 8_000_000;

/// The maximum heartbeat of a data source, in seconds (rrdcreate, "DS").
pub const MAX_HEARTBEAT: u64 = 9_999_999_999;

/// The maximum size of a data source's bounds, in millionths, whatever their sign.
///
/// The value is (2^64 - 1) * 10^6 (rrdcreate, "DS").
pub const MAX_BOUND: u128 = 18_446_744_073_709_551_615_000_000;

/// The maximum share of a row's steps that may be unknown, in millionths: below 1.
///
/// The minimum is 0 (rrdcreate, "RRA").
pub const MAX_XFF: i128 = 999_999;

/// The maximum number of steps in a row (rrdcreate, "RRA").
pub const MAX_STEPS_PER_ROW: u64 = 1_000_000;

/// The maximum number of rows of an archive (rrdcreate, "RRA"; rrdresize).
pub const MAX_ROWS: u64 = 1_000_000;

/// The maximum number of rows that one fetch reads (rrdfetch). The minimum is 0.
pub const MAX_SPAN: u64 = 1_000_000;

/// The maximum number of data sources that one tune names: one for each option (rrdtune).
pub const MAX_TUNED: usize = 5;
