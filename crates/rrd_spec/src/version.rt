//! The versions of the file layout, and the limits in which they differ.
ghost use Rattle.std.specs.Prelude.{◌≡◌, ◌≤◌};
ghost use Rattle.rrd_spec.specs.Words.{max_journal_depth_of, max_archives_of, max_cells_of, present, allows_archive_changes_of};

use crate::limits::{MAX_ARCHIVES, MAX_CELLS, MAX_JOURNAL_DEPTH};

/// A version of the file layout.
///
/// A file must be within the limits of its version. A database, and each file that is written, is within the limits of
/// the newest version.
#[derive(Clone, Copy, Debug, PartialEq, Eq)]
pub enum Version {
    /// The first version, which is only read.
    One,
    /// The newest version.
    Two,
}

impl Version {
    /// Returns the maximum depth of a journal.
    pub fn max_journal_depth(self) -> u64
        ensures value { result ≡ max_journal_depth_of self }
        ensures few { result ≤ present.max_journal_depth }
    {
        match self {
            Version::One => 1_000,
            Version::Two => MAX_JOURNAL_DEPTH,
        }
    }

    /// Returns the maximum number of archives.
    pub fn max_archives(self) -> usize
        ensures value { result ≡ max_archives_of self }
        ensures few { result ≤ present.max_archives }
    {
        match self {
            Version::One => 64,
            Version::Two => MAX_ARCHIVES,
        }
    }

    /// Returns the maximum number of cells: the data sources times the rows of all archives.
    pub fn max_cells(self) -> u64
        ensures value { result ≡ max_cells_of self }
        ensures few { result ≤ present.max_cells }
    {
        match self {
            Version::One => 4_000_000,
            Version::Two => MAX_CELLS,
        }
    }

    /// Returns whether archives may be added and removed, with journal entries for both.
    pub fn allows_archive_changes(self) -> bool
        ensures { result ≡ allows_archive_changes_of self }
    {
        match self {
            Version::One => false,
            Version::Two => true,
        }
    }
}
