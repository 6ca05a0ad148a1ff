//! The trait of archives and of the rows that they dropped.
use crate::archive::Archive;
use crate::dropped::Dropped;
use rrd_fixed::StoredCell;

/// Rows of cells, oldest first: those of an archive, or those that an archive dropped.
///
/// There are at most 1,000,000 rows; a cell is in millionths, or unknown.
pub trait Table {
    ghost use Rattle.std.specs.Prelude.{◌≡◌, ◌+◌, ◌<◌, ◌≤◌, List, length, take, drop};
    ghost use Rattle.rrd_fixed.specs.declared.cell.Cell.{Cell};
    ghost use Rattle.rrd_ring.specs.Rows.{row_cells, max_rows};

    // The rows that contracts see.
    ghost table: { Self → List (List Cell) };

    /// Returns the number of rows, at most 1,000,000.
    fn count(&self) -> u64
        ensures count { result ≡ length (table self.now) }
        ensures few { result ≤ max_rows };

    /// Returns the first of `most` rows from row `first` on that are consecutive in memory.
    ///
    /// The result is their number, from 1 to `most`, and their cells, one row after another.
    fn together(&self, first: u64, most: u64) -> (u64, &[StoredCell])
        requires some { 0 < most }
        requires there { first + most ≤ length (table self.now) }
        ensures some { 0 < result.0 }
        ensures few { result.0 ≤ most }
        ensures cells { result.1.now ≡ row_cells (take result.0 (drop first (table self.now))) };
}

impl Table for Archive {
    ghost table = { λ rows. rows };

    fn count(&self) -> u64 {
        self.rows()
    }

    fn together(&self, first: u64, most: u64) -> (u64, &[StoredCell]) {
        self.contiguous_rows(first, most)
    }
}

impl Table for Dropped {
    ghost table = { λ rows. rows };

    fn count(&self) -> u64 {
        self.len()
    }

    fn together(&self, first: u64, most: u64) -> (u64, &[StoredCell]) {
        self.contiguous_rows(first, most)
    }
}
