//! Rows that an archive dropped.
ghost use Rattle.std.specs.Prelude.{◌≡◌, ◌+◌, ◌*◌, ◌<◌, ◌≤◌, length, take, drop};
ghost use Rattle.smallvec.specs.SmallVec.{small_vec_len};
ghost use Rattle.rrd_ring.specs.Rows.{row_cells, width, HasWidth, max_rows, max_sources};

use crate::ring::cells_of;
use rrd_fixed::StoredCell;
use smallvec::SmallVec;
use std::marker::Model;

/// The number of elements that a short list keeps in its value. Only a longer list is allocated.
///
/// Most databases have one or two data sources, and an update finishes at most one row of most archives.
pub const PLACES: usize = 2;

/// The cells of dropped rows, one row after another.
pub type DroppedCells = SmallVec<StoredCell, PLACES>;

/// Rows that were the oldest of an archive, all with the same number of cells.
///
/// There are at most 1,000,000 rows; a cell is in millionths, or unknown. Contracts see the list of the rows, oldest
/// first.
#[derive(Debug, Drop)]
pub struct Dropped {
    // The cells of the rows, one row after another.
    pub(crate) cells: DroppedCells,
    pub(crate) rows: usize,
    pub(crate) sources: usize,
}

impl Model for Dropped {
    ghost use Rattle.std.specs.Prelude.{List};
    ghost use Rattle.rrd_fixed.specs.declared.cell.Cell.{Cell};
    ghost use Rattle.rrd_ring.specs.Ring.{rows_of, AreRows};

    ghost Value = { List (List Cell) };

    ghost view = { λ a. rows_of a.rows a.sources a.cells.items };

    ghost invariant = { λ a. AreRows a.rows a.sources a.cells.items };
}

impl Dropped {
    /// Creates rows from their cells, one row after another.
    ///
    /// There are `rows` rows (at most 1,000,000) of `sources` cells each (1 to 64). Does not allocate.
    pub fn from_cells(cells: DroppedCells, rows: u64, sources: u64) -> Dropped
        requires few_rows { rows ≤ max_rows }
        requires some_sources { 0 < sources }
        requires few_sources { sources ≤ max_sources }
        requires one_each { small_vec_len cells ≡ rows * sources }
        ensures count { length result ≡ rows }
        ensures each_row { HasWidth sources result }
        ensures cells { row_cells result ≡ cells.items }
    {
        let (rows, sources) = (rows as usize, sources as usize);
        Dropped {
            cells,
            rows,
            sources,
        }
    }

    /// Returns the number of rows, at most 1,000,000.
    pub fn len(&self) -> u64
        ensures count { result ≡ length self.now }
        ensures each_row { HasWidth (width self.now) self.now }
        ensures few { result ≤ max_rows }
    {
        self.rows as u64
    }

    /// Returns `most` rows from row `first` on, which are all consecutive in memory.
    ///
    /// The result is their number and their cells, one row after another. Row 0 is the oldest.
    pub fn contiguous_rows(&self, first: u64, most: u64) -> (u64, &[StoredCell])
        requires some { 0 < most }
        requires there { first + most ≤ length self.now }
        ensures all { result.0 ≡ most }
        ensures cells { result.1.now ≡ row_cells (take result.0 (drop first self.now)) }
    {
        let start = cells_of(first as usize, self.sources);
        let end = start + cells_of(most as usize, self.sources);
        (most, &self.cells.as_slice()[start..end])
    }
}
