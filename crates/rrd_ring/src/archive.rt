//! The rows of an archive.
ghost use Rattle.std.specs.Prelude.{◌≡◌, ◌+◌, ◌-◌, ◌<◌, ◌≤◌, ◌^◌, ◌*◌, List, [], ◌∷◌, ◌++◌, length, replicate, take, drop, slice_set, IfOk};
ghost use Rattle.std.specs.Borrow.{sem};
ghost use Rattle.rrd_fixed.specs.declared.cell.Cell.{Cell};
ghost use Rattle.rrd_fixed.specs.declared.cell.Cell.TheVariants.{Unknown};
ghost use Rattle.rrd_ring.specs.Rows.{nth_row, row_cells, width, HasWidth, with_row, with_rows, unknown_rows, newest_rows, max_rows, max_sources};

use crate::dropped::Dropped;
use crate::ring::{
    are_unknown, cells_of, fill_up, forget, index_of, parts_of, push_parts, row_at, row_mut,
    rows_written, run_from, save_parts, unknown_cells, wrap, write_cells, write_from, write_row_at,
};
use crate::unwritten::UnwrittenRow;
use rrd_fixed::{Meter, StoredCell};
use std::alloc::{AllocError, Global};
use std::marker::Model;
use std::mem;

/// The consolidated rows of an archive, with one cell for each data source.
///
/// An archive has 1 to 1,000,000 rows of 1 to 64 cells; a cell is in millionths, or unknown. Contracts see the list of
/// the rows, oldest first.
#[derive(Debug, Drop)]
pub struct Archive {
    // The cells of the rows, one row after another, up to the last written row of the vector: the others are unknown.
    // The capacity is that of all rows from the start, so that no row allocates later. Unwritten rows cost no time and
    // touch no memory.
    cells: Vec<StoredCell>,
    rows: usize,
    sources: usize,
    // A row of unknown cells, which stands for each unwritten row.
    unwritten: UnwrittenRow,
    // The index of the oldest row among the vector's rows. The row after the vector's last one is its first.
    oldest: usize,
}

impl Model for Archive {
    ghost use Rattle.std.specs.Prelude.{List};
    ghost use Rattle.rrd_fixed.specs.declared.cell.Cell.{Cell};
    ghost use Rattle.std.specs.Prelude.{◌≡◌, ◌*◌};
    ghost use Rattle.rrd_ring.specs.Ring.{ring_rows, with_unwritten, IsPartlyWritten};

    ghost Value = { List (List Cell) };

    ghost view = { λ a. ring_rows a.rows a.sources a.oldest (with_unwritten (a.rows * a.sources) a.cells.items) };

    ghost invariant = { λ a. IsPartlyWritten a.rows a.sources a.oldest a.cells × (a.unwritten ≡ a.sources) };
}

impl Archive {
    ghost use Rattle.rrd_ring.specs.Lending.{LendsRow};

    /// Creates an archive in which all rows are unknown.
    ///
    /// The archive has `rows` rows (1 to 1,000,000) of `sources` cells each (1 to 64). Allocates the memory for all
    /// rows, and touches none of it.
    ///
    /// # Errors
    /// - `AllocError`: memory runs out.
    pub fn new(alloc: Global, rows: u64, sources: u64) -> Result<Archive, AllocError>
        requires some_rows { 0 < rows }
        requires few_rows { rows ≤ max_rows }
        requires some_sources { 0 < sources }
        requires few_sources { sources ≤ max_sources }
        ensures { IfOk result (λ archive. archive ≡ unknown_rows rows sources) }
    {
        Archive::new_filled_from(alloc, rows, sources, 0)
    }

    /// Creates an archive whose rows will be written from row `first` on.
    ///
    /// The archive is that of `new`. If the rows are written from `first` to the newest row, and then from the oldest
    /// row on, each touches only its own memory. Row 0 is the oldest.
    ///
    /// # Errors
    /// - `AllocError`: memory runs out.
    pub fn new_filled_from(
        alloc: Global,
        rows: u64,
        sources: u64,
        first: u64,
    ) -> Result<Archive, AllocError>
        requires few_rows { rows ≤ max_rows }
        requires some_sources { 0 < sources }
        requires few_sources { sources ≤ max_sources }
        requires there { first < rows }
        ensures { IfOk result (λ archive. archive ≡ unknown_rows rows sources) }
    {
        let (rows, sources) = (rows as usize, sources as usize);
        let cells = Vec::with_capacity(alloc, cells_of(rows, sources))?;
        let unwritten = UnwrittenRow::new(alloc, sources)?;
        Ok(Archive {
            cells,
            rows,
            sources,
            unwritten,
            oldest: wrap(rows - first as usize, rows),
        })
    }

    /// Returns the number of rows, 1 to 1,000,000.
    pub fn rows(&self) -> u64
        ensures count { result ≡ length self.now }
        ensures some { 0 < result }
        ensures few { result ≤ max_rows }
    {
        self.rows as u64
    }

    /// Returns the number of data sources, 1 to 64.
    ///
    /// Each row has one cell for each data source.
    pub fn sources(&self) -> u64
        ensures count { result ≡ width self.now }
        ensures each_row { HasWidth result self.now }
        ensures some { 0 < result }
        ensures few { result ≤ max_sources }
    {
        self.sources as u64
    }

    /// Returns how many of the oldest rows were certainly never written.
    ///
    /// All cells of these rows are unknown. More rows may be unwritten.
    pub fn never_written_count(&self) -> u64
        ensures few { result ≤ length self.now }
        ensures unknown { take result self.now ≡ unknown_rows result (width self.now) }
    {
        let written = rows_written(self.cells.len(), self.rows, self.sources, self.oldest);
        (self.rows - written) as u64
    }

    /// Returns the cells of row `i`. Row 0 is the oldest.
    pub fn row(&self, i: u64) -> &[StoredCell]
        requires { i < length self.now }
        ensures { result.now ≡ nth_row self.now i }
    {
        let index = index_of(i as usize, self.oldest, self.rows);
        row_at(&self.cells, &self.unwritten, self.sources, index)
    }

    /// Returns the first of `most` rows from row `first` on that are consecutive in memory.
    ///
    /// The result is their number, from 1 to `most`, and their cells, one row after another. Row 0 is the oldest. Rows
    /// that were never written may be returned one at a time.
    pub fn contiguous_rows(&self, first: u64, most: u64) -> (u64, &[StoredCell])
        requires some { 0 < most }
        requires there { first + most ≤ length self.now }
        ensures some { 0 < result.0 }
        ensures few { result.0 ≤ most }
        ensures cells { result.1.now ≡ row_cells (take result.0 (drop first self.now)) }
    {
        let index = index_of(first as usize, self.oldest, self.rows);
        let most = most as usize;
        let (count, cells) = run_from(&self.cells, &self.unwritten, self.sources, index, most);
        (count as u64, cells)
    }

    /// Lends the cells of row `i` for writing. Row 0 is the oldest.
    ///
    /// Does not allocate.
    pub fn row_mut(&mut self, i: u64) -> &mut [StoredCell]
        requires { i < length self.old }
        ensures* writes_back { sem 𝓛 (LendsRow self.entry i result) }
        ensures value { result.now ≡ nth_row self.old i }
        ensures same_width { (cells : List Cell) → length cells ≡ length (nth_row self.old i)
            → with_row self.old i cells ≡ slice_set self.old i cells }
    {
        let index = index_of(i as usize, self.oldest, self.rows);
        let start = cells_of(index, self.sources);
        fill_up(&mut self.cells, start + self.sources);
        row_mut(&mut self.cells, start, start + self.sources)
    }

    // If no row is written, makes row `i` the first of the vector. All rows are unknown then, so their order says nothing,
    // and the unknown rows before the first that is written stay unwritten.
    fn begin_at(&mut self, i: u64)
        requires { i < length self.old }
        ensures { self.new ≡ self.old }
    {
        if self.cells.is_empty() {
            self.oldest = wrap(self.rows - i as usize, self.rows);
        }
    }

    // Writes rows as `write_rows_wrapping` does, at their places in the vector.
    fn put_rows(&mut self, i: u64, count: u64, cells: &[StoredCell])
        requires there { i < length self.old }
        requires few { count ≤ length self.old }
        requires one_each { length cells.now ≡ count * width self.old }
        ensures { self.new ≡ with_rows count (width self.old) self.old i cells.now }
    {
        let (i, count) = (i as usize, count as usize);
        let parts = parts_of(i, count, self.oldest, self.rows, self.sources);
        let (front, rest) = cells.split_at(parts.front);
        write_cells(&mut self.cells, parts.start, front);
        write_cells(&mut self.cells, 0, rest);
    }

    /// Writes `count` rows from row `i` on, wrapping from the newest row to the oldest.
    ///
    /// Row 0 is the oldest, and `count` is at most the number of rows. `cells` holds the rows one after another. Does
    /// not allocate.
    pub fn write_rows_wrapping(&mut self, i: u64, count: u64, cells: &[StoredCell])
        requires there { i < length self.old }
        requires few { count ≤ length self.old }
        requires one_each { length cells.now ≡ count * width self.old }
        ensures { self.new ≡ with_rows count (width self.old) self.old i cells.now }
    {
        if are_unknown(cells) {
            self.clear_rows_wrapping(i, count);
        } else {
            self.begin_at(i);
            self.put_rows(i, count, cells);
        }
    }

    /// Makes `count` rows unknown, from row `i` on.
    ///
    /// The rows wrap from the newest row to the oldest. Row 0 is the oldest, and `count` is at most the number of rows.
    /// Does not allocate, and touches only the memory of written rows.
    pub fn clear_rows_wrapping(&mut self, i: u64, count: u64)
        requires there { i < length self.old }
        requires few { count ≤ length self.old }
        ensures { let cells = replicate (count * width self.old) Unknown in
            self.new ≡ with_rows count (width self.old) self.old i cells }
    {
        let (i, count) = (i as usize, count as usize);
        let parts = parts_of(i, count, self.oldest, self.rows, self.sources);
        forget(&mut self.cells, parts.start, parts.front);
        forget(&mut self.cells, 0, parts.rest);
    }

    /// Drops the oldest row, and adds `cells` as the newest, one for each data source.
    ///
    /// The meter counts one unit of work for each cell. Does not allocate.
    pub fn push_row(&mut self, cells: &[StoredCell], meter: &mut Meter)
        requires one_each { length cells.now ≡ width self.old }
        requires turns { meter.old + length cells.now < 2 ^ 64 }
        ensures rows { self.new ≡ drop 1 (self.old ++ cells.now ∷ []) }
        ensures turns { meter.new ≡ meter.old + length cells.now }
    {
        let start = cells_of(self.oldest, self.sources);
        // The rows before `start` are written, except in an archive that was not filled up to the newest row.
        fill_up(&mut self.cells, start);
        write_row_at(&mut self.cells, start, cells, meter);
        self.oldest = wrap(self.oldest + 1, self.rows);
    }

    /// Copies the `n` oldest rows; `n` is at most the number of rows.
    ///
    /// # Errors
    /// - `AllocError`: memory runs out.
    pub fn oldest(&self, alloc: Global, n: u64) -> Result<Dropped, AllocError>
        requires { n ≤ length self.now }
        ensures { IfOk result (λ dropped. dropped ≡ take n self.now) }
    {
        let rows = n as usize;
        let parts = parts_of(0, rows, self.oldest, self.rows, self.sources);
        let cells = save_parts(alloc, &self.cells, parts)?;
        Ok(Dropped {
            cells,
            rows,
            sources: self.sources,
        })
    }

    /// Puts rows back before the oldest row; as many of the newest rows are dropped.
    ///
    /// The rows have as many cells as those of the archive, and are at most as many. Does not allocate.
    pub fn put_back(&mut self, dropped: Dropped)
        requires fits { length dropped ≤ length self.old }
        requires one_width { HasWidth (width self.old) dropped }
        ensures { self.new ≡ dropped ++ take (length self.old - length dropped) self.old }
    {
        let Dropped {
            cells: old,
            rows,
            ..
        } = dropped;
        fill_up(&mut self.cells, cells_of(self.rows, self.sources));
        self.oldest = wrap(self.oldest + (self.rows - rows), self.rows);
        let start = cells_of(self.oldest, self.sources);
        write_from(&mut self.cells, start, old.as_slice());
    }

    /// Copies the archive with `rows` rows (1 to 1,000,000): the newest ones (rrdresize).
    ///
    /// If `rows` is larger than the number of rows, unknown rows precede the oldest.
    ///
    /// # Errors
    /// - `AllocError`: memory runs out.
    pub fn resized(&self, alloc: Global, rows: u64) -> Result<Archive, AllocError>
        requires some_rows { 0 < rows }
        requires few_rows { rows ≤ max_rows }
        ensures { IfOk result (λ archive. archive ≡ newest_rows rows self.now) }
    {
        let wanted = rows as usize;
        let written = rows_written(self.cells.len(), self.rows, self.sources, self.oldest);
        let kept = wanted.min(written);
        let gone = self.rows - kept;
        let parts = parts_of(gone, kept, self.oldest, self.rows, self.sources);
        let room = cells_of(wanted, self.sources);
        let mut cells = unknown_cells(alloc, room, cells_of(wanted - kept, self.sources))?;
        push_parts(&mut cells, &self.cells, parts)?;
        let unwritten = UnwrittenRow::new(alloc, self.sources)?;
        Ok(Archive {
            cells,
            rows: wanted,
            sources: self.sources,
            unwritten,
            oldest: 0,
        })
    }

    /// Exchanges the rows of two archives. Does not allocate.
    pub fn swap(&mut self, other: &mut Archive)
        ensures mine { self.new ≡ other.old }
        ensures others { other.new ≡ self.old }
    {
        mem::swap(self, other);
    }
}
