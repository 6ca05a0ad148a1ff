//! The rows of entries: reading. The module `cells` writes them.
ghost use Rattle.std.specs.Prelude.{◌<◌, ◌≤◌, ◌∷◌, [], ◌≡◌, ◌++◌, ℕ, IfOk, List, length, map, replicate};
ghost use Rattle.rrd_file.specs.Names.{AllByRecursion, IsBounded, IsRow, small_vec_len, present, due, outline_left, EntryDue};
ghost use Rattle.rrd_file.specs.Words.{row_pieces, OfCell, Piece, AreRows, DueInEntry, RowCellDue, cells_due, Brings, Comes};

use crate::FileFault;
use crate::cells::cell_of;
use crate::fault::bad_entry;
use crate::layout::CELL_SIZE;
use crate::reader::PieceReader;
use rrd_base::{Rebuild, is_bounded};
use rrd_fixed::StoredCell;
use rrd_ring::{Archive, Dropped, DroppedCells};
use std::alloc::Global;
use std::io::Read;

// Reads a cell.
fn read_row_cell<R: Read + Drop>(
    input: &mut PieceReader<R>,
    build: &Rebuild,
) -> Result<StoredCell, FileFault>
    ensures brings { (bytes : List ℕ) (pieces : List Piece) (later : List DueInEntry)
        → Comes bytes build.now pieces (RowCellDue ∷ later) input.old
        → Brings bytes build.now (λ cell. pieces ++ OfCell cell ∷ []) (λ cell. later) input.new result }
    ensures bounded { IfOk result (λ cell. IsBounded cell) }
{
    let mut piece = [0u8; CELL_SIZE];
    input.piece(&mut piece)?;
    let (cell, _) = cell_of(&piece);
    if !is_bounded(cell) {
        return Err(bad_entry(build));
    }
    Ok(cell)
}

// Reads the cells of a row.
fn read_row<R: Read + Drop>(
    input: &mut PieceReader<R>,
    build: &Rebuild,
    row: &mut [StoredCell],
) -> Result<(), FileFault>
    ensures brings { (bytes : List ℕ) (pieces : List Piece) (later : List DueInEntry)
        → Comes bytes build.now pieces (replicate (length row.old) RowCellDue ++ later) input.old
        → Brings bytes build.now (λ x. pieces ++ map OfCell row.new) (λ x. later) input.new result }
    ensures same_width { length row.new ≡ length row.old }
{
    for i in 0..row.len() {
        row[i] = read_row_cell(input, build)?;
    }
    Ok(())
}

// Reads `count` cells of rows that an update replaced.
fn read_saved_cells<R: Read + Drop>(
    alloc: Global,
    input: &mut PieceReader<R>,
    build: &Rebuild,
    count: u64,
) -> Result<DroppedCells, FileFault>
    ensures brings { (bytes : List ℕ) (pieces : List Piece) (later : List DueInEntry)
        → Comes bytes build.now pieces (replicate count RowCellDue ++ later) input.old
        → Brings bytes build.now (λ cells. pieces ++ map OfCell cells.items) (λ cells. later) input.new result }
    ensures all { IfOk result (λ cells. small_vec_len cells ≡ count) }
    ensures bounded { IfOk result (λ cells. AllByRecursion IsBounded cells.items) }
{
    let mut cells = DroppedCells::with_capacity(alloc, count as usize)?;
    for _ in 0..count {
        let cell = read_row_cell(input, build)?;
        cells.push(cell)?;
    }
    Ok(cells)
}

/// Reads `count` rows that an update replaced, at most 1,000,000.
pub(super) fn read_saved_rows<R: Read + Drop>(
    alloc: Global,
    input: &mut PieceReader<R>,
    build: &Rebuild,
    count: u64,
) -> Result<Dropped, FileFault>
    requires is_due { due build.now ≡ EntryDue }
    requires few { count ≤ present.max_rows }
    ensures brings { (bytes : List ℕ) (pieces : List Piece) (later : List DueInEntry)
        → Comes bytes build.now pieces (cells_due count (outline_left build.now) ++ later) input.old
        → Brings bytes build.now (λ rows. pieces ++ row_pieces rows) (λ rows. later) input.new result }
    ensures as_many { IfOk result (λ rows. length rows ≡ count) }
    ensures each_row { IfOk result (λ rows. AllByRecursion (IsRow (length (outline_left build.now).sources)) rows) }
{
    let sources = build.sources();
    let cells = read_saved_cells(alloc, input, build, count * sources)?;
    Ok(Dropped::from_cells(cells, count, sources))
}

/// Reads the `count` rows of an archive that was resized or removed, 1 to 1,000,000.
pub(super) fn read_old_rows<R: Read + Drop>(
    alloc: Global,
    input: &mut PieceReader<R>,
    build: &Rebuild,
    count: u64,
) -> Result<Archive, FileFault>
    requires is_due { due build.now ≡ EntryDue }
    requires some { 0 < count }
    requires few { count ≤ present.max_rows }
    ensures brings { (bytes : List ℕ) (pieces : List Piece) (later : List DueInEntry)
        → Comes bytes build.now pieces (cells_due count (outline_left build.now) ++ later) input.old
        → Brings bytes build.now (λ rows. pieces ++ row_pieces rows) (λ rows. later) input.new result }
    ensures shaped { IfOk result (λ rows. AreRows count (length (outline_left build.now).sources) rows) }
{
    let Ok(mut rows) = Archive::new(alloc, count, build.sources()) else {
        return Err(FileFault::OutOfMemory);
    };
    for i in 0..count {
        read_row(input, build, rows.row_mut(i))?;
    }
    Ok(rows)
}
