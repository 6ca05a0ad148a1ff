//! Cells: writing and reading those of all archives, slot by slot; and the functions that entries share.
ghost use Rattle.std.specs.Prelude.{◌*◌, ◌≡◌, ◌<◌, ◌≤◌, ℕ, ◌++◌, ◌+◌, IfErr, IfSome, List, OnOk, Some, length, map, replicate, slice_get, slice_range, take, true};
ghost use Rattle.rrd_file.specs.Names.{AllByRecursion, flat_map, IsBounded, Unknown, due, CellDue, all_cells, cells_by_slot, Rra, Keeps};
ghost use Rattle.rrd_file.specs.Words.{Gathers, row_pieces, spelled, OfCell, Advances, left, Body, Reaches, Stands, FitsCell};
ghost use Rattle.rrd_file.specs.declared.fault.FileFault.TheVariants.{Read as ReadFault};
ghost use Rattle.rrd_file.specs.Layout.Values as spelling;

use crate::FileFault;
use crate::fault::block_fault;
use crate::layout::{CELL_SIZE, MAX_ROW_CELLS, unknown_bytes};
use crate::reader::PieceReader;
use crate::values::signed_of;
use crate::writer::{BLOCK_SIZE, Block, PieceWriter};
use rrd_base::{Database, Due, Rebuild, database_is_valid, is_bounded};
use rrd_fixed::{StoredCell, WriteFault};
use rrd_ring::{Table, are_unknown};
use rrd_spec::first_slot_row;
use rrd_spec::laws::rows_stand_in_slots;
use std::io::{Read, Write};

/// The maximum number of cells that are read at once: as many as wait, which are enough for the widest row.
const MAX_CELLS_AT_ONCE: usize = 128;

/// The number of unknown cells that are compared at once, which is faster than one after another.
const CELLS_IN_BLOCK: usize = 8;

impl Block {
    /// Adds unknown cells, at most 64.
    fn unknown(&mut self, count: usize)
        requires few { count ≤ MAX_ROW_CELLS }
        requires room { length self.old + CELL_SIZE * count ≤ BLOCK_SIZE }
        ensures { self.new ≡ self.old ++ flat_map spelling.cell_bytes (replicate count Unknown) }
    {
        self.add(unknown_bytes(count));
    }
}

// Writes cells, one after another.
fn write_each<W: Write>(
    out: &mut PieceWriter<'_, W>,
    cells: &[StoredCell],
) -> Result<(), WriteFault>
    ensures { Gathers W.contents out.old out.new
        (spelled (map OfCell cells.now)) result }
{
    let mut done = 0;
    while done < cells.len() {
        let more = (cells.len() - done).min(MAX_ROW_CELLS);
        out.make_room()?;
        out.block.cells(&cells[done..done + more]);
        done += more;
    }
    Ok(())
}

// Writes rows from index `from` to before `to`. Row 0 is the oldest.
fn write_rows_between<W: Write, T: Table>(
    out: &mut PieceWriter<'_, W>,
    rows: &T,
    from: u64,
    to: u64,
) -> Result<(), WriteFault>
    requires { to ≤ length (T.table rows.now) }
    ensures { Gathers W.contents out.old out.new
        (spelled (row_pieces (slice_range (T.table rows.now) from to))) result }
{
    let mut index = from;
    while index < to {
        let (count, cells) = rows.together(index, to - index);
        write_each(out, cells)?;
        index += count;
    }
    Ok(())
}

/// Writes rows, the oldest first.
pub(crate) fn write_rows<W: Write, T: Table>(
    out: &mut PieceWriter<'_, W>,
    rows: &T,
) -> Result<(), WriteFault>
    ensures { Gathers W.contents out.old out.new
        (spelled (row_pieces (T.table rows.now))) result }
{
    write_rows_between(out, rows, 0, rows.count())
}

// Writes `count` unknown cells, at most a row of them at a time.
fn write_unknown<W: Write>(out: &mut PieceWriter<'_, W>, count: u64) -> Result<(), WriteFault>
    ensures { Gathers W.contents out.old out.new
        (spelled (map OfCell (replicate count Unknown))) result }
{
    let mut done = 0;
    while done < count {
        let more = (count - done).min(MAX_ROW_CELLS as u64);
        out.make_room()?;
        out.block.unknown(more as usize);
        done += more;
    }
    Ok(())
}

// Writes an archive's rows from index `from` to before `to`. Row 0 is the oldest. The unwritten rows are the oldest, so
// they need not be read.
fn write_run<W: Write>(
    out: &mut PieceWriter<'_, W>,
    database: &Database,
    archive: u64,
    from: u64,
    to: u64,
) -> Result<(), WriteFault>
    requires archive_there { archive < length database.now.content.archives }
    requires rows_there { (a : Rra) → slice_get database.now.content.archives archive ≡ Some a
        → to ≤ length a.rows }
    ensures { (a : Rra) → slice_get database.now.content.archives archive ≡ Some a
        → Gathers W.contents out.old out.new
        (spelled (row_pieces (slice_range a.rows from to))) result }
{
    // The prover needs that the number of cells is small.
    database_is_valid(database);
    let unwritten = database
        .never_written_rows(archive)
        .min(to)
        .saturating_sub(from);
    write_unknown(out, unwritten * database.sources())?;
    write_rows_between(out, database.rows(archive), from + unwritten, to)
}

// Writes the cells of an archive, slot by slot: its rows from the index of slot 0 on, and then the rows before it.
fn write_slots<W: Write>(
    out: &mut PieceWriter<'_, W>,
    database: &Database,
    archive: u64,
) -> Result<(), WriteFault>
    requires { archive < length database.now.content.archives }
    ensures { (a : Rra) → slice_get database.now.content.archives archive ≡ Some a
        → Gathers W.contents out.old out.new
        (spelled (map OfCell (cells_by_slot database.now.content.step database.now.content.last a))) result }
{
    rows_stand_in_slots();
    // The prover needs that times and numbers of rows are small.
    database_is_valid(database);
    let def = database.archive(archive);
    let first = first_slot_row(def.resolution(database.step()), database.last(), def.rows);
    write_run(out, database, archive, first, def.rows)?;
    write_run(out, database, archive, 0, first)
}

/// Writes the cells of all archives.
pub(crate) fn write_cells<W: Write>(
    out: &mut PieceWriter<'_, W>,
    database: &Database,
) -> Result<(), WriteFault>
    ensures { Gathers W.contents out.old out.new
        (spelled (map OfCell (all_cells database.now.content))) result }
{
    for archive in 0..database.archives() {
        write_slots(out, database, archive)?;
    }
    Ok(())
}

/// Returns a cell, and the bytes after it.
pub(crate) fn cell_of(bytes: &[u8]) -> (StoredCell, &[u8])
    requires { CELL_SIZE ≤ length bytes.now }
    ensures spelled { bytes.now ≡ spelling.cell_bytes result.0 ++ result.1.now }
    ensures fits { FitsCell result.0 }
    ensures room { length result.1.now + CELL_SIZE ≡ length bytes.now }
{
    let (number, rest) = signed_of(bytes);
    (StoredCell::of_number(number), rest)
}

// Writes the cell of a number, and returns true, unless the number has an absolute value above the maximum rate.
fn put_number(into: &mut StoredCell, number: i128) -> bool
    ensures spelled { result ≡ true → spelling.signed_bytes number ≡ spelling.cell_bytes into.new }
    ensures bounded { result ≡ true → IsBounded into.new }
{
    let cell = StoredCell::of_number(number);
    if !is_bounded(cell) {
        return false;
    }
    *into = cell;
    true
}

// Writes cells up to the first that has an absolute value above the maximum rate, and returns how many.
fn cells_of(bytes: &[u8], cells: &mut [StoredCell]) -> usize
    requires { length bytes.now ≡ CELL_SIZE * length cells.old }
    ensures few { result ≤ length cells.new }
    ensures spelled { take (CELL_SIZE * result) bytes.now ≡ flat_map spelling.cell_bytes (take result cells.new) }
    ensures bounded { AllByRecursion IsBounded (take result cells.new) }
    ensures as_many { length cells.new ≡ length cells.old }
{
    let mut rest = bytes;
    for i in 0..cells.len() {
        let (number, more) = signed_of(rest);
        if !put_number(&mut cells[i], number) {
            return i;
        }
        rest = more;
    }
    cells.len()
}

// Returns whether these bytes are the same. Looking at all of them is faster than ending at the first that differs.
fn are_same(bytes: &[u8], others: &[u8]) -> bool
    requires { length bytes.now ≡ length others.now }
    ensures { result ≡ true → bytes.now ≡ others.now }
{
    let mut same = true;
    for i in 0..bytes.len() {
        same &= bytes[i] == others[i];
    }
    same
}

// Returns how many of the first cells are unknown, in blocks of `size`, and the bytes behind them.
fn unknown_blocks(bytes: &[u8], size: usize) -> (usize, &[u8])
    requires some { 0 < size }
    requires few { size ≤ MAX_ROW_CELLS }
    ensures spelled { bytes.now ≡ flat_map spelling.cell_bytes (replicate result.0 Unknown) ++ result.1.now }
    ensures room { length result.1.now + CELL_SIZE * result.0 ≡ length bytes.now }
{
    let block = unknown_bytes(size);
    let mut count = 0;
    let mut rest = bytes;
    while rest.len() >= block.len() && are_same(&rest[..block.len()], block) {
        count += size;
        rest = &rest[block.len()..];
    }
    (count, rest)
}

// Returns how many of the first cells are unknown.
fn unknown_front(bytes: &[u8]) -> usize
    ensures few { CELL_SIZE * result ≤ length bytes.now }
    ensures spelled { take (CELL_SIZE * result) bytes.now ≡ flat_map spelling.cell_bytes (replicate result Unknown) }
{
    let (many, rest) = unknown_blocks(bytes, CELLS_IN_BLOCK);
    let (more, _) = unknown_blocks(rest, 1);
    many + more
}

// Reads one waiting cell. The cell is checked in the buffer, and skipped after the database took it.
fn read_cell<R: Read + Drop>(
    input: &mut PieceReader<R>,
    build: &mut Rebuild,
) -> Result<(), FileFault>
    requires is_due { due build.old ≡ CellDue }
    requires waits { CELL_SIZE ≤ length input.old.waiting }
    ensures steps { (bytes : List ℕ) → Stands bytes (Body build.old) input.old
        → Reaches bytes (λ x. Body build.new) input.new result }
    ensures advanced { OnOk result (Advances input.old input.new) }
{
    let (cell, _) = cell_of(input.front(CELL_SIZE));
    let came = build.cell(cell);
    input.skip(CELL_SIZE);
    match came {
        Ok(()) => Ok(()),
        Err(fault) => Err(block_fault(fault, input.at() - CELL_SIZE as u64)),
    }
}

// Takes the unknown cells that wait and make whole rows, and returns how many.
fn take_unknown<R: Read + Drop>(input: &mut PieceReader<R>, build: &mut Rebuild) -> usize
    ensures steps { (bytes : List ℕ) → 0 < result → Stands bytes (Body build.old) input.old
        → Stands bytes (Body build.new) input.new }
    ensures advanced { 0 < result → Advances input.old input.new }
    ensures none { result ≡ 0 → (input.new ≡ input.old) × (build.new ≡ build.old) }
{
    let taken = build.unknown_rows(unknown_front(input.front(input.waiting())));
    if taken > 0 {
        input.skip(taken * CELL_SIZE);
    }
    taken
}

// Returns how many of these rows' cells are before the unknown rows at the end, at least those of the first row.
fn without_unknown_end(cells: &[StoredCell], cells_in_row: usize) -> usize
    requires { 0 < cells_in_row }
    ensures { result ≤ length cells.now }
{
    let mut end = cells.len();
    while end > cells_in_row && are_unknown(&cells[end - cells_in_row..end]) {
        end -= cells_in_row;
    }
    end
}

// Writes cells as `cells_of` does, and returns how many of them are before the unknown rows at the end.
fn cells_before_unknown_end(bytes: &[u8], cells: &mut [StoredCell], cells_in_row: usize) -> usize
    requires some { 0 < cells_in_row }
    requires room { length bytes.now ≡ CELL_SIZE * length cells.old }
    ensures few { result ≤ length cells.new }
    ensures spelled { take (CELL_SIZE * result) bytes.now ≡ flat_map spelling.cell_bytes (take result cells.new) }
    ensures bounded { AllByRecursion IsBounded (take result cells.new) }
    ensures as_many { length cells.new ≡ length cells.old }
{
    let good = cells_of(bytes, cells);
    without_unknown_end(&cells[..good], cells_in_row)
}

// Takes waiting cells that make whole rows, at most as many as fit into `room`, up to the first cell with an absolute
// value above the maximum rate. Unknown rows at their end are left: taken as unknown rows, they stay unwritten. Returns
// the number of cells.
fn take_rows<R: Read + Drop>(
    input: &mut PieceReader<R>,
    build: &mut Rebuild,
    room: &mut [StoredCell],
) -> usize
    ensures steps { (bytes : List ℕ) → 0 < result → Stands bytes (Body build.old) input.old
        → Stands bytes (Body build.new) input.new }
    ensures advanced { 0 < result → Advances input.old input.new }
    ensures none { result ≡ 0 → (input.new ≡ input.old) × (build.new ≡ build.old) }
{
    let most = (input.waiting() / CELL_SIZE).min(room.len());
    let count = most - most % build.cells_in_row();
    let cells = &mut room[..count];
    let bytes = input.front(count * CELL_SIZE);
    let good = cells_before_unknown_end(bytes, cells, build.cells_in_row());
    let taken = build.rows(&cells[..good]);
    if taken > 0 {
        input.skip(taken * CELL_SIZE);
    }
    taken
}

// Waits until the cells of a row are there, or the input ends. Each cell is checked before the next one is awaited: a
// cell that has an absolute value above the maximum rate must be reported before a later read can fail, so nothing
// after it is awaited.
fn gather_row<R: Read + Drop>(
    input: &mut PieceReader<R>,
    cells_in_row: usize,
) -> Result<(), FileFault>
    requires { cells_in_row ≤ MAX_ROW_CELLS }
    ensures keeps { OnOk result (Keeps (left input.old) (left input.new)) }
    ensures at { OnOk result (input.new.at ≡ input.old.at) }
    ensures more { OnOk result (length input.old.waiting ≤ length input.new.waiting) }
    ensures err { IfErr result (λ fault. fault ≡ ReadFault) }
{
    if input.waiting() >= cells_in_row * CELL_SIZE {
        return Ok(());
    }
    for before in 0..cells_in_row {
        let end = (before + 1) * CELL_SIZE;
        input.gather(end)?;
        if input.waiting() < end {
            return Ok(());
        }
        let (cell, _) = cell_of(&input.front(end)[before * CELL_SIZE..]);
        if !is_bounded(cell) {
            return Ok(());
        }
    }
    Ok(())
}

// Reads the waiting cells that make whole rows. If there are none, reads the next cell alone, which finds its error.
fn read_some_cells<R: Read + Drop>(
    input: &mut PieceReader<R>,
    build: &mut Rebuild,
    room: &mut [StoredCell],
) -> Result<(), FileFault>
    requires is_due { due build.old ≡ CellDue }
    requires waits { CELL_SIZE ≤ length input.old.waiting }
    ensures steps { (bytes : List ℕ) → Stands bytes (Body build.old) input.old
        → Reaches bytes (λ x. Body build.new) input.new result }
    ensures advanced { OnOk result (Advances input.old input.new) }
{
    if take_unknown(input, build) > 0 {
        return Ok(());
    }
    if take_rows(input, build, room) > 0 {
        return Ok(());
    }
    read_cell(input, build)
}

/// Reads a cell and the cells after it that are there, by whole rows except at the end of the input.
pub(crate) fn read_cells<R: Read + Drop>(
    input: &mut PieceReader<R>,
    build: &mut Rebuild,
) -> Result<(), FileFault>
    requires { due build.old ≡ CellDue }
    ensures steps { (bytes : List ℕ) → Stands bytes (Body build.old) input.old
        → Reaches bytes (λ x. Body build.new) input.new result }
    ensures advanced { OnOk result (Advances input.old input.new) }
{
    input.wait_for(CELL_SIZE)?;
    let mut room = [StoredCell::unknown(); MAX_CELLS_AT_ONCE];
    while let Due::CellDue = build.due() {
        gather_row(input, build.cells_in_row())?;
        if input.waiting() < CELL_SIZE {
            return Ok(());
        }
        read_some_cells(input, build, &mut room)?;
    }
    Ok(())
}
