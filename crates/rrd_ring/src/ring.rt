//! Functions on rows of cells in one vector. A ring is such a vector whose oldest row may be any row in it.
ghost use Rattle.std.specs.Prelude.{ℕ, ◌≡◌, ◌+◌, ◌*◌, ◌%◌, ◌-◌, ◌<◌, ◌≤◌, ◌^◌, ◌++◌, length, take, drop, replicate, slice_range, vec_len, vec_capacity, IfOk, IsTrue, OnOk};
ghost use Rattle.std.specs.Borrow.{sem};
ghost use Rattle.smallvec.specs.SmallVec.{small_vec_len};
ghost use Rattle.rrd_fixed.specs.declared.cell.Cell.TheVariants.{Unknown};
ghost use Rattle.rrd_ring.specs.Ring.Slices.{LendsPart, LendsAsMany};
ghost use Rattle.rrd_ring.specs.Ring.{cells_in, from_index, row_of, with_unwritten, AreParts, AreWhole, AreWritten};
ghost use Rattle.rrd_ring.specs.Rows.{max_rows, max_sources};

use crate::dropped::DroppedCells;
use crate::unwritten::UnwrittenRow;
use rrd_fixed::{Meter, StoredCell};
use std::alloc::{AllocError, Global};

// Returns `index` modulo `rows`: the row after the last row of a ring is the first row. A comparison is faster than a
// division.
pub(crate) fn wrap(index: usize, rows: usize) -> usize
    requires some { 0 < rows }
    requires once { index < 2 * rows }
    ensures index { result ≡ index % rows }
    ensures within { result < rows }
{
    if index < rows { index } else { index - rows }
}

// Returns the index in a ring's vector of the ring's row `i`, if row 0 has the index `oldest`. Row `rows` is row 0
// again.
pub(crate) fn index_of(i: usize, oldest: usize, rows: usize) -> usize
    requires there { i ≤ rows }
    requires within { oldest < rows }
    requires few_rows { rows ≤ max_rows }
    ensures index { result ≡ (oldest + i) % rows }
    ensures within { result < rows }
{
    wrap(oldest + i, rows)
}

// Returns the number of cells in `rows` rows of `sources` cells each.
pub(crate) fn cells_of(rows: usize, sources: usize) -> usize
    requires few_rows { rows ≤ max_rows }
    requires few_sources { sources ≤ max_sources }
    ensures count { result ≡ rows * sources }
    ensures few { result ≤ max_rows * max_sources }
{
    rows * sources
}

// Where some rows of a ring are in its vector, in cells: `front` cells from cell `start` on, at most to the last cell,
// and the other `rest` cells from the first cell on.
#[derive(Clone, Copy)]
pub(crate) struct Parts {
    pub(crate) start: usize,
    pub(crate) front: usize,
    pub(crate) rest: usize,
}

// Returns where `count` rows of a ring are in its vector, from the ring's row `i` on, if row 0 has the index `oldest`.
pub(crate) fn parts_of(i: usize, count: usize, oldest: usize, rows: usize, sources: usize) -> Parts
    requires there { i ≤ rows }
    requires few { count ≤ rows }
    requires within { oldest < rows }
    requires few_rows { rows ≤ max_rows }
    requires few_sources { sources ≤ max_sources }
    ensures parts { AreParts rows sources oldest i count result.start result.front result.rest }
    ensures before_end { result.start + result.front ≤ rows * sources }
    ensures before_start { result.rest ≤ result.start }
    ensures all { result.front + result.rest ≡ count * sources }
    ensures few_in_front { result.front ≤ max_rows * max_sources }
    ensures few_others { result.rest ≤ max_rows * max_sources }
{
    let index = index_of(i, oldest, rows);
    let first = count.min(rows - index);
    Parts {
        start: cells_of(index, sources),
        front: cells_of(first, sources),
        rest: cells_of(count - first, sources),
    }
}

// Creates a vector of `count` unknown cells, with capacity for at least `room` cells.
pub(crate) fn unknown_cells(
    alloc: Global,
    room: usize,
    count: usize,
) -> Result<Vec<StoredCell>, AllocError>
    ensures { IfOk result (λ cells. cells.items ≡ replicate count Unknown) }
{
    let mut cells = Vec::with_capacity(alloc, room)?;
    cells.resize(count, StoredCell::unknown())?;
    Ok(cells)
}

// Returns how many of the newest rows of a ring may be written, if its vector has `cells` written cells. No row if
// there is no written cell; the `oldest` rows before the oldest row's index if the written cells end at this index or
// before; otherwise all `rows` rows.
pub(crate) fn rows_written(cells: usize, rows: usize, sources: usize, oldest: usize) -> usize
    requires few_rows { rows ≤ max_rows }
    requires few_sources { sources ≤ max_sources }
    requires within { oldest < rows }
    ensures written { AreWritten rows sources oldest cells result }
    ensures few { result ≤ rows }
{
    if cells == 0 {
        return 0;
    }
    if cells <= cells_of(oldest, sources) {
        return oldest;
    }
    rows
}

// Returns how many of `most` rows from row `index` of the vector on are consecutive: up to the end of the `written`
// rows, or only the first row if it is not written.
fn contiguous_count(written: usize, index: usize, most: usize) -> usize
    requires { 0 < most }
    ensures some { 0 < result }
    ensures few { result ≤ most }
    ensures within { index < written → index + result ≤ written }
    ensures behind { written ≤ index → result ≡ 1 }
{
    if index < written {
        return most.min(written - index);
    }
    1
}

// Returns `count` cells of a ring's vector from cell `start` on. These are the cells of whole written rows, or of one
// row that is not written.
fn row_from<'a>(
    cells: &'a [StoredCell],
    unwritten: &'a UnwrittenRow,
    start: usize,
    count: usize,
) -> &'a [StoredCell]
    requires few { length cells.now ≤ start → count ≤ unwritten.now }
    requires whole { start < length cells.now → start + count ≤ length cells.now }
    ensures { (all : ℕ) → start + count ≤ all
        → result.now ≡ take count (drop start (with_unwritten all cells.now)) }
{
    if start < cells.len() {
        return &cells[start..start + count];
    }
    unwritten.front(count)
}

// Returns the cells of the vector's row `index`.
pub(crate) fn row_at<'a>(
    cells: &'a [StoredCell],
    unwritten: &'a UnwrittenRow,
    sources: usize,
    index: usize,
) -> &'a [StoredCell]
    requires wide { unwritten.now ≡ sources }
    requires whole { AreWhole sources cells.now }
    requires few_sources { sources ≤ max_sources }
    requires within { index < max_rows }
    ensures { (rows : ℕ) → index < rows
        → result.now ≡ row_of sources (with_unwritten (rows * sources) cells.now) index }
{
    row_from(cells, unwritten, cells_of(index, sources), sources)
}

// Returns how many of `most` rows from row `index` of the vector on are consecutive in memory, and their cells. A row
// that is not written is returned alone.
pub(crate) fn run_from<'a>(
    cells: &'a [StoredCell],
    unwritten: &'a UnwrittenRow,
    sources: usize,
    index: usize,
    most: usize,
) -> (usize, &'a [StoredCell])
    requires wide { unwritten.now ≡ sources }
    requires whole { AreWhole sources cells.now }
    requires some_sources { 0 < sources }
    requires few_sources { sources ≤ max_sources }
    requires within { index < max_rows }
    requires some { 0 < most }
    requires few { most ≤ max_rows }
    ensures some { 0 < result.0 }
    ensures few { result.0 ≤ most }
    ensures within { (rows : ℕ) → length cells.now ≤ rows * sources → index < rows → index + result.0 ≤ rows }
    ensures cells { (rows : ℕ) → index + result.0 ≤ rows → result.1.now
        ≡ take (result.0 * sources) (drop (index * sources) (with_unwritten (rows * sources) cells.now)) }
{
    let count = contiguous_count(cells.len() / sources, index, most);
    let start = cells_of(index, sources);
    (
        count,
        row_from(cells, unwritten, start, cells_of(count, sources)),
    )
}

// Returns the written ones of `count` cells of a ring's vector from cell `start` on, and how many unwritten ones follow.
fn part_from(ring: &[StoredCell], start: usize, count: usize) -> (&[StoredCell], usize)
    ensures count { length result.0.now + result.1 ≡ count }
    ensures cells { (all : ℕ) → length ring.now ≤ all → start + count ≤ all
        → result.0.now ++ replicate result.1 Unknown ≡ take count (drop start (with_unwritten all ring.now)) }
{
    let first = start.min(ring.len());
    let written = count.min(ring.len() - first);
    (&ring[first..first + written], count - written)
}

// Appends copies of `count` cells of a ring's vector from cell `start` on. Cells that are not written are unknown.
fn push_part(
    copies: &mut Vec<StoredCell>,
    ring: &[StoredCell],
    start: usize,
    count: usize,
) -> Result<(), AllocError>
    requires few { count ≤ max_rows * max_sources }
    requires short { vec_len copies.old ≤ 2 * max_rows * max_sources }
    ensures count { OnOk result (vec_len copies.new ≡ vec_len copies.old + count) }
    ensures items { (all : ℕ) → length ring.now ≤ all → start + count ≤ all → OnOk result (copies.new.items
        ≡ copies.old.items ++ take count (drop start (with_unwritten all ring.now))) }
{
    let (written, unwritten) = part_from(ring, start, count);
    copies.extend_from_slice(written)?;
    copies.resize(copies.len() + unwritten, StoredCell::unknown())?;
    Ok(())
}

// Appends copies of some rows of a ring, whose vector begins with the cells of `ring`. Cells that are not written are
// unknown. The vector needs at most two slices.
pub(crate) fn push_parts(
    copies: &mut Vec<StoredCell>,
    ring: &[StoredCell],
    parts: Parts,
) -> Result<(), AllocError>
    requires few_in_front { parts.front ≤ max_rows * max_sources }
    requires few_others { parts.rest ≤ max_rows * max_sources }
    requires short { vec_len copies.old ≤ max_rows * max_sources }
    ensures { (all : ℕ) → length ring.now ≤ all → parts.start + parts.front ≤ all → parts.rest ≤ all
        → OnOk result (copies.new.items
        ≡ copies.old.items ++ cells_in parts.start parts.front parts.rest (with_unwritten all ring.now)) }
{
    push_part(copies, ring, parts.start, parts.front)?;
    push_part(copies, ring, 0, parts.rest)?;
    Ok(())
}

// Appends copies of `count` cells of a ring's vector to a short list, as `push_part` does.
fn save_part(
    copies: &mut DroppedCells,
    ring: &[StoredCell],
    start: usize,
    count: usize,
) -> Result<(), AllocError>
    requires few { count ≤ max_rows * max_sources }
    requires short { small_vec_len copies.old ≤ max_rows * max_sources }
    ensures count { OnOk result (small_vec_len copies.new ≡ small_vec_len copies.old + count) }
    ensures items { (all : ℕ) → length ring.now ≤ all → start + count ≤ all → OnOk result (copies.new.items
        ≡ copies.old.items ++ take count (drop start (with_unwritten all ring.now))) }
{
    let (written, unwritten) = part_from(ring, start, count);
    copies.extend_from_slice(written)?;
    copies.resize(copies.len() + unwritten, StoredCell::unknown())?;
    Ok(())
}

// Copies some rows of a ring into a short list, as `push_parts` does.
pub(crate) fn save_parts(
    alloc: Global,
    ring: &[StoredCell],
    parts: Parts,
) -> Result<DroppedCells, AllocError>
    requires few_in_front { parts.front ≤ max_rows * max_sources }
    requires few_others { parts.rest ≤ max_rows * max_sources }
    ensures { (all : ℕ) → length ring.now ≤ all → parts.start + parts.front ≤ all → parts.rest ≤ all
        → IfOk result (λ copies. copies.items
        ≡ cells_in parts.start parts.front parts.rest (with_unwritten all ring.now)) }
{
    let mut copies = DroppedCells::with_capacity(alloc, parts.front + parts.rest)?;
    save_part(&mut copies, ring, parts.start, parts.front)?;
    save_part(&mut copies, ring, 0, parts.rest)?;
    Ok(copies)
}

// Appends unknown cells to the written ones until there are at least `end` cells. Does not allocate.
pub(crate) fn fill_up(cells: &mut Vec<StoredCell>, end: usize)
    requires { end ≤ vec_capacity cells.old }
    ensures items { cells.new.items ≡ with_unwritten end cells.old.items }
    ensures capacity { vec_capacity cells.old ≤ vec_capacity cells.new }
{
    if cells.len() < end {
        let _has_room = cells.resize(end, StoredCell::unknown());
    }
}

/// Returns whether all cells are unknown.
pub fn are_unknown(cells: &[StoredCell]) -> bool
    ensures { IsTrue result → cells.now ≡ replicate (length cells.now) Unknown }
{
    for i in 0..cells.len() {
        if !cells[i].is_unknown() {
            return false;
        }
    }
    true
}

// Writes `part` into a ring's vector from cell `start` on. Does not allocate.
pub(crate) fn write_cells(cells: &mut Vec<StoredCell>, start: usize, part: &[StoredCell])
    requires { start + length part.now ≤ vec_capacity cells.old }
    ensures items { let filled = with_unwritten (start + length part.now) cells.old.items in
        cells.new.items ≡ take start filled ++ (part.now ++ drop (length part.now) (drop start filled)) }
    ensures capacity { vec_capacity cells.old ≤ vec_capacity cells.new }
{
    if start == cells.len() {
        // Cells that arrive one after another are written only once.
        let _has_room = cells.extend_from_slice(part);
        return;
    }
    let end = start + part.len();
    fill_up(cells, end);
    cells[start..end].copy_from_slice(part);
}

// Makes written cells unknown, from `start` to before `end`.
fn overwrite(cells: &mut Vec<StoredCell>, start: usize, end: usize)
    requires start_le_end { start ≤ end }
    requires in_bounds { end ≤ vec_len cells.old }
    ensures items { cells.new.items ≡ take start cells.old.items
        ++ (replicate (end - start) Unknown ++ drop (end - start) (drop start cells.old.items)) }
    ensures capacity { vec_capacity cells.old ≤ vec_capacity cells.new }
{
    cells[start..end].fill(StoredCell::unknown());
}

// Makes `count` cells of a ring's vector unknown from cell `start` on. Cells that were never written are unknown
// already. Does not allocate.
pub(crate) fn forget(cells: &mut Vec<StoredCell>, start: usize, count: usize)
    requires { start + count < 2 ^ 64 }
    ensures cells { (all : ℕ) → length cells.old.items ≤ all → start + count ≤ all
        → with_unwritten all cells.new.items ≡ take start (with_unwritten all cells.old.items)
        ++ (replicate count Unknown ++ drop count (drop start (with_unwritten all cells.old.items))) }
    ensures as_many { length cells.new.items ≡ length cells.old.items }
    ensures capacity { vec_capacity cells.old ≤ vec_capacity cells.new }
{
    let end = cells.len().min(start + count);
    if start < end {
        overwrite(cells, start, end);
    }
}

// Writes `cells` into a ring from cell `start` on, wrapping from the last cell to the first. The vector needs at most
// two slices.
pub(crate) fn write_from(ring: &mut [StoredCell], start: usize, cells: &[StoredCell])
    requires within { start ≤ length ring.old }
    requires few { length cells.now ≤ length ring.old }
    ensures { from_index start ring.new ≡ cells.now ++ drop (length cells.now) (from_index start ring.old) }
{
    let first = cells.len().min(ring.len() - start);
    ring[start..start + first].copy_from_slice(&cells[..first]);
    ring[..cells.len() - first].copy_from_slice(&cells[first..]);
}

// Writes the cells of a row. The meter counts the cells that are written into an archive, at the statement that writes
// each.
pub(crate) fn write_row(row: &mut [StoredCell], cells: &[StoredCell], meter: &mut Meter)
    requires one_each { length cells.now ≡ length row.old }
    requires turns { meter.old + length cells.now < 2 ^ 64 }
    ensures written { row.new ≡ cells.now }
    ensures turns { meter.new ≡ meter.old + length cells.now }
{
    for i in 0..cells.len() {
        row[i] = cells[i];
        meter.tick();
    }
}

// Appends the cells of a row to the written ones. The meter counts the cells as in `write_row`.
fn push_each(cells: &mut Vec<StoredCell>, row: &[StoredCell], meter: &mut Meter)
    requires room { vec_len cells.old + length row.now ≤ vec_capacity cells.old }
    requires turns { meter.old + length row.now < 2 ^ 64 }
    ensures written { cells.new.items ≡ cells.old.items ++ row.now }
    ensures capacity { vec_capacity cells.new ≡ vec_capacity cells.old }
    ensures turns { meter.new ≡ meter.old + length row.now }
{
    for i in 0..row.len() {
        cells.push_reserved(row[i]);
        meter.tick();
    }
}

// Writes the cells of a row from cell `start` on: over a written row, or after the last one. The meter counts the cells
// as in `write_row`.
pub(crate) fn write_row_at(
    cells: &mut Vec<StoredCell>,
    start: usize,
    row: &[StoredCell],
    meter: &mut Meter,
)
    requires within { start ≤ vec_len cells.old }
    requires whole { start < vec_len cells.old → start + length row.now ≤ vec_len cells.old }
    requires room { start + length row.now ≤ vec_capacity cells.old }
    requires turns { meter.old + length row.now < 2 ^ 64 }
    ensures written { cells.new.items
        ≡ take start cells.old.items ++ (row.now ++ drop (length row.now) (drop start cells.old.items)) }
    ensures capacity { vec_capacity cells.new ≡ vec_capacity cells.old }
    ensures turns { meter.new ≡ meter.old + length row.now }
{
    if start < cells.len() {
        write_row(&mut cells[start..start + row.len()], row, meter);
    } else {
        push_each(cells, row, meter);
    }
}

// Lends the cells from `start` to before `end` for writing.
fn part_mut(cells: &mut Vec<StoredCell>, start: usize, end: usize) -> &mut [StoredCell]
    requires start_le_end { start ≤ end }
    requires in_bounds { end ≤ vec_len cells.old }
    ensures* writes_back { sem 𝓛 (LendsPart cells.entry start result) }
    ensures value { result.now ≡ slice_range cells.old.items start end }
{
    cells.slice_mut(start..end)
}

// Lends the cells from `start` to before `end`, and gets as many back: so a caller knows that other rows stay
// unchanged.
pub(crate) fn row_mut(cells: &mut Vec<StoredCell>, start: usize, end: usize) -> &mut [StoredCell]
    requires start_le_end { start ≤ end }
    requires in_bounds { end ≤ vec_len cells.old }
    ensures* writes_back { sem 𝓛 (LendsAsMany cells.entry start end result) }
    ensures value { result.now ≡ slice_range cells.old.items start end }
{
    part_mut(cells, start, end)
}
