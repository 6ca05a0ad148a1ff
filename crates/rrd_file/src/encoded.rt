//! The bytes of a file that stay in memory, and the few of them that an update changes.
ghost use Rattle.std.specs.Prelude.{◌≡◌, ◌+◌, ◌<◌, ◌≤◌, ◌++◌, ◌^◌, IfSome, IsTrue, List, OnOk, Some, length, map, slice_get, slice_index, slice_range, take, ℕ};
ghost use Rattle.rrd_file.specs.Names.{All, AllByRecursion, flat_map, Writes, cells_by_slot, Rra, Stored, HasOneEach, newest, present, Version};
ghost use Rattle.rrd_file.specs.Words.{HoldsBeforeJournal, HoldsCells, HoldsJournal, HoldsRows, HoldsSlots, cell_bytes, entry_pieces, front_bytes, journal_bytes, row_bytes, layout_in, spelled, OfCell, IsBeside, IsWithin};

use crate::cells::write_cells;
use crate::journal::write_newest;
use crate::layout::{CELL_SIZE, NEWEST};
use crate::length::{cells_span, entries_length, newest_entry_length};
use crate::writer::{PieceWriter, put_cells};
use crate::{Span, encoded_length, write_front};
use rrd_base::{Database, database_is_valid};
use rrd_fixed::WriteFault;
use rrd_ring::Table;
use rrd_spec::first_slot_row;
use rrd_spec::laws::{rows_stand_in_slots, rows_stay_in_slots};
use std::alloc::{AllocError, Global};
use std::io::Write;

/// The bytes of a database's file, which stay in memory from one change of the database to the next.
///
/// An update changes few of them: in each archive the rows that it finished take the slots of those that were dropped.
#[derive(Drop)]
pub struct Encoded {
    bytes: Vec<u8>,
    // The offset of the first cell, and the offset after the last.
    cells_at: usize,
    cells_end: usize,
    // The last time of the database, in seconds since 1970.
    last: u64,
}

// Returns whether the file with these bytes has the newest version.
fn is_newest(bytes: &[u8]) -> bool
    ensures { IsTrue result → (version : Version) (d : Stored) → bytes.now ≡ layout_in version d → version ≡ newest }
{
    bytes.starts_with(&NEWEST)
}

// Writes the bytes before the cells.
fn encode_front<W: Write>(database: &Database, out: &mut W) -> Result<(), WriteFault>
    ensures { Writes (W.contents out.old) (W.contents out.new) (front_bytes database.now) result }
{
    let mut pieces = PieceWriter::new(out);
    write_front(&mut pieces, database)?;
    pieces.write_rest()
}

// Writes the bytes of all cells.
fn encode_cells<W: Write>(database: &Database, out: &mut W) -> Result<(), WriteFault>
    ensures { Writes (W.contents out.old) (W.contents out.new) (cell_bytes database.now.content) result }
{
    let mut pieces = PieceWriter::new(out);
    write_cells(&mut pieces, database)?;
    pieces.write_rest()
}

// Writes the bytes of the journal's newest entries, as many as `count`.
fn encode_newest<W: Write>(database: &Database, count: u64, out: &mut W) -> Result<(), WriteFault>
    requires { count ≤ length database.now.journal }
    ensures { Writes (W.contents out.old) (W.contents out.new)
        (spelled (flat_map entry_pieces (take count database.now.journal))) result }
{
    let mut pieces = PieceWriter::new(out);
    write_newest(&mut pieces, database, count)?;
    pieces.write_rest()
}

// Returns the bytes of the journal after as many updates as `updates`. `before` are those from before them: its entries stay
// behind the new ones, as many as there is room for.
fn journal_after(alloc: Global, database: &Database, updates: u64, before: &[u8]) -> Option<Vec<u8>>
    requires { HoldsJournal before.now updates database.now }
    ensures { IfSome result (λ journal. journal.items ≡ journal_bytes database.now) }
{
    let newest = updates.min(database.undoable());
    let stay = entries_length(database, newest) as usize;
    let more = newest_entry_length(database) as usize;
    let mut journal = Vec::with_capacity(alloc, more.saturating_add(stay)).ok()?;
    encode_newest(database, newest, &mut journal).ok()?;
    journal.extend_from_slice(&before[..stay]).ok()?;
    Some(journal)
}

// Writes rows, from index `from` to before `to`, over as many rows of an earlier time. Those below index `kept` stay.
// Returns how many bytes stay: those of these rows.
fn put_rows<T: Table>(
    into: &mut [u8],
    rows: &T,
    sources: u64,
    from: u64,
    to: u64,
    kept: u64,
) -> usize
    requires order { from ≤ to }
    requires there { to ≤ length (T.table rows.now) }
    requires few_rows { to ≤ present.max_rows }
    requires few_sources { sources ≤ present.max_sources }
    requires wide { AllByRecursion (HasOneEach sources) (T.table rows.now) }
    requires held { HoldsRows into.old (T.table rows.now) sources from to kept }
    ensures put { into.new ≡ row_bytes (slice_range (T.table rows.now) from to) }
    ensures within { result ≤ length into.new }
    ensures same { (k : ℕ) → k < result → slice_index into.new k ≡ slice_index into.old k }
{
    let mut index = kept.max(from).min(to);
    let stays = CELL_SIZE * ((index - from) * sources) as usize;
    while index < to {
        let (count, cells) = rows.together(index, to - index);
        let at = CELL_SIZE * ((index - from) * sources) as usize;
        put_cells(&mut into[at..at + CELL_SIZE * cells.len()], cells);
        index += count;
    }
    stays
}

// Writes the rows of an archive that ended after `last` over those that it dropped since. Returns where: at the end of the
// slots up to the newest row, and of those after it.
fn put_slots(cells: &mut [u8], database: &Database, archive: u64, last: u64) -> (Span, Span)
    requires archive_there { archive < length database.now.content.archives }
    requires held { (a : Rra) → slice_get database.now.content.archives archive ≡ Some a
        → HoldsSlots cells.old database.now.content last a }
    ensures put { (a : Rra) → slice_get database.now.content.archives archive ≡ Some a
        → cells.new ≡ spelled (map OfCell (cells_by_slot database.now.content.step database.now.content.last a)) }
    ensures newer { IsWithin (length cells.new) result.0 }
    ensures older { IsWithin (length cells.new) result.1 }
    ensures same { (k : ℕ) → IsBeside k result.0 → IsBeside k result.1 → slice_index cells.new k ≡ slice_index cells.old k }
{
    rows_stand_in_slots();
    rows_stay_in_slots();
    // The prover needs that times and numbers of rows are small.
    database_is_valid(database);
    let def = database.archive(archive);
    let resolution = def.resolution(database.step());
    let first = first_slot_row(resolution, database.last(), def.rows);
    let ended = (database.last() / resolution).saturating_sub(last / resolution);
    let kept = def.rows.saturating_sub(ended);
    let rows = database.rows(archive);
    let sources = database.sources();
    let end = cells.len();
    let middle = CELL_SIZE * ((def.rows - first) * sources) as usize;
    let (newer, older) = cells.split_at_mut(middle);
    let newer_stays = put_rows(newer, rows, sources, first, def.rows, kept);
    let older_stays = put_rows(older, rows, sources, 0, first, kept);
    let in_newer = Span {
        start: newer_stays,
        end: middle,
    };
    let in_older = Span {
        start: middle + older_stays,
        end,
    };
    (in_newer, in_older)
}

// Writes the rows of all archives that ended after `last` over those that the archives dropped since. Adds where to
// `changed`: `before` bytes come before the cells.
fn put_all_slots(
    cells: &mut [u8],
    database: &Database,
    last: u64,
    before: usize,
    changed: &mut Vec<Span>,
) -> Result<(), AllocError>
    requires held { HoldsCells cells.old database.now.content last }
    requires fits { before + length cells.old < 2 ^ 64 }
    ensures put { OnOk result (cells.new ≡ cell_bytes database.now.content) }
    ensures same { OnOk result ((k : ℕ) → All (IsBeside (before + k)) changed.new.items → slice_index cells.new k ≡ slice_index cells.old k) }
{
    rows_stand_in_slots();
    // The prover needs that numbers of rows are small.
    database_is_valid(database);
    let mut at = 0;
    for archive in 0..database.archives() {
        let count = database.archive(archive).rows * database.sources();
        let end = at + CELL_SIZE * count as usize;
        let (newer, older) = put_slots(&mut cells[at..end], database, archive, last);
        changed.push(newer.later_by(before + at))?;
        changed.push(older.later_by(before + at))?;
        at = end;
    }
    Ok(())
}

// Writes the bytes before the journal over those of an earlier time. Adds to `changed` where cells changed.
fn put_before_journal(
    bytes: &mut [u8],
    front: &[u8],
    database: &Database,
    last: u64,
    changed: &mut Vec<Span>,
) -> Result<(), AllocError>
    requires { HoldsBeforeJournal bytes.old front.now database.now.content last }
    ensures put { OnOk result (bytes.new ≡ front.now ++ cell_bytes database.now.content) }
    ensures same { OnOk result ((k : ℕ) → length front.now ≤ k → All (IsBeside k) changed.new.items → slice_index bytes.new k ≡ slice_index bytes.old k) }
{
    let (old_front, cells) = bytes.split_at_mut(front.len());
    old_front.copy_from_slice(front);
    put_all_slots(cells, database, last, front.len(), changed)
}

// Returns the number of spans that an update changes at most: two in each archive, what is before the cells, and the journal.
fn most_spans(database: &Database) -> usize {
    (database.archives() as usize)
        .saturating_mul(2)
        .saturating_add(2)
}

// Makes room behind the bytes for the entry of an update, and for some more, so that not each update has to make room.
fn make_room(bytes: &mut Vec<u8>, database: &Database) -> Result<(), AllocError>
    ensures { OnOk result (bytes.new.items ≡ bytes.old.items) }
{
    let more = newest_entry_length(database) as usize;
    if bytes.capacity() - bytes.len() < more {
        bytes.reserve_exact(more.saturating_add(bytes.len() / 16))?;
    }
    Ok(())
}

/// The bytes of a file after an update.
#[derive(Drop)]
pub struct Updated {
    /// The bytes.
    pub encoded: Encoded,
    /// Where they may differ from the bytes before the update.
    pub changed: Vec<Span>,
}

impl Encoded {
    ghost use Rattle.rrd_file.specs.Encoded.{Encodes, Precedes, bytes_in};
    ghost use Rattle.rrd_file.specs.Faults.{IsFile};
    ghost use Rattle.rrd_file.specs.Spans.{AgreesOutside};
    ghost use Rattle.rrd_file.specs.Layout.{layout};

    /// Encodes a database. Returns `None` if memory runs out.
    pub fn new(alloc: Global, database: &Database) -> Option<Encoded>
        ensures { IfSome result (λ encoded. Encodes encoded database.now) }
    {
        let mut bytes = Vec::with_capacity(alloc, encoded_length(database) as usize).ok()?;
        encode_front(database, &mut bytes).ok()?;
        let cells_at = bytes.len();
        encode_cells(database, &mut bytes).ok()?;
        let cells_end = bytes.len();
        encode_newest(database, database.undoable(), &mut bytes).ok()?;
        Some(Encoded {
            bytes,
            cells_at,
            cells_end,
            last: database.last(),
        })
    }

    /// Takes the bytes that were decoded to a database, to change them. Returns `None` if the file has an earlier version.
    pub fn of_file(bytes: Vec<u8>, database: &Database) -> Option<Encoded>
        requires { IsFile bytes.items database.now }
        ensures encodes { IfSome result (λ encoded. Encodes encoded database.now) }
        ensures bytes { IfSome result (λ encoded. bytes_in encoded ≡ bytes.items) }
    {
        if !is_newest(&bytes) {
            return None;
        }
        let cells = cells_span(database);
        Some(Encoded {
            bytes,
            cells_at: cells.start,
            cells_end: cells.end,
            last: database.last(),
        })
    }

    /// Changes the bytes to those of `database`, which is the database after as many updates as `updates`, and tells where.
    ///
    /// Writes the cells of the rows that ended since, and the new entries of the journal, so the work does not grow with
    /// the rows that stay. Returns `None` if memory runs out.
    pub fn updated(self, alloc: Global, updates: u64, database: &Database) -> Option<Updated>
        requires { Precedes self updates database.now }
        ensures encodes { IfSome result (λ updated. Encodes updated.encoded database.now) }
        ensures agrees { IfSome result (λ updated. AgreesOutside updated.changed.items (bytes_in self) (bytes_in updated.encoded)) }
    {
        let Encoded {
            mut bytes,
            cells_at,
            cells_end,
            last,
        } = self;
        let mut front = Vec::with_capacity(alloc, cells_at).ok()?;
        encode_front(database, &mut front).ok()?;
        if front.len() != cells_at {
            return None;
        }
        let mut changed = Vec::with_capacity(alloc, most_spans(database)).ok()?;
        make_room(&mut bytes, database).ok()?;
        let journal = journal_after(alloc, database, updates, &bytes[cells_end..])?;
        bytes.truncate(cells_end);
        put_before_journal(&mut bytes, &front, database, last, &mut changed).ok()?;
        bytes.extend_from_slice(&journal).ok()?;
        changed
            .push(Span {
                start: 0,
                end: cells_at,
            })
            .ok()?;
        changed
            .push(Span {
                start: cells_end,
                end: bytes.len(),
            })
            .ok()?;
        let encoded = Encoded {
            bytes,
            cells_at,
            cells_end,
            last: database.last(),
        };
        Some(Updated { encoded, changed })
    }

    /// Returns the bytes.
    pub fn as_slice(&self) -> &[u8]
        ensures bytes { result.now ≡ bytes_in self.now }
        ensures layout { (d : Stored) → Encodes self.now d → result.now ≡ layout d }
    {
        &self.bytes
    }
}
