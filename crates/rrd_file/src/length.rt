//! The size of a database's file. The size follows from the numbers of data sources, archives, rows and entries, so no
//! cell is read.
ghost use Rattle.std.specs.Prelude.{ℕ, ◌≡◌, ◌≤◌, ◌+◌, ◌*◌, drop, length};
ghost use Rattle.rrd_file.specs.Names.{AllByRecursion, flat_map, sum_by, entry_of, update_of, max_rows, max_sources, RemovedEntry, ResizeEntry, TuneEntry, UpdateEntry, present};
ghost use Rattle.rrd_file.specs.Words.{IsEntryOfSome, cell_bytes, front_bytes, entry_pieces, layout, saved_pieces, spelled, IsWide, most_of_all_saved, most_of_cells, most_of_entries, most_of_entry, most_of_front, most_of_rows, most_of_saved, max_rows_in_all, rows_of};

use crate::Span;
use crate::layout::{
    ARCHIVE_SIZE, BEFORE_TUNE_SIZE, BEFORE_UPDATE_SIZE, CELL_SIZE, COUNT_SIZE, MARK_SIZE,
    NUMBER_SIZE, PREP_SIZE, ROWS_SIZE, SECOND_HEADER_SIZE, SOURCE_SIZE, TAG_SIZE, TIME_SIZE,
    VERSION_SIZE,
};
use rrd_base::{BeforeUpdate, Database, Entry, Rra, SavedArchive, SavedSource, database_is_valid};
use rrd_ring::Archive;
use rrd_spec::laws::{cells_stand_in_slots, outlines_judge_entries};

// The size of the mark, the version and the header, in bytes.
const HEADER: u64 = (MARK_SIZE + VERSION_SIZE + SECOND_HEADER_SIZE) as u64;

// The size of a data source, in bytes.
const SOURCE: u64 = SOURCE_SIZE as u64;

// The size of an archive's settings, in bytes.
const ARCHIVE: u64 = ARCHIVE_SIZE as u64;

// The size of the partial row of one data source, in bytes.
const PREP: u64 = PREP_SIZE as u64;

// The size of a cell, in bytes.
const CELL: u64 = CELL_SIZE as u64;

// The size of a number of rows, in bytes.
const ROWS: u64 = ROWS_SIZE as u64;

// The size of an update's tag and the last time before the update, in bytes.
const UPDATE: u64 = (TAG_SIZE + TIME_SIZE) as u64;

// The size of a data source before an update, in bytes.
const BEFORE_UPDATE: u64 = BEFORE_UPDATE_SIZE as u64;

// The size of a tune's tag and the number of data sources that the tune named, in bytes.
const TUNE: u64 = (TAG_SIZE + COUNT_SIZE) as u64;

// The size of a data source before a tune, in bytes.
const BEFORE_TUNE: u64 = BEFORE_TUNE_SIZE as u64;

// The size of the tag and the archive's number, in an entry of a resize or a removal, in bytes.
const NUMBERED: u64 = (TAG_SIZE + NUMBER_SIZE) as u64;

// The size of an entry of an addition, in bytes: it has only a tag.
const ADDITION: u64 = TAG_SIZE as u64;

// Returns the size of `rows` rows with a cell for each of `sources` data sources.
fn rows_length(rows: u64, sources: u64) -> u64
    requires few_rows { rows ≤ max_rows }
    requires few_sources { sources ≤ max_sources }
    ensures count { result ≡ rows * sources * 16 }
    ensures few { result ≤ most_of_rows }
{
    rows * sources * CELL
}

// Returns the size of the values that an update replaced in an archive: partial rows, a number of rows, and those rows.
fn saved_length(saved: &SavedArchive, sources: u64) -> u64
    requires few_sources { sources ≤ max_sources }
    requires wide { IsWide sources saved.now }
    ensures count { result ≡ length (spelled (saved_pieces saved.now)) }
    ensures few { result ≤ most_of_saved }
{
    PREP * sources + ROWS + rows_length(saved.rows().len(), sources)
}

// Returns the size of the values that an update replaced in all archives.
fn all_saved_length(saved: &[SavedArchive], sources: u64) -> u64
    requires few_archives { length saved.now ≤ present.max_archives }
    requires few_sources { sources ≤ max_sources }
    requires wide { AllByRecursion (IsWide sources) saved.now }
    ensures count { result ≡ length (spelled (flat_map saved_pieces saved.now)) }
    ensures few { result ≤ most_of_all_saved }
{
    let mut length = 0;
    for archive in saved {
        length += saved_length(archive, sources);
    }
    length
}

// Returns the size of an update's entry: the tag and the last time, then the data sources, then the archives.
fn update_length(before: &BeforeUpdate) -> u64
    requires { IsEntryOfSome (UpdateEntry (update_of before.now)) }
    ensures count { result ≡ length (spelled (entry_pieces (UpdateEntry (update_of before.now)))) }
    ensures few { result ≤ most_of_entry }
{
    let sources = before.raws.len() as u64;
    UPDATE + BEFORE_UPDATE * sources + all_saved_length(&before.archives, sources)
}

// Returns the size of a tune's entry: the tag and a number of data sources, then those data sources.
fn tune_length(olds: &[SavedSource]) -> u64
    requires { IsEntryOfSome (TuneEntry olds.now) }
    ensures count { result ≡ length (spelled (entry_pieces (TuneEntry olds.now))) }
    ensures few { result ≤ most_of_entry }
{
    // The prover needs that each name is valid, and so fits its twenty bytes.
    outlines_judge_entries();
    TUNE + BEFORE_TUNE * olds.len() as u64
}

// Returns the size of a resize's entry: the tag, the archive's number and the number of rows, then those rows.
fn resize_length(old: &Archive) -> u64
    ensures count { (archive : ℕ) → result ≡ length (spelled (entry_pieces (ResizeEntry archive old.now))) }
    ensures few { result ≤ most_of_entry }
{
    NUMBERED + ROWS + rows_length(old.rows(), old.sources())
}

// Returns the size of the entry of a removed archive: the tag, the archive's number and settings, then the partial rows
// and the rows.
fn removed_length(old: &Rra) -> u64
    requires { length old.now.parts ≤ max_sources }
    ensures count { (number : ℕ) → result ≡ length (spelled (entry_pieces (RemovedEntry number old.now))) }
    ensures few { result ≤ most_of_entry }
{
    let rows = old.archive();
    let preparations = PREP * old.preps().len() as u64;
    NUMBERED + ARCHIVE + preparations + rows_length(rows.rows(), rows.sources())
}

// Returns the size of an entry.
fn entry_length(entry: &Entry) -> u64
    requires { IsEntryOfSome (entry_of entry.now) }
    ensures count { result ≡ length (spelled (entry_pieces (entry_of entry.now))) }
    ensures few { result ≤ most_of_entry }
{
    match entry {
        Entry::Update(before) => update_length(before),
        Entry::Tune(olds) => tune_length(olds.as_slice()),
        Entry::Resize { old, .. } => resize_length(old),
        Entry::Added => ADDITION,
        Entry::Removed { old, .. } => removed_length(old),
    }
}

/// Returns the size of the newest entry; 0 if there is none.
pub(crate) fn newest_entry_length(database: &Database) -> u64
    ensures { result ≤ most_of_entry }
{
    // The prover needs that the entry is one of a valid content, so that its numbers are small.
    database_is_valid(database);
    if database.undoable() == 0 {
        return 0;
    }
    entry_length(database.entry(0))
}

/// Returns the size of the entries from number `from` on. Entry 0 is the newest.
pub(crate) fn entries_length(database: &Database, from: u64) -> u64
    requires { from ≤ length database.now.journal }
    ensures count { result ≡ length (spelled (flat_map entry_pieces (drop from database.now.journal))) }
    ensures few { result ≤ most_of_entries }
{
    // The prover needs that each entry is one of a valid content, so that its numbers are small.
    database_is_valid(database);
    let mut length = 0;
    for number in from..database.undoable() {
        length += entry_length(database.entry(number));
    }
    length
}

// Returns the number of rows in all archives.
fn rows_in_all(database: &Database) -> u64
    ensures count { result ≡ sum_by rows_of database.now.content.archives }
    ensures few { result ≤ max_rows_in_all }
{
    // The prover needs that each archive has at most 1,000,000 rows.
    database_is_valid(database);
    let mut rows = 0;
    for archive in 0..database.archives() {
        rows += database.archive(archive).rows;
    }
    rows
}

// Returns the size of what is before the cells: the header, the data sources, and the headers of the archives.
fn front_length(database: &Database) -> u64
    ensures count { result ≡ length (front_bytes database.now) }
    ensures few { result ≤ most_of_front }
{
    // The prover needs that each name is valid, and so fits its twenty bytes.
    database_is_valid(database);
    let sources = database.sources();
    HEADER + SOURCE * sources + database.archives() * (ARCHIVE + PREP * sources)
}

// Returns the size of the cells of all archives.
fn cells_length(database: &Database) -> u64
    ensures count { result ≡ length (cell_bytes database.now.content) }
    ensures few { result ≤ most_of_cells }
{
    cells_stand_in_slots();
    database_is_valid(database);
    rows_in_all(database) * database.sources() * CELL
}

/// Returns where the cells of a database's file are, in bytes. No cell is read.
pub(crate) fn cells_span(database: &Database) -> Span
    ensures start { result.start ≡ length (front_bytes database.now) }
    ensures end { result.end ≡ result.start + length (cell_bytes database.now.content) }
{
    let start = front_length(database);
    Span {
        start: start as usize,
        end: (start + cells_length(database)) as usize,
    }
}

/// Returns the number of bytes that `encode` writes for a database.
///
/// The number is at least 176, and follows from the numbers of data sources, archives, rows and entries; no cell is
/// read. So a caller can reserve memory for the bytes before it writes the first byte.
pub fn encoded_length(database: &Database) -> u64
    ensures { result ≡ length (layout database.now) }
{
    front_length(database) + cells_length(database) + entries_length(database, 0)
}
