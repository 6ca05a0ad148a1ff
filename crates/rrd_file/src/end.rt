//! Finds the end of the database with which bytes begin.
//!
//! The numbers of data sources, archives, rows and entries lead there. No other value is read, and nothing is judged.
ghost use Rattle.std.specs.Prelude.{◌≡◌, ◌+◌, ◌<◌, ◌≤◌, ◌^◌, drop};
ghost use Rattle.rrd_file.specs.Words.{tag_said};
ghost use Rattle.rrd_file.specs.End as end;
ghost use Rattle.rrd_file.specs.Stages as stages;

use crate::header::header_length;
use crate::layout::{
    ARCHIVE_SIZE, BEFORE_TUNE_SIZE, BEFORE_UPDATE_SIZE, CELL_SIZE, COUNT_SIZE, MARK_SIZE,
    NUMBER_SIZE, PREP_SIZE, ROWS_SIZE, SOURCE_SIZE, TIME_SIZE, Tag, VERSION_SIZE, tag_of,
    version_of,
};
use crate::values::{four_of, two_of};
use rrd_base::Version;

// The offset of the number of rows in an archive's settings.
const ROWS_AT: usize = ARCHIVE_SIZE - ROWS_SIZE;

// The size of the step and the last time in a header.
const STEP_AND_TIME: usize = 4 + TIME_SIZE;

// Returns the bytes after the first `size` bytes.
fn after(bytes: &[u8], size: usize) -> &[u8]
    ensures { result.now ≡ drop size bytes.now }
{
    if bytes.len() <= size {
        return &[];
    }
    &bytes[size..]
}

// Returns the number in the first two bytes; 0 if there are fewer bytes.
fn two_in(bytes: &[u8]) -> usize
    ensures number { result ≡ end.two_in bytes.now }
    ensures small { result < 2 ^ 16 }
{
    if bytes.len() < 2 {
        return 0;
    }
    two_of(bytes).0 as usize
}

// Returns the number in the first four bytes; 0 if there are fewer bytes.
fn four_in(bytes: &[u8]) -> usize
    ensures number { result ≡ end.four_in bytes.now }
    ensures small { result < 2 ^ 32 }
{
    if bytes.len() < 4 {
        return 0;
    }
    four_of(bytes).0 as usize
}

// Returns the count in the first bytes; 0 if there are fewer bytes.
fn count_in(version: Version, bytes: &[u8]) -> usize
    ensures number { result ≡ end.count_in version bytes.now }
    ensures small { result < 2 ^ 32 }
{
    match version {
        Version::One => two_in(bytes),
        Version::Two => four_in(bytes),
    }
}

// Returns the size of a count in the header of a version.
fn count_size(version: Version) -> usize
    ensures size { result ≡ stages.count_size version }
    ensures small { result ≤ 4 }
{
    match version {
        Version::One => 2,
        Version::Two => 4,
    }
}

// Returns the size of `rows` rows with a cell for each of `sources` data sources.
fn rows_size(sources: usize, rows: usize) -> usize
    requires few_sources { sources < 2 ^ 16 }
    requires few_rows { rows < 2 ^ 32 }
    ensures size { result ≡ end.rows_size sources rows }
    ensures small { result < 2 ^ 52 }
{
    rows * sources * CELL_SIZE
}

// Returns the size of an archive's settings and partial rows.
fn head_size(sources: usize) -> usize
    requires { sources < 2 ^ 16 }
    ensures size { result ≡ end.head_size sources }
    ensures small { result < 2 ^ 21 }
{
    ARCHIVE_SIZE + PREP_SIZE * sources
}

// Returns the bytes after the cells of archives, whose settings `heads` begins with; `cells` begins with the cells.
fn after_cells<'a>(sources: usize, archives: usize, heads: &[u8], cells: &'a [u8]) -> &'a [u8]
    requires { sources < 2 ^ 16 }
    ensures { result.now ≡ end.after_cells sources archives heads.now cells.now }
{
    let mut next = heads;
    let mut rest = cells;
    for _ in 0..archives {
        rest = after(rest, rows_size(sources, four_in(after(next, ROWS_AT))));
        next = after(next, head_size(sources));
    }
    rest
}

// Returns the bytes after a number of rows at an offset, `more` bytes, and those rows.
fn after_rows(sources: usize, at: usize, more: usize, bytes: &[u8]) -> &[u8]
    requires few_sources { sources < 2 ^ 16 }
    requires early { at < 2 ^ 32 }
    requires few { more < 2 ^ 32 }
    ensures { result.now ≡ end.after_rows sources at more bytes.now }
{
    let rows = four_in(after(bytes, at));
    after(bytes, at + ROWS_SIZE + more + rows_size(sources, rows))
}

// Returns the bytes after what an update replaced in `archives` archives.
fn after_all_saved(sources: usize, archives: usize, bytes: &[u8]) -> &[u8]
    requires { sources < 2 ^ 16 }
    ensures { result.now ≡ end.after_all_saved sources archives bytes.now }
{
    let mut rest = bytes;
    for _ in 0..archives {
        rest = after_rows(sources, PREP_SIZE * sources, 0, rest);
    }
    rest
}

// Returns the bytes after an entry, from those after its tag.
fn after_tag(sources: usize, archives: usize, tag: Tag, bytes: &[u8]) -> &[u8]
    requires { sources < 2 ^ 16 }
    ensures { result.now ≡ end.after_tag sources archives (tag_said tag) bytes.now }
{
    match tag {
        Tag::AnUpdate => {
            let archives_at = TIME_SIZE + BEFORE_UPDATE_SIZE * sources;
            after_all_saved(sources, archives, after(bytes, archives_at))
        }
        Tag::ATune => after(bytes, COUNT_SIZE + BEFORE_TUNE_SIZE * two_in(bytes)),
        Tag::AResize => after_rows(sources, NUMBER_SIZE, 0, bytes),
        Tag::AnAddition => bytes,
        Tag::ARemoval => after_rows(sources, NUMBER_SIZE + ROWS_AT, PREP_SIZE * sources, bytes),
    }
}

// Returns the number of archives before a change.
fn archives_before(archives: usize, tag: Tag) -> usize
    requires { archives < 2 ^ 48 }
    ensures number { result ≡ end.archives_before archives (tag_said tag) }
    ensures small { result ≤ archives + 1 }
{
    match tag {
        Tag::AnAddition => archives.saturating_sub(1),
        Tag::ARemoval => archives + 1,
        _ => archives,
    }
}

// Returns the bytes after the entries, newest first.
fn after_entries(sources: usize, archives: usize, entries: usize, bytes: &[u8]) -> &[u8]
    requires few_sources { sources < 2 ^ 16 }
    requires few_archives { archives < 2 ^ 16 }
    requires few_entries { entries < 2 ^ 32 }
    ensures { result.now ≡ end.after_entries sources archives entries bytes.now }
{
    let mut count = archives;
    let mut rest = bytes;
    for _ in 0..entries {
        if rest.is_empty() {
            return rest;
        }
        let Some(tag) = tag_of(rest[0]) else {
            return &[];
        };
        rest = after_tag(sources, count, tag, after(rest, 1));
        count = archives_before(count, tag);
    }
    rest
}

// Returns the bytes after the data sources, the archives and the entries.
fn after_body(sources: usize, archives: usize, entries: usize, bytes: &[u8]) -> &[u8]
    requires few_sources { sources < 2 ^ 16 }
    requires few_archives { archives < 2 ^ 16 }
    requires few_entries { entries < 2 ^ 32 }
    ensures { result.now ≡ end.after_body sources archives entries bytes.now }
{
    let heads = after(bytes, SOURCE_SIZE * sources);
    let cells = after(heads, archives * head_size(sources));
    let journal = after_cells(sources, archives, heads, cells);
    after_entries(sources, archives, entries, journal)
}

// Returns the bytes after the database, from those after its version.
fn after_version(version: Version, bytes: &[u8]) -> &[u8]
    ensures { result.now ≡ end.after_version version bytes.now }
{
    let counts = after(bytes, STEP_AND_TIME + count_size(version));
    let sources = two_in(counts);
    let archives = two_in(after(counts, 2));
    let entries = count_in(version, after(counts, 4));
    after_body(
        sources,
        archives,
        entries,
        after(bytes, header_length(version)),
    )
}

// Returns the bytes after the database.
fn after_database(bytes: &[u8]) -> &[u8]
    ensures { result.now ≡ end.after_database bytes.now }
{
    match version_of(two_in(after(bytes, MARK_SIZE)) as u64) {
        Some(version) => after_version(version, after(bytes, MARK_SIZE + VERSION_SIZE)),
        None => &[],
    }
}

/// Returns the length of the database with which bytes begin, whatever follows the database.
///
/// Reads only the numbers that say how long the parts are, and judges nothing. If the bytes begin with no database, the result
/// is some number, at most the number of bytes. Does not allocate.
pub fn file_end(bytes: &[u8]) -> usize
    ensures { result ≡ end.file_end bytes.now }
{
    bytes.len().saturating_sub(after_database(bytes).len())
}
