//! The constants that the writer and the reader of a file share: the mark, the versions, the sizes of pieces, the tags
//! of entries, and the number that represents an absent value.
ghost use Rattle.std.specs.Prelude.{◌≡◌, ◌≢◌, ◌*◌, ◌≤◌, IfSome, None, length, replicate};
ghost use Rattle.rrd_file.specs.Names.{flat_map, Unknown};
ghost use Rattle.rrd_file.specs.Words.{tag_said, FitsBound};
ghost use Rattle.rrd_spec.specs.declared.version.Version.{Version as SomeVersion};
ghost use Rattle.rrd_file.specs.Layout.Pieces as pieces;
ghost use Rattle.rrd_file.specs.Layout.Values as spelling;

use rrd_base::Version;
use rrd_spec::limits::MAX_SOURCES;

/// The letters at the start of a file.
pub(crate) const MARK: [u8; MARK_SIZE] = *b"RRDI";

/// The size of the mark, in bytes.
pub(crate) const MARK_SIZE: usize = 4;

/// The size of the version, in bytes.
pub(crate) const VERSION_SIZE: usize = 2;

/// The first bytes of a file of the newest version: the mark and the version.
pub(crate) const NEWEST: [u8; MARK_SIZE + VERSION_SIZE] = *b"RRDI\x00\x02";

/// The size of a header of version 1, in bytes.
pub(crate) const FIRST_HEADER_SIZE: usize = 20;

/// The size of a header of version 2, in bytes.
pub(crate) const SECOND_HEADER_SIZE: usize = 24;

/// The size of a name, in bytes: its length, its characters, and zeros.
pub(crate) const NAME_SIZE: usize = 20;

/// The size of a cell, and of any number that may be absent or negative, in bytes.
pub(crate) const CELL_SIZE: usize = 16;

/// The size of a partial step or row, in bytes: the count of known seconds or steps, and their value.
pub(crate) const PREP_SIZE: usize = 4 + CELL_SIZE;

/// The size of a data source's settings, in bytes: its name, type, heartbeat and bounds.
pub(crate) const SETTINGS_SIZE: usize = NAME_SIZE + 1 + 8 + 2 * CELL_SIZE;

/// The size of a data source, in bytes: its settings, and the values that an update replaces. No piece is larger.
pub(crate) const SOURCE_SIZE: usize = SETTINGS_SIZE + BEFORE_UPDATE_SIZE;

/// The size of an archive's settings, in bytes: its function, steps, share of unknown steps, and rows.
pub(crate) const ARCHIVE_SIZE: usize = 1 + 4 + 4 + ROWS_SIZE;

/// The size of an entry's tag, in bytes.
pub(crate) const TAG_SIZE: usize = 1;

/// The size of the last time before an update, in bytes.
pub(crate) const TIME_SIZE: usize = 8;

/// The size of a data source before an update, in bytes: its last raw value and its partial step.
pub(crate) const BEFORE_UPDATE_SIZE: usize = CELL_SIZE + PREP_SIZE;

/// The size of a number of rows, in bytes.
pub(crate) const ROWS_SIZE: usize = 4;

/// The size of the number of data sources that a tune named, in bytes.
pub(crate) const COUNT_SIZE: usize = 2;

/// The size of the number of a data source or an archive, in bytes.
pub(crate) const NUMBER_SIZE: usize = 2;

/// The size of a data source before a tune, in bytes: its number, its settings, and its last raw value.
pub(crate) const BEFORE_TUNE_SIZE: usize = NUMBER_SIZE + SETTINGS_SIZE + CELL_SIZE;

/// The number that represents an absent value: the minimum, which no value is.
const ABSENT: i128 = i128::MIN;

/// The first byte of `ABSENT`. All other bytes are zero.
const FIRST_BYTE: u8 = ((ABSENT >> 120) & 0xff) as u8;

/// The bytes of `ABSENT`. The proof of `unknown_bytes` shows that they are those of unknown cells.
const ABSENT_BYTES: [u8; CELL_SIZE] = [
    FIRST_BYTE, 0, 0, 0, 0, 0, 0, 0, 0, 0, 0, 0, 0, 0, 0, 0, //
];

/// The maximum number of cells in a row.
pub(crate) const MAX_ROW_CELLS: usize = MAX_SOURCES;

/// The bytes of a row of unknown cells.
static UNKNOWN: [[u8; CELL_SIZE]; MAX_ROW_CELLS] = [ABSENT_BYTES; MAX_ROW_CELLS];

/// Returns the bytes of `count` unknown cells, at most 64.
pub(crate) fn unknown_bytes(count: usize) -> &'static [u8]
    requires { count ≤ MAX_ROW_CELLS }
    ensures bytes { result.now ≡ flat_map spelling.cell_bytes (replicate count Unknown) }
    ensures size { length result.now ≡ CELL_SIZE * count }
{
    UNKNOWN[..count].as_flattened()
}

/// Returns the number of a version.
pub(crate) fn version_number(version: Version) -> u64
    ensures { result ≡ pieces.version_number version }
{
    match version {
        Version::One => 1,
        Version::Two => 2,
    }
}

/// Returns the version with a number.
pub(crate) fn version_of(number: u64) -> Option<Version>
    ensures some { IfSome result (λ version. pieces.version_number version ≡ number) }
    ensures none { result ≡ None → (version : SomeVersion) → pieces.version_number version ≢ number }
{
    match number {
        1 => Some(Version::One),
        2 => Some(Version::Two),
        _ => None,
    }
}

/// The kind of change that an entry undoes.
#[derive(Clone, Copy)]
pub(crate) enum Tag {
    AnUpdate,
    ATune,
    AResize,
    AnAddition,
    ARemoval,
}

/// Returns the byte of a tag.
pub(crate) fn tag_byte(tag: Tag) -> u8
    ensures { result ≡ pieces.tag_byte (tag_said tag) }
{
    match tag {
        Tag::AnUpdate => 1,
        Tag::ATune => 2,
        Tag::AResize => 3,
        Tag::AnAddition => 4,
        Tag::ARemoval => 5,
    }
}

/// Returns the tag with a byte.
pub(crate) fn tag_of(byte: u8) -> Option<Tag>
    ensures some { IfSome result (λ tag. pieces.tag_byte (tag_said tag) ≡ byte) }
    ensures none { result ≡ None → (tag : pieces.Tag) → pieces.tag_byte tag ≢ byte }
{
    match byte {
        1 => Some(Tag::AnUpdate),
        2 => Some(Tag::ATune),
        3 => Some(Tag::AResize),
        4 => Some(Tag::AnAddition),
        5 => Some(Tag::ARemoval),
        _ => None,
    }
}

/// Returns the number that is written for a value, which may be absent.
pub(crate) fn number_of(value: Option<i128>) -> i128
    ensures { result ≡ spelling.bound_number value }
{
    match value {
        None => ABSENT,
        Some(number) => number,
    }
}

/// Returns the value for which a number was written, `None` if it was absent.
pub(crate) fn value_of(number: i128) -> Option<i128>
    ensures spelled { spelling.bound_number result ≡ number }
    ensures fits { FitsBound result }
{
    if number == ABSENT {
        return None;
    }
    Some(number)
}
