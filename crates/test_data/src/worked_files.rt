//! The bytes of files, worked out by hand, and the databases that they are of.
use crate::joined;
use crate::plans::NEW;
use rrd_base::Database;
use rrd_file::{FileFault, encode};
use std::alloc::{AllocError, Global};
use std::test::Fail;

// ---- bytes

// Sixteen bytes: what is unknown or absent, and numbers.
pub const ABSENT: [u8; 16] = [0x80, 0, 0, 0, 0, 0, 0, 0, 0, 0, 0, 0, 0, 0, 0, 0];

const ZERO: [u8; 16] = [0; 16];

const MILLION: [u8; 16] = [0, 0, 0, 0, 0, 0, 0, 0, 0, 0, 0, 0, 0, 0x0f, 0x42, 0x40];

const TWO_MILLION: [u8; 16] = [0, 0, 0, 0, 0, 0, 0, 0, 0, 0, 0, 0, 0, 0x1e, 0x84, 0x80];

const TEN_MILLION: [u8; 16] = [0, 0, 0, 0, 0, 0, 0, 0, 0, 0, 0, 0, 0, 0x98, 0x96, 0x80];

const MINUS_TWO_MILLION: [u8; 16] = [
    0xff, 0xff, 0xff, 0xff, 0xff, 0xff, 0xff, 0xff, 0xff, 0xff, 0xff, 0xff, 0xff, 0xe1, 0x7b, 0x80,
];

const MINUS_TEN_MILLION: [u8; 16] = [
    0xff, 0xff, 0xff, 0xff, 0xff, 0xff, 0xff, 0xff, 0xff, 0xff, 0xff, 0xff, 0xff, 0x67, 0x69, 0x80,
];

const FIFTY: [u8; 16] = [0, 0, 0, 0, 0, 0, 0, 0, 0, 0, 0, 0, 0, 0, 0, 0x32];

const FOUR_AND_A_HALF_MILLION: [u8; 16] = [0, 0, 0, 0, 0, 0, 0, 0, 0, 0, 0, 0, 0, 0x44, 0xaa, 0x20];

// What fills a name of one character up to twenty bytes.
const PADDING: [u8; 18] = [0; 18];

// An empty preparation: no known cell, and nothing that it comes to.
pub const NOTHING: [u8; 20] = [0; 20];

// The file of a database.
pub fn file_of(alloc: Global, database: &Database) -> Result<Vec<u8>, Fail> {
    let mut bytes = Vec::new(alloc);
    if encode(database, &mut bytes).is_err() {
        return Err(Fail::from("no file"));
    }
    Ok(bytes)
}

// How a file begins.
const BEGIN: &[&[u8]] = &[
    b"RRDI", // mark
    &[0x00, 0x02], // version
    &[0x00, 0x00, 0x00, 0x0a], // step
];

// The gauge `g`, up to its last raw value.
const GAUGE: &[&[u8]] = &[
    &[0x01, 0x67], // name
    &PADDING, //
    &[0x00], // type
    &[0x00, 0, 0, 0, 0, 0, 0, 0x64], // heartbeat
    &ABSENT, // min
    &ABSENT, // max
];

// Between steps: known seconds, and their sum.
const BETWEEN_STEPS: &[&[u8]] = &[&[0x00, 0x00, 0x00, 0x00], &ZERO];

// An archive of four rows, between two of them.
const ARCHIVE: &[&[u8]] = &[
    &[0x03], // function
    &[0x00, 0x00, 0x00, 0x01], // steps
    &[0x00, 0x07, 0xa1, 0x20], // xff
    &[0x00, 0x00, 0x00, 0x04], // rows
    &[0x00, 0x00, 0x00, 0x00], // known steps
    &ZERO, // their value
];

const FOUR_UNKNOWN: &[&[u8]] = &[&ABSENT, &ABSENT, &ABSENT, &ABSENT];

// The file of a new database with the gauge `g` and an archive of four rows.
pub const NEW_FILE: &[&[&[u8]]] = &[
    BEGIN,
    &[&[0x00, 0, 0, 0, 0, 0, 0, 0x00], &[0x00, 0x00, 0x00, 0x10]], // last time and depth
    &[&[0x00, 0x01], &[0x00, 0x01], &[0x00, 0x00, 0x00, 0x00]], // sources, archives and entries
    GAUGE,
    &[&ABSENT], // last raw value
    BETWEEN_STEPS,
    ARCHIVE,
    FOUR_UNKNOWN, // slots 0 to 3
];

pub fn new_file(alloc: Global) -> Result<Vec<u8>, AllocError> {
    joined_parts(alloc, NEW_FILE)
}

// The same after a sample of 1 at 10.
pub const SAMPLED_FILE: &[&[&[u8]]] = &[
    BEGIN,
    &[&[0x00, 0, 0, 0, 0, 0, 0, 0x0a], &[0x00, 0x00, 0x00, 0x10]], // last time and depth
    &[&[0x00, 0x01], &[0x00, 0x01], &[0x00, 0x00, 0x00, 0x01]], // sources, archives and entries
    GAUGE,
    &[&MILLION], // last raw value
    BETWEEN_STEPS,
    ARCHIVE,
    &[&ABSENT, &MILLION, &ABSENT, &ABSENT], // slots 0 to 3: the row at 10 in slot 1
    &[
        &[0x01], // entry: an update
        &[0x00, 0, 0, 0, 0, 0, 0, 0x00], // last time before
        &ABSENT, // last raw value before
        &NOTHING, // preparation of the step before
        &NOTHING, // preparation of the row before
        &[0x00, 0x00, 0x00, 0x01], // one row
        &ABSENT, // its cell
    ],
];

pub fn sampled_file(alloc: Global) -> Result<Vec<u8>, AllocError> {
    joined_parts(alloc, SAMPLED_FILE)
}

// The pieces of all parts, one behind another.
pub fn joined_parts(alloc: Global, parts: &[&[&[u8]]]) -> Result<Vec<u8>, AllocError> {
    let mut bytes = Vec::new(alloc);
    for pieces in parts {
        bytes.extend_from_slice(&joined(alloc, pieces)?)?;
    }
    Ok(bytes)
}

// Rows before 1970 in their slots.
pub const ROWS_BEFORE_1970: &[&[&[u8]]] = &[
    BEGIN,
    &[&[0x00, 0, 0, 0, 0, 0, 0, 0x23], &[0x00, 0x00, 0x00, 0x02]], // last time and depth
    &[&[0x00, 0x02], &[0x00, 0x02], &[0x00, 0x00, 0x00, 0x01]], // sources, archives and entries
    // the source a: five seconds of 2 are known
    &[&[0x01, 0x61], &PADDING, &[0x00]],
    &[&[0x00, 0, 0, 0, 0, 0, 0, 0x64], &ABSENT, &ABSENT],
    &[&TWO_MILLION, &[0x00, 0x00, 0x00, 0x05], &TEN_MILLION],
    // the source b: five seconds of -2 are known
    &[&[0x01, 0x62], &PADDING, &[0x02]],
    &[&[0x00, 0, 0, 0, 0, 0, 0, 0x64], &MINUS_TEN_MILLION],
    &[&FOUR_AND_A_HALF_MILLION, &FIFTY],
    &[&[0x00, 0x00, 0x00, 0x05], &MINUS_TEN_MILLION],
    // the head of the first archive, between rows
    &[&[0x03], &[0x00, 0x00, 0x00, 0x01]],
    &[&[0x00, 0x07, 0xa1, 0x20], &[0x00, 0x00, 0x00, 0x06]],
    &[&NOTHING, &NOTHING],
    // of the second, with one step of the next row
    &[&[0x02], &[0x00, 0x00, 0x00, 0x02]],
    &[&[0x00, 0x07, 0xa1, 0x20], &[0x00, 0x00, 0x00, 0x03]],
    &[&[0x00, 0x00, 0x00, 0x01], &TWO_MILLION],
    &[&[0x00, 0x00, 0x00, 0x01], &MINUS_TWO_MILLION],
    // slots 0 to 5: the rows at 0, 10, 20, 30, -20 and -10
    &[&ABSENT, &ABSENT],
    &[&MILLION, &ABSENT],
    &[&TWO_MILLION, &MINUS_TWO_MILLION],
    &[&TWO_MILLION, &MINUS_TWO_MILLION],
    FOUR_UNKNOWN,
    // slots 0 to 2: the rows at 0, 20 and -20
    &[&ABSENT, &ABSENT],
    &[&TWO_MILLION, &MINUS_TWO_MILLION],
    &[&ABSENT, &ABSENT],
    // the entry: before the update nothing was known; three rows and one row fell out
    &[&[0x01], &[0x00, 0, 0, 0, 0, 0, 0, 0x00]],
    &[&ABSENT, &NOTHING, &ABSENT, &NOTHING],
    &[&NOTHING, &NOTHING, &[0x00, 0x00, 0x00, 0x03]],
    &[&ABSENT, &ABSENT],
    FOUR_UNKNOWN,
    &[&NOTHING, &NOTHING, &[0x00, 0x00, 0x00, 0x01]],
    &[&ABSENT, &ABSENT],
];

// Three entries, the newest first.
pub const THREE_ENTRIES: &[&[&[u8]]] = &[
    BEGIN,
    &[&[0x00, 0, 0, 0, 0, 0, 0, 0x0a], &[0x00, 0x00, 0x00, 0x10]], // last time and depth
    &[&[0x00, 0x01], &[0x00, 0x01], &[0x00, 0x00, 0x00, 0x03]], // sources, archives and entries
    // the source, as it was tuned
    &[&[0x01, 0x67], &PADDING, &[0x00]],
    &[&[0x00, 0, 0, 0, 0, 0, 0, 0xc8], &MINUS_TWO_MILLION],
    &[&ABSENT, &MILLION, &NOTHING],
    // the archive, with six rows
    &[&[0x03], &[0x00, 0x00, 0x00, 0x01]],
    &[&[0x00, 0x07, 0xa1, 0x20], &[0x00, 0x00, 0x00, 0x06]],
    &[&NOTHING],
    // slots 0 to 5: the rows at 0, 10, -40, -30, -20 and -10
    &[&ABSENT, &MILLION],
    FOUR_UNKNOWN,
    // the resize: archive 0 had four rows, those from -20 to 10
    &[&[0x03], &[0x00, 0x00], &[0x00, 0x00, 0x00, 0x04]],
    &[&ABSENT, &ABSENT, &ABSENT, &MILLION],
    // the tune: one source, number 0, with its name, type, heartbeat, bounds and raw value
    &[&[0x02], &[0x00, 0x01], &[0x00, 0x00]],
    &[&[0x01, 0x67], &PADDING, &[0x00]],
    &[&[0x00, 0, 0, 0, 0, 0, 0, 0x64], &ABSENT, &ABSENT],
    &[&MILLION],
    // the update
    &[&[0x01], &[0x00, 0, 0, 0, 0, 0, 0, 0x00]],
    &[&ABSENT, &NOTHING, &NOTHING],
    &[&[0x00, 0x00, 0x00, 0x01], &ABSENT],
];

// A second archive like the first.
pub const ONE_ADDED: &[&[&[u8]]] = &[
    BEGIN,
    &[&[0x00, 0, 0, 0, 0, 0, 0, 0x00], &[0x00, 0x00, 0x00, 0x10]], // last time and depth
    &[&[0x00, 0x01], &[0x00, 0x02], &[0x00, 0x00, 0x00, 0x01]], // sources, archives and entries
    GAUGE,
    &[&ABSENT], // last raw value
    BETWEEN_STEPS,
    ARCHIVE,
    ARCHIVE,
    FOUR_UNKNOWN, // slots 0 to 3 of the first
    FOUR_UNKNOWN, // of the second
    &[&[0x04]], // an archive was added
];

// The first one is gone: the journal keeps it as it was.
pub const ONE_ARCHIVE_REMOVED: &[&[&[u8]]] = &[
    BEGIN,
    &[&[0x00, 0, 0, 0, 0, 0, 0, 0x00], &[0x00, 0x00, 0x00, 0x10]], // last time and depth
    &[&[0x00, 0x01], &[0x00, 0x01], &[0x00, 0x00, 0x00, 0x02]], // sources, archives and entries
    GAUGE,
    &[&ABSENT], // last raw value
    BETWEEN_STEPS,
    ARCHIVE,
    FOUR_UNKNOWN, // slots 0 to 3
    &[&[0x05], &[0x00, 0x00]], // an archive was removed, and its number
    ARCHIVE,
    FOUR_UNKNOWN, // its rows
    &[&[0x04]], // an archive was added
];

// A gauge with a heartbeat of 100 seconds and no bounds, behind its name.
const UNBOUNDED: &[&[u8]] = &[
    &PADDING, // of its name
    &[0x00], // type
    &[0x00, 0, 0, 0, 0, 0, 0, 0x64], // heartbeat
    &ABSENT, // min
    &ABSENT, // max
    &ABSENT, // last raw value
];

// Of two sources the first one has a new name.
pub const ONE_RENAMED: &[&[&[u8]]] = &[
    BEGIN,
    &[&[0x00, 0, 0, 0, 0, 0, 0, 0x00], &[0x00, 0x00, 0x00, 0x10]], // last time and depth
    &[&[0x00, 0x02], &[0x00, 0x01], &[0x00, 0x00, 0x00, 0x01]], // sources, archives and entries
    &[&[0x01, 0x63]], // the name c
    UNBOUNDED,
    BETWEEN_STEPS,
    &[&[0x01, 0x62]], // the name b
    UNBOUNDED,
    BETWEEN_STEPS,
    ARCHIVE,
    &[&NOTHING], // its preparation for the second source
    FOUR_UNKNOWN, // slots 0 and 1
    FOUR_UNKNOWN, // slots 2 and 3
    &[
        &[0x02], // entry: a tune
        &[0x00, 0x01], // of one source
        &[0x00, 0x00], // the first one
        &[0x01, 0x61], // its name before, a
    ],
    UNBOUNDED,
];

pub fn renamed_file(alloc: Global) -> Result<Vec<u8>, AllocError> {
    joined_parts(alloc, ONE_RENAMED)
}

// ---- databases

pub const SAMPLED: &str = "create --step 10 --start 0 DS:g:GAUGE:100:U:U RRA:LAST:0.5:1:4
update 10:1";

pub const TAKEN_BACK: &str = "create --step 10 --start 0 DS:g:GAUGE:100:U:U RRA:LAST:0.5:1:4
update 10:1
revert";

// A sample of 1 at 10, a tune to a heartbeat of 200 and a least rate of -2, and two rows more.
pub const THREE_CHANGES: &str = "create --step 10 --start 0 DS:g:GAUGE:100:U:U RRA:LAST:0.5:1:4
update 10:1
tune --heartbeat g:200 --minimum g:-2
resize 0 GROW 2";

// Two archives and two sources: a gauge, and one that counts up and down and has bounds.
pub const TWO_SOURCES: &str = "create --step 10 --start 0 --journal 2 DS:a:GAUGE:100:U:U \
DS:b:DERIVE:100:-10:4.5 RRA:LAST:0.5:1:6 RRA:MAX:0.5:2:3";

// Samples at 10 (a 1, b 100) and at 35 (a 2, b 50). So b falls by 2 a second from 10 on. The rows at
// -20 and -10 of the first archive stand in the slots 4 and 5, the row at -20 of the second in slot 2.
pub const TWO_SOURCES_SAMPLED: &str = "create --step 10 --start 0 --journal 2 DS:a:GAUGE:100:U:U \
DS:b:DERIVE:100:-10:4.5 RRA:LAST:0.5:1:6 RRA:MAX:0.5:2:3
update 10:1:100 35:2:50";

// A long update, a renaming, a short update, and two rows less.
pub const FOUR_CHANGES: &str = "create --step 10 --start 0 --journal 3 DS:s00:GAUGE:1000:U:U \
DS:s01:GAUGE:1000:U:U RRA:AVERAGE:0.5:1:6 RRA:MIN:0.5:2:3
update 10:1:100 35:2:50 121:7:3
tune --heartbeat s01:300 --data-source-rename s00:first
update 144:9:4
resize 0 SHRINK 2";

// A row of four steps, two of which have come.
pub const HALF_A_ROW: &str = "create --step 10 --start 0 DS:g:GAUGE:100:U:U RRA:AVERAGE:0.5:4:3
update 20:1";

pub const DATABASES: &[&str] = &[NEW, SAMPLED, TWO_SOURCES, THREE_CHANGES, HALF_A_ROW];

// A second archive is added, and then the first one is removed.
pub const ADDED: &str = "create --step 10 --start 0 DS:g:GAUGE:100:U:U RRA:LAST:0.5:1:4
tune RRA:LAST:0.5:1:4";

pub const REMOVED: &str = "create --step 10 --start 0 DS:g:GAUGE:100:U:U RRA:LAST:0.5:1:4
tune RRA:LAST:0.5:1:4
tune DELRRA:0";

pub const RENAMED: &str = "create --step 10 --start 0 DS:a:GAUGE:100:U:U DS:b:GAUGE:100:U:U \
RRA:LAST:0.5:1:4
tune --data-source-rename a:c";

// Archives come and go among other changes, in the middle of steps and of rows.
pub const ARCHIVES_CHANGED: &str = "create --step 10 --start 0 DS:a:GAUGE:100:U:U \
DS:b:COUNTER:100:U:U RRA:LAST:0.5:3:4
update 13:1:5 27:2:9
tune RRA:AVERAGE:0.5:2:3
update 44:3:12
resize 0 GROW 2
tune DELRRA:0
update 71:4:20
tune --data-source-rename a:c
tune RRA:MAX:0:1:2
tune DELRRA:0";

// ---- files that are changed

// The bytes with another one at a place.
pub fn changed(alloc: Global, bytes: &[u8], at: usize, byte: u8) -> Result<Vec<u8>, Fail> {
    let mut copy = joined(alloc, &[bytes])?;
    *copy.get_mut(at).ok_or("short")? = byte;
    Ok(copy)
}

// A file in the first version, of one in the second: its counts have two bytes.
pub fn in_first_version(alloc: Global, bytes: &[u8]) -> Result<Vec<u8>, Fail> {
    let times = bytes.get(6..18).ok_or("short")?;
    let depth = bytes.get(20..26).ok_or("short")?;
    let rest = bytes.get(28..).ok_or("short")?;
    Ok(joined(alloc, &[b"RRDI\0\x01", times, depth, rest])?)
}

// ---- the texts of faults

pub const FILE_FAULTS: &[(FileFault, &str)] = &[
    (FileFault::NotOurs, "file: not ours"),
    (FileFault::Version, "file: version"),
    (FileFault::Truncated { at: 0 }, "file: truncated at 0"),
    (FileFault::BadBlock { at: 26 }, "file: bad block at 26"),
    (FileFault::BadEntry { number: 1 }, "file: bad entry 1"),
    (
        FileFault::Trailing {
            at: 18_446_744_073_709_551_615,
        },
        "file: trailing at 18446744073709551615",
    ),
    (FileFault::Read, "file: read failed"),
    (FileFault::OutOfMemory, "out of memory"),
];
