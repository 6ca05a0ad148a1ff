//! The cells of databases.
ghost use Rattle.std.specs.Prelude.{◌≤◌};

use rrd_base::Database;
use rrd_fixed::Cell;
use std::process::Abort;
use test_data::difference::first_difference;

pub(crate) const NONE: Cell = Cell::Unknown;

// The cell of an archive's row at a time; unknown if there is no such row.
pub(crate) fn cell(
    rt: &impl Abort,
    database: &Database,
    archive: u64,
    time: i64,
    source: u64,
) -> Cell {
    assert!(rt; archive < database.archives());
    assert!(rt; source < database.sources());
    match database.row(archive, time) {
        Some(row) => row[source as usize].cell(),
        None => NONE,
    }
}

// The first archive's rows of the first source from a time on, `apart` seconds each, have these
// values. The one before and the one after are unknown.
pub(crate) fn assert_rows(
    rt: &impl Abort,
    database: &Database,
    first: i64,
    apart: i64,
    rows: &[i128],
) {
    let mut time = first.saturating_sub(apart);
    assert_eq!(rt; cell(rt, database, 0, time, 0), NONE, "at {time}");
    for row in rows {
        time = time.saturating_add(apart);
        let shown = cell(rt, database, 0, time, 0);
        let wanted = Cell::Known(row.saturating_mul(1_000_000));
        assert_eq!(rt; shown, wanted, "at {time}");
    }
    time = time.saturating_add(apart);
    assert_eq!(rt; cell(rt, database, 0, time, 0), NONE, "at {time}");
}

// A file has these bytes.
pub(crate) fn assert_bytes(rt: &impl Abort, file: &[u8], wanted: &[u8], case: &str) {
    assert_eq!(rt; first_difference(file, wanted), None, "{case}");
}

// What a writer took is the front of a text that it has room for.
pub(crate) fn assert_front(rt: &impl Abort, taken: &[u8], text: &[u8], room: usize) {
    let front = text.get(..room).unwrap_or(text);
    assert_eq!(rt; taken, front, "{room}");
}
