//! The order of an archive's rows in a file.
ghost use Rattle.std.specs.Prelude.{◌≡◌, ◌<◌, ◌≤◌};
ghost use Rattle.rrd_spec.specs.Words.{place_in, present};

/// Returns the index of the row that a file stores in slot 0 of an archive.
///
/// Index 0 is the oldest row. The archive has `rows` rows (1 to 1,000,000) of `resolution` seconds each (1 or more);
/// `last` is the database's last time (0 to 9,999,999,999, in seconds since 1970). The slots after slot 0 have the rows
/// after it, up to the newest; the oldest row and the rows after it follow.
pub fn first_slot_row(resolution: u64, last: u64, rows: u64) -> u64
    requires some_seconds { 0 < resolution }
    requires in_time { last ≤ present.max_time }
    requires some_rows { 0 < rows }
    requires few_rows { rows ≤ present.max_rows }
    ensures place { result ≡ place_in resolution last rows 0 }
    ensures there { result < rows }
{
    (rows - (last / resolution + 1) % rows) % rows
}
