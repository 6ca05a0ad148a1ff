//! Numbers of rows: those of all archives, and those that end between two times.
ghost use Rattle.std.specs.Prelude.{◌≡◌, ℕ, ◌-◌, ◌<◌, ◌^◌, ◌≤◌, map, min, sum};
ghost use Rattle.rrd_base.specs.Names.{rows_between, present};

use crate::RraDef;

/// A type with a number of rows: an archive, or the settings of one.
pub(crate) trait HasRows {
    /// The number of rows that contracts see.
    ghost rows_of: { Self → ℕ };

    /// Returns the number of rows.
    fn row_count(&self) -> u64
        ensures { result ≡ rows_of self.now };
}

impl HasRows for RraDef {
    ghost rows_of = { λ def. def.rows };

    fn row_count(&self) -> u64 {
        self.rows
    }
}

/// Returns the number of rows in all archives, at most 2^64 - 1.
pub(crate) fn all_rows<T: HasRows>(archives: &[T]) -> u64
    ensures { result ≡ min (sum (map T.rows_of archives.now)) (2 ^ 64 - 1) }
{
    let mut rows: u64 = 0;
    for archive in archives {
        rows = rows.saturating_add(archive.row_count());
    }
    rows
}

/// Returns how many rows of an archive end after `from`, up to `to`, in steps of `step` seconds.
pub(crate) fn rows_between(def: &RraDef, step: u64, from: u64, to: u64) -> u64
    requires some_step { 0 < step }
    requires small_step { step ≤ present.max_step_seconds }
    requires some_steps { 0 < def.now.steps }
    requires few_steps { def.now.steps ≤ present.max_steps_per_row }
    ensures { result ≡ rows_between step def.now from to }
{
    let resolution = def.resolution(step);
    (to / resolution).saturating_sub(from / resolution)
}
