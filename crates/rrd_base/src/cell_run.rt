//! Runs of consecutive cells.
ghost use Rattle.std.specs.Prelude.{◌≡◌, ◌≤◌, length, take};
ghost use Rattle.rrd_base.specs.Words.{run_cells};

use rrd_fixed::StoredCell;

/// A run of consecutive cells.
#[derive(Clone, Copy)]
pub(crate) enum CellRun<'a> {
    /// The cells of this slice.
    Given(&'a [StoredCell]),
    /// The number of unknown cells.
    Unknown(usize),
}

impl<'a> CellRun<'a> {
    /// Returns the number of cells.
    pub(crate) fn len(self) -> usize
        ensures { result ≡ length (run_cells self.entry) }
    {
        match self {
            CellRun::Given(cells) => cells.len(),
            CellRun::Unknown(count) => count,
        }
    }

    /// Returns the first `count` cells.
    pub(crate) fn front(self, count: usize) -> CellRun<'a>
        requires { count ≤ length (run_cells self) }
        ensures { run_cells result ≡ take count (run_cells self.entry) }
    {
        match self {
            CellRun::Given(cells) => CellRun::Given(&cells[..count]),
            CellRun::Unknown(_) => CellRun::Unknown(count),
        }
    }
}
