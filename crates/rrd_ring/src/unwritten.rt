//! The row that stands for rows that were never written.
ghost use Rattle.std.specs.Prelude.{◌≡◌, ◌≤◌, length, replicate, IfOk};
ghost use Rattle.rrd_fixed.specs.declared.cell.Cell.TheVariants.{Unknown};
ghost use Rattle.rrd_ring.specs.Rows.{max_sources};

use crate::dropped::DroppedCells;
use rrd_fixed::StoredCell;
use std::alloc::{AllocError, Global};
use std::marker::Model;

// A row of unknown cells. Contracts see their number.
#[derive(Debug, Drop)]
pub(crate) struct UnwrittenRow {
    cells: DroppedCells,
}

impl Model for UnwrittenRow {
    ghost use Rattle.std.specs.Prelude.{◌≡◌, ℕ, length, replicate};
    ghost use Rattle.rrd_fixed.specs.declared.cell.Cell.TheVariants.{Unknown};

    ghost Value = { ℕ };

    ghost view = { λ a. length a.cells.items };

    ghost invariant = { λ a. a.cells.items ≡ replicate (length a.cells.items) Unknown };
}

impl UnwrittenRow {
    // Creates a row of `sources` unknown cells.
    pub(crate) fn new(alloc: Global, sources: usize) -> Result<UnwrittenRow, AllocError>
        requires { sources ≤ max_sources }
        ensures { IfOk result (λ row. row ≡ sources) }
    {
        let mut cells = DroppedCells::with_capacity(alloc, sources)?;
        cells.resize(sources, StoredCell::unknown())?;
        Ok(UnwrittenRow { cells })
    }

    // Returns the number of cells.
    pub(crate) fn len(&self) -> usize
        ensures { result ≡ self.now }
    {
        self.cells.len()
    }

    // Returns `count` of the cells.
    pub(crate) fn front(&self, count: usize) -> &[StoredCell]
        requires { count ≤ self.now }
        ensures { result.now ≡ replicate count Unknown }
    {
        &self.cells.as_slice()[..count]
    }
}
