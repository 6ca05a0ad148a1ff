//! Cells as archives keep them.
ghost use Rattle.std.specs.Prelude.{◌≡◌, true};
ghost use Rattle.rrd_fixed.specs.Stored.{FitsCell, cell_number, cell_of_number};
ghost use Rattle.rrd_fixed.specs.declared.cell.Cell.TheVariants.{Unknown};

use crate::Cell;
use std::marker::Model;

/// A cell in the form in which archives and files keep it: one number of 16 bytes, half of what a `Cell` takes.
///
/// Contracts see the cell.
#[derive(Clone, Copy, Debug, PartialEq, Eq)]
pub struct StoredCell {
    // The millionths; the least number if the cell is unknown.
    number: i128,
}

impl Model for StoredCell {
    ghost use Rattle.rrd_fixed.specs.declared.cell.Cell.{Cell};
    ghost use Rattle.rrd_fixed.specs.Stored.{cell_number, cell_of_number};

    ghost Value = { Cell };

    ghost view = { λ s. cell_of_number s.number };

    ghost inverse = { λ c. record { number = cell_number c } };
}

impl Default for StoredCell {
    /// Returns the unknown cell. Short lists hold it in places that are not in use.
    fn default() -> Self
        ensures { result ≡ Unknown }
    {
        StoredCell::unknown()
    }
}

impl StoredCell {
    /// Returns the unknown cell.
    pub fn unknown() -> StoredCell
        ensures { result ≡ Unknown }
    {
        StoredCell { number: i128::MIN }
    }

    /// Returns the stored form of a cell. Only the minimum of the numbers has none.
    pub fn new(cell: Cell) -> StoredCell
        requires { FitsCell cell }
        ensures { result ≡ cell }
    {
        match cell {
            Cell::Unknown => StoredCell::unknown(),
            Cell::Known(number) => StoredCell { number },
        }
    }

    /// Returns the cell that a number stands for.
    pub fn of_number(number: i128) -> StoredCell
        ensures { result ≡ cell_of_number number }
    {
        StoredCell { number }
    }

    /// Returns the number that stands for the cell.
    pub fn number(self) -> i128
        ensures { result ≡ cell_number self }
    {
        self.number
    }

    /// Returns whether the cell is unknown.
    pub fn is_unknown(self) -> bool
        ensures yes { result ≡ true → self ≡ Unknown }
        ensures no { self ≡ Unknown → result ≡ true }
    {
        self.number == i128::MIN
    }

    /// Returns the cell.
    pub fn cell(self) -> Cell
        ensures { result ≡ self }
    {
        if self.is_unknown() {
            return Cell::Unknown;
        }
        Cell::Known(self.number)
    }
}
