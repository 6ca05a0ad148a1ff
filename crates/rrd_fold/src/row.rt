//! The partial row of a data source in an archive.
ghost use Rattle.std.specs.Prelude.{◌≡◌, ◌+◌, ◌*◌, ◌^◌, ◌<◌, ◌≤◌, pos, unsigned_abs, replicate};
ghost use Rattle.std.specs.List.{fold};
ghost use Rattle.rrd_fixed.specs.Rate.{top};
ghost use Rattle.rrd_fold.specs.Parts.{with_cell, row_cell, nothing};
ghost use Rattle.rrd_fold.specs.Bounds.{IsBounded, counted, most_known, weight};
ghost use Rattle.rrd_fold.specs.declared.function.Function.TheVariants.{Average};

use crate::Function;
use crate::summary::Summary;
use rrd_fixed::{Cell, MILLIONTHS, Meter};
use std::marker::Model;

/// The unfinished row of one data source in an archive.
///
/// A value keeps the number of known steps, at most 1,000,000, and their sum, minimum, maximum or last value in
/// millionths; it represents the cells of all steps that were added.
#[derive(Clone, Copy, Debug, PartialEq, Eq)]
pub struct RowPrep {
    summary: Summary,
}

impl Model for RowPrep {
    ghost use Rattle.rrd_fold.specs.Bounds.{Consolidating};

    ghost Value = { Consolidating };

    ghost view = { λ r. r.summary };

    ghost inverse = { λ s. record { summary = s } };
}

impl Default for RowPrep {
    /// Returns a row without a step, of the average. Short lists hold it in places that are not in use.
    fn default() -> Self
        ensures { result ≡ record { function = Average; part = nothing } }
    {
        RowPrep::new(Function::Average)
    }
}

impl RowPrep {
    /// Creates a row without a step, in an archive of this function.
    pub fn new(function: Function) -> RowPrep
        ensures { result ≡ record { function = function; part = nothing } }
    {
        RowPrep {
            summary: Summary::new(function),
        }
    }

    /// Creates a row from the number of its known steps and their value in millionths.
    ///
    /// `known` is at most 1,000,000. `value` is a sum of `known` cells from `-TOP` to `TOP` if `function` is the
    /// average, one such cell for the other functions, and 0 if `known` is 0.
    pub fn from_part(function: Function, known: u64, value: i128) -> RowPrep
        requires few { known ≤ most_known }
        requires bounded { unsigned_abs value ≤ weight function known * top }
        requires empty { known ≡ 0 → value ≡ pos 0 }
        ensures { result ≡ record { function = function; part = record { known = known; value = value } } }
    {
        RowPrep {
            summary: Summary {
                function,
                known,
                value,
            },
        }
    }

    /// Adds the cell of one step, in millionths, a known one from `-TOP` to `TOP`.
    ///
    /// An unknown cell changes nothing. The meter counts one unit of work. The program calls `add_many`.
    pub fn add(&mut self, cell: Cell, meter: &mut Meter)
        requires fits { self.old.part.known + counted 1 cell ≤ most_known }
        requires bounded { IsBounded cell }
        requires turns { meter.old + 1 < 2 ^ 64 }
        ensures added { self.new
            ≡ record { function = self.old.function; part = with_cell self.old.function self.old.part cell } }
        ensures grows { self.new.part.known ≤ self.old.part.known + counted 1 cell }
        ensures ticked { meter.new ≡ meter.old + 1 }
    {
        meter.tick();
        self.summary.add(cell);
    }

    /// Adds the cell of a step `n` times.
    ///
    /// The row is then that of `n` calls of `add`. The meter counts one unit of work in all.
    pub fn add_many(&mut self, cell: Cell, n: u64, meter: &mut Meter)
        requires fits { self.old.part.known + counted n cell ≤ most_known }
        requires bounded { IsBounded cell }
        requires turns { meter.old + 1 < 2 ^ 64 }
        ensures added { self.new ≡ record {
          function = self.old.function;
          part = fold (with_cell self.old.function) self.old.part (replicate n cell);
        } }
        ensures grows { self.new.part.known ≤ self.old.part.known + counted n cell }
        ensures ticked { meter.new ≡ meter.old + 1 }
    {
        meter.tick();
        self.summary.add_many(cell, n);
    }

    /// Returns the cell of a row of `steps` steps, and empties the partial row.
    ///
    /// `steps` is from 1 to 1,000,000; `xff` is in millionths, from 0 to 999,999. The cell is unknown if the share of
    /// unknown steps is larger than `xff` (rrdcreate, "xff"), or if no step is known. Otherwise the cell is the average
    /// of the known steps (rounded to the nearest millionth; a half rounds up), or their minimum, maximum or last
    /// value. The meter counts one unit of work.
    pub fn close(&mut self, steps: u64, xff: u64, meter: &mut Meter) -> Cell
        requires some { 1 ≤ steps }
        requires few { steps ≤ most_known }
        requires part { xff < 1000000 }
        requires fits { self.old.part.known ≤ steps }
        requires turns { meter.old + 1 < 2 ^ 64 }
        ensures value { result ≡ row_cell self.old.function (pos xff) steps self.old.part }
        ensures bounded { IsBounded result }
        ensures anew { self.new ≡ record { function = self.old.function; part = nothing } }
        ensures ticked { meter.new ≡ meter.old + 1 }
    {
        meter.tick();
        let row = self.summary;
        self.summary = Summary::new(row.function);
        if (steps - row.known) * MILLIONTHS > xff * steps {
            return Cell::Unknown;
        }
        row.finish()
    }

    /// Returns the number of known steps, at most 1,000,000.
    pub fn known(&self) -> u64
        ensures value { result ≡ self.now.part.known }
        ensures limit { result ≤ most_known }
    {
        self.summary.known
    }

    /// Returns the sum, minimum, maximum or last value of the known steps, in millionths.
    ///
    /// Returns 0 if no step is known.
    pub fn value(&self) -> i128
        ensures value { result ≡ self.now.part.value }
        ensures limit { unsigned_abs result ≤ weight self.now.function self.now.part.known * top }
    {
        self.summary.value
    }

    /// Returns the consolidation function of the archive.
    pub fn function(&self) -> Function
        ensures { result ≡ self.now.function }
    {
        self.summary.function
    }
}
