//! Functions on the partial steps and rows of all data sources, item by item.
ghost use Rattle.std.specs.Prelude.{◌≡◌, ◌+◌, ◌^◌, ◌<◌, ◌≤◌, ◌≤ℤ◌, length, map, pos, replicate};
ghost use Rattle.rrd_base.specs.Names.{AllByRecursion, fold, Part, nothing, step_cell, with_each, Consolidating, most_known, Average, anew, map_each, row_of, with_steps, present, IsRow};

use crate::RraDef;
use rrd_fixed::{Meter, StoredCell};
use rrd_fold::{RowPrep, StepPrep};

/// Adds `seconds` seconds of each data source's rate to its partial step. Each is one unit of work.
pub(crate) fn add_seconds(
    preps: &mut [StepPrep],
    rates: &[StoredCell],
    seconds: u64,
    meter: &mut Meter,
)
    requires row { IsRow (length preps.old) rates.now }
    requires fits { AllByRecursion (λ (p : Part). p.known + seconds ≤ most_known) preps.old }
    requires turns { meter.old + length preps.old < 2 ^ 64 }
    ensures added { preps.new ≡ fold (with_each Average) preps.old (replicate seconds rates.now) }
    ensures ticked { meter.new ≡ meter.old + length preps.old }
{
    for i in 0..preps.len() {
        preps[i].add(rates[i].cell(), seconds, meter);
    }
}

/// Writes the cell of each data source's step of `step` seconds, and empties its partial step. Each is one unit of
/// work.
pub(crate) fn close_steps(
    preps: &mut [StepPrep],
    step: u64,
    cells: &mut [StoredCell],
    meter: &mut Meter,
)
    requires places { length cells.old ≡ length preps.old }
    requires some { 1 ≤ step }
    requires few { step ≤ present.max_step_seconds }
    requires fits { AllByRecursion (λ (p : Part). p.known ≤ step) preps.old }
    requires turns { meter.old + length preps.old < 2 ^ 64 }
    ensures cells { cells.new ≡ map (step_cell step) preps.old }
    ensures row { IsRow (length preps.old) cells.new }
    ensures anew { preps.new ≡ replicate (length preps.old) nothing }
    ensures ticked { meter.new ≡ meter.old + length preps.old }
{
    for i in 0..preps.len() {
        cells[i] = StoredCell::new(preps[i].close(step, meter));
    }
}

/// Adds each data source's step to its partial row, `count` times. Each is one unit of work.
pub(crate) fn add_steps(preps: &mut [RowPrep], step: &[StoredCell], count: u64, meter: &mut Meter)
    requires row { IsRow (length preps.old) step.now }
    requires fits { AllByRecursion (λ (p : Consolidating). p.part.known + count ≤ most_known) preps.old }
    requires turns { meter.old + length preps.old < 2 ^ 64 }
    ensures added { preps.new ≡ map_each (with_steps count) preps.old step.now }
    ensures ticked { meter.new ≡ meter.old + length preps.old }
{
    for i in 0..preps.len() {
        preps[i].add_many(step[i].cell(), count, meter);
    }
}

/// Writes the cell of each data source's row, in an archive with these settings, and empties its partial row. Each is
/// one unit of work.
pub(crate) fn close_rows(
    preps: &mut [RowPrep],
    def: &RraDef,
    row: &mut [StoredCell],
    meter: &mut Meter,
)
    requires places { length row.old ≡ length preps.old }
    requires some { 1 ≤ def.now.steps }
    requires few { def.now.steps ≤ present.max_steps_per_row }
    requires xff_low { pos 0 ≤ℤ def.now.xff }
    requires xff_high { def.now.xff ≤ℤ pos present.max_xff }
    requires fits { AllByRecursion (λ (p : Consolidating). p.part.known ≤ def.now.steps) preps.old }
    requires turns { meter.old + length preps.old < 2 ^ 64 }
    ensures cells { row.new ≡ map (row_of def.now.xff def.now.steps) preps.old }
    ensures anew { preps.new ≡ map anew preps.old }
    ensures ticked { meter.new ≡ meter.old + length preps.old }
{
    let share = def.share();
    for i in 0..preps.len() {
        row[i] = StoredCell::new(preps[i].close(def.steps, share, meter));
    }
}
