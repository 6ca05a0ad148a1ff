//! Checks of the values in a file's pieces.
ghost use Rattle.std.specs.Prelude.{◌≡◌, ◌≤◌, true};
ghost use Rattle.rrd_base.specs.Names.{AllByRecursion, IsBounded, weight, present, IsArchiveDef, IsPart, IsSource};

use crate::create::{has_bad_bounds, is_bad_heartbeat, is_bad_rows, is_bad_steps, is_bad_xff};
use crate::{DsDef, RraDef};
use rrd_fixed::StoredCell;
use rrd_fold::Function;
use rrd_spec::limits::MAX_BOUND;

// The maximum rate, in millionths, as a signed number: comparing a value with both bounds is faster than computing its
// size first.
const MAX_CELL: i128 = MAX_BOUND as i128;

/// Returns whether the settings of a data source are valid.
pub(super) fn is_source(source: &DsDef) -> bool
    ensures good { result ≡ true → IsSource source.now }
    ensures bad { IsSource source.now → result ≡ true }
{
    source.name.good() && !is_bad_heartbeat(source.heartbeat) && !has_bad_bounds(source)
}

// Returns how many cells of the maximum size a value may add up to.
fn weight(function: Function, known: u64) -> u64
    ensures { result ≡ weight function known }
{
    match function {
        Function::Average => known,
        Function::Min | Function::Max | Function::Last => 1,
    }
}

/// Returns whether a count and a value can be those of a partial step or row of at most `passed` cells.
pub(super) fn is_part(function: Function, passed: u64, known: u64, value: i128) -> bool
    requires { passed ≤ present.max_steps_per_row }
    ensures good { result ≡ true → IsPart function passed (record { known = known; value = value }) }
    ensures bad { IsPart function passed (record { known = known; value = value }) → result ≡ true }
{
    if known > passed {
        return false;
    }
    let most = u128::from(weight(function, known)) * MAX_BOUND;
    value.unsigned_abs() <= most && (known > 0 || value == 0)
}

/// Returns whether the settings of an archive are valid.
pub(super) fn is_archive(def: &RraDef) -> bool
    ensures good { result ≡ true → IsArchiveDef present def.now }
    ensures bad { IsArchiveDef present def.now → result ≡ true }
{
    !is_bad_steps(def.steps) && !is_bad_rows(def.rows) && !is_bad_xff(def.xff)
}

/// Returns whether a cell is unknown, or at most the maximum rate in size.
pub fn is_bounded(cell: StoredCell) -> bool
    ensures good { result ≡ true → IsBounded cell }
    ensures bad { IsBounded cell → result ≡ true }
{
    let number = cell.number();
    (-MAX_CELL <= number && number <= MAX_CELL) || cell.is_unknown()
}

/// Returns whether no cell has an absolute value above the maximum rate.
pub(super) fn are_bounded(cells: &[StoredCell]) -> bool
    ensures good { result ≡ true → AllByRecursion IsBounded cells.now }
    ensures bad { AllByRecursion IsBounded cells.now → result ≡ true }
{
    for cell in cells {
        if !is_bounded(*cell) {
            return false;
        }
    }
    true
}
