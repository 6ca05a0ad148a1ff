//! Worked values of steps and rows.
ghost use Rattle.std.specs.Prelude.{◌≤◌, ◌<◌};
ghost use Rattle.rrd_fold.specs.Bounds.{IsBounded};

use rrd_fixed::{Cell, Meter};
use rrd_fold::{Function, RowPrep, StepPrep, laws};

// Stands for an unknown cell.
const U: i32 = i32::MIN;

// The cell of so many millionths.
fn cell(millionths: i32) -> Cell
    ensures { IsBounded result }
{
    if millionths == U {
        return Cell::Unknown;
    }
    Cell::Known(millionths as i128)
}

// The row of four steps. The last step is added by `add_many`.
fn of_four(function: Function, cells: [i32; 4], xff: u64) -> Cell
    requires { xff < 1000000 }
{
    let mut meter = Meter::new();
    let mut row = RowPrep::new(function);
    let [first, second, third, last] = cells;
    row.add(cell(first), &mut meter);
    row.add(cell(second), &mut meter);
    row.add(cell(third), &mut meter);
    row.add_many(cell(last), 1, &mut meter);
    row.close(4, xff, &mut meter)
}

const ONE: i32 = 1_000_000;

const TWO: i32 = 2_000_000;

const THREE: i32 = 3_000_000;

// A function, four steps, how much of the row may be unknown, in millionths, and the row.
const ROWS: &[(Function, [i32; 4], u64, i32)] = &[
    (Function::Average, [THREE, U, ONE, TWO], 750_000, TWO),
    (Function::Min, [THREE, U, ONE, TWO], 750_000, ONE),
    (Function::Max, [ONE, U, THREE, TWO], 750_000, THREE),
    (Function::Last, [THREE, U, ONE, TWO], 750_000, TWO),
    (Function::Last, [THREE, ONE, TWO, U], 750_000, TWO),
    (Function::Average, [U, U, U, U], 750_000, U),
    (Function::Min, [U, U, U, U], 750_000, U),
    (Function::Max, [U, U, U, U], 750_000, U),
    (Function::Last, [U, U, U, U], 750_000, U),
    // Ties go upwards.
    (Function::Average, [-1, U, -2, U], 750_000, -1),
    (Function::Average, [1, U, 2, U], 750_000, 2),
    (Function::Average, [THREE, U, ONE, TWO], 250_000, TWO),
    (Function::Min, [THREE, U, ONE, TWO], 250_000, ONE),
    (Function::Max, [THREE, U, ONE, TWO], 250_000, THREE),
    (Function::Last, [THREE, U, ONE, TWO], 250_000, TWO),
];

#[test]
fn rows_of_each_function(rt: HostRuntime) {
    for (function, cells, xff, wanted) in ROWS {
        assert!(rt; *xff < 1_000_000);
        let found = of_four(*function, *cells, *xff);
        assert_eq!(rt; found, cell(*wanted), "{function:?} of {cells:?}");
    }
}

#[test]
fn a_tie_of_a_step_goes_upwards(rt: HostRuntime) {
    let mut meter = Meter::new();
    let mut step = StepPrep::new();
    step.add(Cell::Known(-1), 1, &mut meter);
    step.add(Cell::Known(-2), 1, &mut meter);
    assert_eq!(rt; step.sum(), -3);
    assert_eq!(rt; step.close(2, &mut meter), Cell::Known(-1));
}

// A step of 10 seconds, so many of them known at a rate of 7.
fn step_of_ten(known: u64) -> Cell
    requires { known ≤ 10 }
{
    let mut meter = Meter::new();
    let mut step = StepPrep::new();
    step.add(Cell::Unknown, 10 - known, &mut meter);
    step.add(Cell::Known(7_000_000), known, &mut meter);
    step.close(10, &mut meter)
}

#[test]
fn half_unknown_step(rt: HostRuntime) {
    assert_eq!(rt; step_of_ten(5), Cell::Known(7_000_000));
    assert_eq!(rt; step_of_ten(4), Cell::Unknown);
}

// A row of 6 steps, so many of them unknown and the others 7, where half of them may be unknown.
fn row_of_six(function: Function, unknown: u64) -> Cell
    requires { unknown ≤ 6 }
{
    let mut meter = Meter::new();
    let mut row = RowPrep::new(function);
    row.add_many(Cell::Unknown, unknown, &mut meter);
    row.add_many(Cell::Known(7_000_000), 6 - unknown, &mut meter);
    row.close(6, 500_000, &mut meter)
}

#[test]
fn half_unknown_row(rt: HostRuntime) {
    assert_eq!(rt; row_of_six(Function::Average, 3), Cell::Known(7_000_000));
    assert_eq!(rt; row_of_six(Function::Average, 4), Cell::Unknown);
    assert_eq!(rt; row_of_six(Function::Last, 3), Cell::Known(7_000_000));
    assert_eq!(rt; row_of_six(Function::Last, 4), Cell::Unknown);
}

#[test]
fn readers(rt: HostRuntime) {
    let mut meter = Meter::new();
    let mut step = StepPrep::new();
    step.add(Cell::Known(5), 3, &mut meter);
    assert_eq!(rt; (step.known(), step.sum()), (3, 15));
    step.restart();
    assert_eq!(rt; (step.known(), step.sum()), (0, 0));
    let mut row = RowPrep::new(Function::Min);
    row.add(Cell::Known(5), &mut meter);
    row.add_many(Cell::Known(-4), 2, &mut meter);
    assert_eq!(rt;
        (row.function(), row.known(), row.value()),
        (Function::Min, 3, -4)
    );
    assert_eq!(rt; meter.turns(), 3);
}

#[test]
fn laws_are_called() {
    laws::parts_represent_lists();
    laws::values_have_meaning();
    laws::rows_finish();
    laws::made_by_two_additions();
    laws::one_cell_alone();
}
