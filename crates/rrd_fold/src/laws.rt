//! Theorems on all partial steps and rows.
//!
//! Each theorem is a function without a body: a call gives the prover the theorem at the call site, and does nothing at
//! run time.
ghost use Rattle.std.specs.Prelude.{◌≡◌, ◌++◌, ◌+◌, ◌-◌, ◌*◌, ◌^◌, ◌<◌, ◌≤◌, ℕ, ℤ, pos, ◌+ℤ◌, ◌*ℤ◌, ◌≤ℤ◌, int_lt, unsigned_abs, List, [], ◌∷◌, replicate, if◌then◌else◌};
ghost use Rattle.std.specs.List.{fold};
ghost use Rattle.rrd_fixed.specs.declared.cell.Cell.{Cell};
ghost use Rattle.rrd_fixed.specs.declared.cell.Cell.TheVariants.{Unknown};
ghost use Rattle.rrd_fixed.specs.Rate.{top};
ghost use Rattle.rrd_fold.specs.declared.function.Function.{Function};
ghost use Rattle.rrd_fold.specs.declared.function.Function.TheVariants.{Average, Min, Max, Last};
ghost use Rattle.rrd_fold.specs.Additions.{MadeByTwo};
ghost use Rattle.rrd_fold.specs.Bounds.{finished_cell, weight};
ghost use Rattle.rrd_fold.specs.Parts.{Part, with_cell, nothing, part_of, row_cell, step_cell, summary};
ghost use Rattle.rrd_fold.specs.Summaries.{IsLeast, IsGreatest};

/// Theorem: adding cells one by one gives the part of the list of those cells.
///
/// The part of a list has the number of its known cells and their sum, minimum, maximum or last value, 0 if none is
/// known.
pub fn parts_represent_lists()
    ensures from_nothing { (function : Function) (cells : List Cell) →
        fold (with_cell function) nothing cells ≡ part_of function cells }
    ensures no_cell { (function : Function) → nothing ≡ part_of function [] }
    ensures one_more { (function : Function) (cells : List Cell) (cell : Cell) →
        with_cell function (part_of function cells) cell
        ≡ part_of function (cells ++ cell ∷ []) }
    ensures many_more { (function : Function) (cells : List Cell) (cell : Cell) (n : ℕ) →
        fold (with_cell function) (part_of function cells) (replicate n cell)
        ≡ part_of function (cells ++ replicate n cell) }
{}

/// Theorem: the value of a list of known cells is their sum, minimum, maximum or last value.
pub fn values_have_meaning()
    ensures sum { (value : ℤ) (more : List ℤ) →
        summary Average (value ∷ more) ≡ value +ℤ summary Average more }
    ensures least { (value : ℤ) (more : List ℤ) → IsLeast (summary Min (value ∷ more)) (value ∷ more) }
    ensures greatest { (value : ℤ) (more : List ℤ) → IsGreatest (summary Max (value ∷ more)) (value ∷ more) }
    ensures last { (before : List ℤ) (value : ℤ) → summary Last (before ++ value ∷ []) ≡ value }
{}

/// Theorem: a row is unknown if too many of its steps are, and otherwise is the result of `finish`.
///
/// A row without a known step is unknown under every xff.
pub fn rows_finish()
    ensures { (function : Function) (xff steps : ℕ) (part : Part) → 1 ≤ steps → xff < 1000000 →
        row_cell function (pos xff) steps part
        ≡ (if int_lt (pos xff *ℤ pos steps) (pos ((steps - part.known) * 10 ^ 6))
        then Unknown
        else finished_cell function part) }
{}

/// Theorem: at most two additions of equal cells make any valid count from 1 on, with any valid value.
///
/// For an average, and for the sum of a step, the two cells differ by one millionth. For the other functions one cell
/// is added `known` times.
pub fn made_by_two_additions()
    ensures { (function : Function) (known : ℕ) (value : ℤ) →
        1 ≤ known → unsigned_abs value ≤ weight function known * top →
        MadeByTwo function known value }
{}

/// Theorem: a step of equal seconds, and a row of equal steps, has that one cell.
pub fn one_cell_alone()
    ensures step { (step : ℕ) (cell : Cell) → 0 < step →
        step_cell step (fold (with_cell Average) nothing (replicate step cell)) ≡ cell }
    ensures row { (function : Function) (xff : ℤ) (steps : ℕ) (cell : Cell) → 0 < steps →
        pos 0 ≤ℤ xff → xff ≤ℤ pos 999999 →
        row_cell function xff steps (fold (with_cell function) nothing (replicate steps cell)) ≡ cell }
{}
