//! The archives of a database: the settings, the partial row of each data source, and the rows.
ghost use Rattle.std.specs.Prelude.{◌≡◌, List, ◌+◌, ◌*◌, ◌^◌, ◌<◌, ◌≤◌, ◌∷◌, ◌++◌, [], length, map, min, replicate, slice_index_or, slice_set, take as first, IfNone, IfOk, IfSome, OnErr, OnOk, pos, ◌≤ℤ◌};
ghost use Rattle.rrd_base.specs.Names.{AllByRecursion, fold, Cell, Unknown, most_known, Part, nothing, row_cell, with_each, HasWidth, newest_rows, nth_row, unknown_rows, width, with_rows, present, AllOf, parts_in, keep_last, archive_passed, row_of_age, IsRow, IsValidArchive};
ghost use Rattle.rrd_base.specs.Words.{CanPutBack, IsStepped, run_cells, AreSteps, cells_of, count_of, sources_of, least_of_one, most_of_one};
ghost use Rattle.rrd_spec.specs.Journal.Entries.{put_back as after_put_back, saved};

use crate::cell_run::CellRun;
use crate::rows::{HasRows, rows_between};
use crate::walk::Steps;
use crate::walk::preparations::{add_steps, close_rows};
use crate::{EachSource, RraDef, SavedArchive};
use rrd_fixed::{Meter, StoredCell};
use rrd_fold::RowPrep;
use rrd_ring::Archive;
use rrd_spec::laws;
use std::alloc::{AllocError, Global};
use std::marker::Model;

/// An archive: its settings, its partial rows and its rows.
///
/// There is one partial row for each data source, and the oldest row is the first. The journal keeps a removed archive
/// as a whole.
#[derive(Drop)]
pub struct Rra {
    def: RraDef,
    preps: Vec<RowPrep>,
    rows: Archive,
}

impl Model for Rra {
    ghost use Rattle.rrd_spec.specs.Preparations.{AllOf, parts_in};
    ghost use Rattle.rrd_spec.specs.History.{Rra};

    ghost Value = { Rra };

    ghost view = { λ s. record { def = s.def; parts = parts_in s.preps.items; rows = s.rows } };

    ghost invariant = { λ s. AllOf s.def.function s.preps.items };
}

impl HasRows for Rra {
    ghost rows_of = { λ rra. rra.def.rows };

    fn row_count(&self) -> u64 {
        self.def.rows
    }
}

impl Rra {
    /// Creates an archive with these settings, partial rows and rows.
    ///
    /// There is one partial row for each data source, and each has the function of the settings.
    pub fn from_parts(def: RraDef, preps: Vec<RowPrep>, rows: Archive) -> Rra
        requires { AllOf def.function preps.items }
        ensures { result ≡ record { def = def; parts = parts_in preps.items; rows = rows } }
    {
        Rra { def, preps, rows }
    }

    /// Creates an archive for `sources` data sources, in which all rows are unknown.
    pub(crate) fn new(alloc: Global, def: RraDef, sources: u64) -> Result<Rra, AllocError>
        requires some_rows { 0 < def.rows }
        requires few_rows { def.rows ≤ present.max_rows }
        requires some_sources { 0 < sources }
        requires few_sources { sources ≤ present.max_sources }
        ensures { IfOk result (λ s. s
            ≡ record {
              def = def;
              parts = replicate sources nothing;
              rows = replicate def.rows (replicate sources Unknown);
            }) }
    {
        let preps = vec![in alloc; RowPrep::new(def.function); sources as usize]?;
        let rows = Archive::new(alloc, def.rows, sources)?;
        Ok(Rra { def, preps, rows })
    }

    /// Creates an archive without partial rows for `sources` data sources, in which all rows are unknown. Its rows will
    /// be written from row `first` on, wrapping from the newest row to the oldest; row 0 is the oldest.
    pub(crate) fn unprepared(
        alloc: Global,
        def: RraDef,
        sources: u64,
        first: u64,
    ) -> Result<Rra, AllocError>
        requires few_rows { def.rows ≤ present.max_rows }
        requires some_sources { 0 < sources }
        requires few_sources { sources ≤ present.max_sources }
        requires there { first < def.rows }
        ensures { IfOk result (λ s. s
            ≡ record { def = def; parts = []; rows = replicate def.rows (replicate sources Unknown) }) }
    {
        let rows = Archive::new_filled_from(alloc, def.rows, sources, first)?;
        Ok(Rra {
            def,
            preps: Vec::new(alloc),
            rows,
        })
    }

    /// Returns the number of partial rows.
    pub(crate) fn prep_count(&self) -> usize
        ensures { result ≡ length self.now.parts }
    {
        self.preps.len()
    }

    /// Adds the partial row of the next data source.
    pub(crate) fn push_prep(&mut self, prep: RowPrep) -> Result<(), AllocError>
        requires { prep.function ≡ self.old.def.function }
        ensures ok { OnOk result (self.new ≡ record self.old { parts = self.old.parts ++ prep.part ∷ [] }) }
        ensures err { OnErr result (self.new ≡ self.old) }
    {
        self.preps.push(prep)?;
        Ok(())
    }

    /// Writes the cell of a data source in a row. Row 0 is the oldest.
    pub(crate) fn set_cell(&mut self, row: u64, source: usize, cell: StoredCell)
        requires there { row < length self.old.rows }
        requires within { source < length (nth_row self.old.rows row) }
        ensures { let cells = slice_set (nth_row self.old.rows row) source cell in
            self.new ≡ record self.old { rows = slice_set self.old.rows row cells } }
    {
        self.rows.row_mut(row)[source] = cell;
    }

    /// Writes `count` rows, starting at `row` (0 is the oldest) and wrapping from the newest row to the oldest.
    ///
    /// `cells` holds the rows one after another. `count` is at most the number of rows in the archive.
    pub(crate) fn write_rows(&mut self, row: u64, count: u64, cells: CellRun)
        requires there { row < length self.old.rows }
        requires few { count ≤ length self.old.rows }
        requires one_each { length (run_cells cells) ≡ count * width self.old.rows }
        ensures { let rows = with_rows count (width self.old.rows) self.old.rows row (run_cells cells.entry) in
            self.new ≡ record self.old { rows = rows } }
    {
        match cells {
            CellRun::Given(cells) => self.rows.write_rows_wrapping(row, count, cells),
            CellRun::Unknown(_) => self.rows.clear_rows_wrapping(row, count),
        }
    }

    /// Returns the settings.
    pub fn def(&self) -> RraDef
        ensures { result ≡ self.now.def }
    {
        self.def
    }

    /// Returns how many of the oldest rows were certainly never written, so that all their cells are unknown.
    pub(crate) fn never_written_rows(&self) -> u64
        ensures few { result ≤ length self.now.rows }
        ensures unknown { first result self.now.rows ≡ unknown_rows result (width self.now.rows) }
    {
        self.rows.never_written_count()
    }

    /// Returns the cells of the row with an age, 0 for the newest; `None` if there is no such row.
    pub(crate) fn row_of_age(&self, age: i128) -> Option<&[StoredCell]>
        ensures some { IfSome result (λ row. (unknown : List Cell) → row_of_age self.now.rows unknown age ≡ row.now) }
        ensures none { IfNone result ((unknown : List Cell) → row_of_age self.now.rows unknown age ≡ unknown) }
    {
        let rows = self.rows.rows();
        if age < 0 || age >= i128::from(rows) {
            return None;
        }
        Some(self.rows.row(rows - 1 - age as u64))
    }

    /// Returns the partial row of each data source.
    pub fn preps(&self) -> &[RowPrep]
        ensures parts { parts_in result.now ≡ self.now.parts }
        ensures function { AllOf self.now.def.function result.now }
    {
        self.preps.as_slice()
    }

    /// Returns the rows with their cells.
    pub fn archive(&self) -> &Archive
        ensures { result.now ≡ self.now.rows }
    {
        &self.rows
    }

    /// Returns the partial row of a data source.
    pub(crate) fn prep(&self, source: usize) -> RowPrep
        requires { source < length self.now.parts }
        ensures { result
            ≡ record { function = self.now.def.function; part = slice_index_or self.now.parts source nothing } }
    {
        self.preps[source]
    }

    // Adds a step `count` times to the partial rows. The meter counts one unit of work for each data source.
    fn go_on(&mut self, step: &[StoredCell], count: u64, meter: &mut Meter)
        requires row { IsRow (length self.old.parts) step.now }
        requires fits { AllByRecursion (λ (p : Part). p.known + count ≤ most_known) self.old.parts }
        requires turns { meter.old + length step.now < 2 ^ 64 }
        ensures value { self.new ≡ record self.old {
          parts = fold (with_each self.old.def.function) self.old.parts (replicate count step.now);
        } }
        ensures ticked { meter.new ≡ meter.old + length step.now }
    {
        add_steps(&mut self.preps, step, count, meter);
    }

    // Writes the cells of the row that has all its steps, and empties the partial rows. The meter counts one unit of
    // work for each data source.
    fn close_row(&mut self, row: &mut [StoredCell], meter: &mut Meter)
        requires places { length row.old ≡ length self.old.parts }
        requires some_steps { 0 < self.old.def.steps }
        requires few_steps { self.old.def.steps ≤ present.max_steps_per_row }
        requires xff_low { pos 0 ≤ℤ self.old.def.xff }
        requires xff_high { self.old.def.xff ≤ℤ pos present.max_xff }
        requires fits { AllByRecursion (λ (p : Part). p.known ≤ self.old.def.steps) self.old.parts }
        requires turns { meter.old + length row.old < 2 ^ 64 }
        ensures cells { let def = self.old.def in
            row.new ≡ map (row_cell def.function def.xff def.steps) self.old.parts }
        ensures value { self.new ≡ record self.old { parts = replicate (length row.old) nothing } }
        ensures ticked { meter.new ≡ meter.old + length row.old }
    {
        close_rows(&mut self.preps, &self.def, row, meter);
    }

    // Adds `row`, and then `other` `times` times, but only rows that the archive still has at the end. The meter counts
    // one unit of work for each cell of these rows.
    fn push(&mut self, row: &[StoredCell], other: &[StoredCell], times: u64, meter: &mut Meter)
        requires wide { HasWidth (length row.now) self.old.rows }
        requires same_width { length other.now ≡ length row.now }
        requires turns { meter.old + length row.now * min (1 + times) (length self.old.rows) < 2 ^ 64 }
        ensures value { let all = self.old.rows ++ row.now ∷ replicate times other.now in
            self.new ≡ record self.old { rows = keep_last (length self.old.rows) all } }
        ensures ticked { meter.new ≡ meter.old + length row.now * min (1 + times) (length self.old.rows) }
    {
        if times < self.rows.rows() {
            self.rows.push_row(row, meter);
        }
        push_times(&mut self.rows, other, times, meter);
    }

    /// Adds steps to the archive. Whole rows of equal steps are added at once: their cells are those of the steps, and
    /// only rows that the archive still has at the end are written. `row` has room for the cells of a row.
    pub(crate) fn take(&mut self, steps: &Steps, row: &mut [StoredCell], meter: &mut Meter)
        requires valid { IsValidArchive (sources_of steps.now) steps.now.before self.old }
        requires steps_are { AreSteps steps.now }
        requires places { length row.old ≡ sources_of steps.now }
        requires turns { meter.old + most_of_one steps.now self.old < 2 ^ 64 }
        ensures value { let passed = archive_passed (sources_of steps.now) steps.now.before (cells_of steps.now) in
            self.new ≡ passed self.old }
        ensures valid { IsValidArchive (sources_of steps.now) (steps.now.before + count_of steps.now) self.new }
        ensures least { meter.old + least_of_one steps.now self.old ≤ meter.new }
        ensures most { meter.new ≤ meter.old + most_of_one steps.now self.old }
        ensures places { length row.new ≡ length row.old }
    {
        laws::parts_stay_bounded();
        laws::seconds_stay_valid();
        laws::steps_pass_at_once();
        let in_row = self.def().steps;
        let left = (steps.before / in_row + 1) * in_row - (steps.before + 1);
        self.go_on(steps.first, 1, meter);
        if steps.count < left {
            self.go_on(steps.others, steps.count, meter);
        } else {
            let more = steps.count - left;
            self.go_on(steps.others, left, meter);
            self.close_row(row, meter);
            self.push(row, steps.others, more / in_row, meter);
            self.go_on(steps.others, more % in_row, meter);
        }
    }

    /// Copies the partial rows and the `n` oldest rows.
    pub(crate) fn save(&self, alloc: Global, n: u64) -> Result<SavedArchive, AllocError>
        requires { n ≤ length self.now.rows }
        ensures { IfOk result (λ s. s
            ≡ record { function = self.now.def.function; parts = self.now.parts; rows = first n self.now.rows }) }
    {
        let preps = EachSource::from_slice(alloc, &self.preps)?;
        let rows = self.rows.oldest(alloc, n)?;
        Ok(SavedArchive::new(self.def.function, preps, rows))
    }

    /// Copies the values that an update from `from` to `to` replaces in the archive. A step has `step` seconds.
    pub(crate) fn save_between(
        &self,
        alloc: Global,
        step: u64,
        from: u64,
        to: u64,
    ) -> Result<SavedArchive, AllocError>
        requires stepped { IsStepped self.now }
        requires some_step { 0 < step }
        requires small_step { step ≤ present.max_step_seconds }
        ensures { IfOk result (λ s. s ≡ saved step from to self.now) }
    {
        let ended = rows_between(&self.def, step, from, to);
        self.save(alloc, ended.min(self.rows.rows()))
    }

    /// Puts partial rows and rows back. As many of the newest rows are dropped. Does not allocate.
    pub(crate) fn put_back(&mut self, saved: SavedArchive)
        requires { CanPutBack self.old saved }
        ensures { self.new ≡ after_put_back self.old saved }
    {
        let SavedArchive { preps, rows, .. } = saved;
        self.preps.copy_from_slice(preps.as_slice());
        self.rows.put_back(rows);
    }

    /// Copies the newest `rows` rows (1 to 1,000,000), or all rows after unknown ones (rrdresize).
    pub(crate) fn resized(&self, alloc: Global, rows: u64) -> Result<Archive, AllocError>
        requires some_rows { 0 < rows }
        requires few_rows { rows ≤ present.max_rows }
        ensures { IfOk result (λ new. new ≡ newest_rows rows self.now.rows) }
    {
        self.rows.resized(alloc, rows)
    }

    /// Exchanges the rows of the archive with `rows`. Does not allocate.
    pub(crate) fn swap_rows(&mut self, rows: &mut Archive)
        ensures mine { self.new
            ≡ record self.old { def = record self.old.def { rows = length rows.old }; rows = rows.old } }
        ensures others { rows.new ≡ self.old.rows }
    {
        self.def.rows = rows.rows();
        self.rows.swap(rows);
    }
}

// Adds a row `times` times, but only rows that the archive still has at the end.
fn push_times(rows: &mut Archive, row: &[StoredCell], times: u64, meter: &mut Meter)
    requires wide { HasWidth (length row.now) rows.old }
    requires turns { meter.old + length row.now * min times (length rows.old) < 2 ^ 64 }
    ensures rows { rows.new ≡ keep_last (length rows.old) (rows.old ++ replicate times row.now) }
    ensures turns { meter.new ≡ meter.old + length row.now * min times (length rows.old) }
{
    for _i in 0..times.min(rows.rows()) {
        rows.push_row(row, meter);
    }
}
