//! The checks of journal entries while a file is read.
//!
//! Each rule of an entry is here once: a reader checks each piece of an entry by it, and `may_undo` checks the
//! complete entry, unless it is of an update.
ghost use Rattle.std.specs.Prelude.{◌≡◌, ◌++◌, ◌∷◌, [], ◌%◌, ◌<◌, ◌≤◌, IfOk, IfSome, None, OnErr, OnOk, Some, length, min, slice_get, slice_index_or, true};
ghost use Rattle.rrd_base.specs.Names.{IsAccepted, Average, IsRowPart, rows_between, AreOldRows, AreRemovedSettings, IsRemovedNumber, IsSavedSource, outline_undone, allows_archive_changes_of, limits_of, max_tuned, present, IsPart, DsDef};
ghost use Rattle.rrd_base.specs.Words.{entry_of, HasPlace, IsOutline, EntryValidator};
ghost use Rattle.rrd_spec.specs.Journal.Fitting.{IsArchiveDef};

use super::outline::undo;
use super::piece_checks::{is_archive, is_part, is_source};
use crate::create::{has_too_many_cells, is_bad_rows};
use crate::journal::Entry;
use crate::rows::{all_rows, rows_between};
use crate::{ArchiveList, DsDef, List, Outline, RraDef, SavedSource};
use rrd_fixed::Raw;
use rrd_fold::{Function, RowPrep, StepPrep};
use rrd_spec::Version;
use rrd_spec::limits::MAX_TUNED;
use std::alloc::{AllocError, Global};
use std::marker::Model;

/// The checks of the next entry of a journal, newest first.
///
/// A value has the version whose limits hold, the seconds in a step, and the outline that is left after all newer
/// entries are undone.
#[derive(Drop)]
pub struct EntryValidator {
    version: Version,
    step: u64,
    outline: Outline,
}

impl Model for EntryValidator {
    ghost use Rattle.rrd_base.specs.Rebuild.EntryChecks.{IsEntryValidator};
    ghost use Rattle.rrd_base.specs.Rebuild.Validators.{EntryValidator};

    ghost Value = { EntryValidator };

    ghost view = { λ j. record { version = j.version; step = j.step; outline = j.outline } };

    ghost invariant = { λ j. IsEntryValidator (record { version = j.version; step = j.step; outline = j.outline }) };
}

impl EntryValidator {
    /// Creates a validator with the last time, in seconds since 1970, and no settings.
    pub(super) fn new(
        alloc: Global,
        version: Version,
        step: u64,
        last: u64,
    ) -> Result<EntryValidator, AllocError>
        requires some_step { 0 < step }
        requires small_step { step ≤ present.max_step_seconds }
        ensures { IfOk result (λ validator. validator ≡ record {
          version = version;
          step = step;
          outline = record { last = last; sources = []; archives = [] };
        }) }
    {
        Ok(EntryValidator {
            version,
            step,
            outline: Outline {
                last,
                sources: List::new(alloc),
                archives: ArchiveList::new(alloc)?,
            },
        })
    }

    /// Adds the settings of one more data source. On error, the validator is unchanged.
    pub(super) fn push_source(&mut self, def: DsDef) -> Result<(), AllocError>
        requires { length self.old.outline.sources < present.max_sources }
        ensures ok { OnOk result (self.new ≡ record self.old {
          outline = record self.old.outline { sources = self.old.outline.sources ++ def ∷ [] };
        }) }
        ensures err { OnErr result (self.new ≡ self.old) }
    {
        self.outline.sources.push(def)
    }

    /// Adds the settings of one more archive. Does not allocate.
    pub(super) fn push_archive(&mut self, def: RraDef)
        requires few { length self.old.outline.archives < present.max_archives }
        requires good { IsOutline (record self.old.outline { archives = self.old.outline.archives ++ def ∷ [] }) }
        ensures { self.new ≡ record self.old {
          outline = record self.old.outline { archives = self.old.outline.archives ++ def ∷ [] };
        } }
    {
        self.outline.archives.push(def);
    }

    /// Undoes an entry in the outline, by which the next entry is checked. Does not allocate.
    pub(super) fn undo(&mut self, entry: &Entry)
        requires place { HasPlace self.old.outline (entry_of entry.now) }
        requires good { IsOutline (outline_undone self.old.outline (entry_of entry.now)) }
        ensures { self.new ≡ record self.old { outline = outline_undone self.old.outline (entry_of entry.now) } }
    {
        undo(&mut self.outline, entry);
    }

    /// Returns the outline.
    pub(super) fn outline(&self) -> &Outline
        ensures value { result.now ≡ self.now.outline }
        ensures few_sources { length result.now.sources ≤ present.max_sources }
    {
        &self.outline
    }

    /// Returns the settings of an archive.
    pub fn archive(&self, archive: usize) -> &RraDef
        requires { archive < length self.now.outline.archives }
        ensures value { slice_get self.now.outline.archives archive ≡ Some result.now }
        ensures good { IsArchiveDef present result.now }
    {
        self.outline.archives.get(archive)
    }

    // ---- entries of updates

    /// Returns whether an update can have started at `last`, in seconds since 1970.
    ///
    /// An update starts before the last time of the outline.
    pub fn is_before_last_time(&self, last: u64) -> bool
        ensures good { result ≡ true → last < self.now.outline.last }
        ensures bad { last < self.now.outline.last → result ≡ true }
    {
        last < self.outline.last
    }

    /// Returns whether a data source accepts a raw value: the last one before an update.
    pub fn accepts_raw(&self, source: usize, raw: Raw) -> bool
        requires { source < length self.now.outline.sources }
        ensures good { result ≡ true
            → (d : DsDef) → IsAccepted (slice_index_or self.now.outline.sources source d).kind raw }
        ensures bad { (d : DsDef) → IsAccepted (slice_index_or self.now.outline.sources source d).kind raw
            → result ≡ true }
    {
        self.outline.sources.get(source).kind.accepts(raw)
    }

    /// Returns the partial step with these values at `last`, in seconds since 1970.
    ///
    /// `known` is the number of known seconds, and `sum` the sum of their rates in millionths. Returns `None` if no
    /// partial step can have these values.
    pub fn step_part(&self, last: u64, known: u64, sum: i128) -> Option<StepPrep>
        ensures some { IfSome result (λ prep. IsPart Average (last % self.now.step) prep
            × (prep ≡ record { known = known; value = sum })) }
        ensures none { result ≡ None
            → IsPart Average (last % self.now.step) (record { known = known; value = sum }) → ⊥ }
    {
        if !is_part(Function::Average, last % self.step, known, sum) {
            return None;
        }
        Some(StepPrep::from_part(known, sum))
    }

    /// Returns the partial row with these values at `last`, in an archive with these settings.
    ///
    /// `last` is in seconds since 1970, `known` is the number of known steps, and `value` their sum, minimum, maximum
    /// or last value in millionths. Returns `None` if no partial row can have these values.
    pub fn row_part(&self, last: u64, def: &RraDef, known: u64, value: i128) -> Option<RowPrep>
        requires some_steps { 0 < def.now.steps }
        requires few_steps { def.now.steps ≤ present.max_steps_per_row }
        ensures some { IfSome result (λ prep. IsRowPart self.now.step last def.now prep.part
            × (prep ≡ record { function = def.now.function; part = record { known = known; value = value } })) }
        ensures none { result ≡ None
            → IsRowPart self.now.step last def.now (record { known = known; value = value }) → ⊥ }
    {
        if !is_part(def.function, last / self.step % def.steps, known, value) {
            return None;
        }
        Some(RowPrep::from_part(def.function, known, value))
    }

    /// Returns how many rows of an archive an update from `last` replaced: at most all.
    ///
    /// `last` is in seconds since 1970.
    pub fn replaced_row_count(&self, last: u64, def: &RraDef) -> u64
        requires some_steps { 0 < def.now.steps }
        requires few_steps { def.now.steps ≤ present.max_steps_per_row }
        ensures { result ≡ min (rows_between self.now.step def.now last self.now.outline.last) def.now.rows }
    {
        rows_between(def, self.step, last, self.outline.last).min(def.rows)
    }

    // ---- entries of tunes

    /// Returns whether a tune can have named `count` data sources: 1 to 5.
    pub fn is_valid_tune_count(count: u64) -> bool
        ensures good { result ≡ true → (0 < count) × (count ≤ max_tuned) }
        ensures bad { (0 < count) × (count ≤ max_tuned) → result ≡ true }
    {
        0 < count && count <= MAX_TUNED as u64
    }

    /// Returns whether a tune can have named this data source.
    ///
    /// The number of the data source must be at least `lowest`.
    pub fn is_valid_saved_source(&self, lowest: u64, old: &SavedSource) -> bool
        ensures few { result ≡ true → old.now.number < present.max_sources }
        ensures good { result ≡ true → (lowest ≤ old.now.number) × (old.now.number < length self.now.outline.sources)
            × IsSavedSource (limits_of self.now.version) old.now }
        ensures bad { (lowest ≤ old.now.number) × (old.now.number < length self.now.outline.sources)
            × IsSavedSource (limits_of self.now.version) old.now → result ≡ true }
    {
        lowest <= old.number
            && old.number < self.outline.sources.len() as u64
            && is_source(&old.source)
            && old.source.kind.accepts(old.raw)
    }

    // ---- entries of resizes

    /// Returns whether there is an archive with this number.
    pub fn has_archive(&self, archive: u64) -> bool
        ensures good { result ≡ true → archive < length self.now.outline.archives }
        ensures bad { archive < length self.now.outline.archives → result ≡ true }
    {
        archive < self.outline.archives.len() as u64
    }

    /// Returns whether an archive can have had `rows` rows before a resize.
    pub fn is_valid_old_row_count(&self, archive: usize, rows: u64) -> bool
        requires { archive < length self.now.outline.archives }
        ensures good { result ≡ true → AreOldRows (limits_of self.now.version) self.now.outline archive rows }
        ensures bad { AreOldRows (limits_of self.now.version) self.now.outline archive rows → result ≡ true }
    {
        let archives = self.outline.archives.as_slice();
        let held = archives[archive].rows;
        if is_bad_rows(rows) || rows == held {
            return false;
        }
        let all = all_rows(archives) - held + rows;
        !has_too_many_cells(self.version.max_cells(), self.outline.sources.len(), all)
    }

    // ---- entries of archives that were added or removed

    /// Returns whether the version has entries for added and removed archives.
    pub fn allows_archive_changes(&self) -> bool
        ensures { result ≡ allows_archive_changes_of self.now.version }
    {
        self.version.allows_archive_changes()
    }

    /// Returns whether a removed archive can have had this number.
    ///
    /// There must be room for one more archive.
    pub fn is_valid_removed_number(&self, archive: u64) -> bool
        ensures good { result ≡ true → IsRemovedNumber (limits_of self.now.version) self.now.outline archive }
        ensures bad { IsRemovedNumber (limits_of self.now.version) self.now.outline archive → result ≡ true }
    {
        let archives = self.outline.archives.len();
        archive <= archives as u64 && archives < self.version.max_archives()
    }

    /// Returns whether an archive of these settings may be added to those of the outline.
    ///
    /// Each setting must be within its range, and all cells must be few enough.
    pub fn accepts_archive(&self, def: &RraDef) -> bool
        ensures good { result ≡ true → AreRemovedSettings (limits_of self.now.version) self.now.outline def.now }
        ensures bad { AreRemovedSettings (limits_of self.now.version) self.now.outline def.now → result ≡ true }
    {
        if !is_archive(def) {
            return false;
        }
        let all = all_rows(self.outline.archives.as_slice()) + def.rows;
        !has_too_many_cells(self.version.max_cells(), self.outline.sources.len(), all)
    }
}
