//! The checks of a complete journal entry against an outline: each piece by its rule in `EntryValidator`.
//!
//! Updates are by far the most entries: a reader checks all of their rules piece by piece, and nothing is left to check.
ghost use Rattle.std.specs.Prelude.{◌≡◌, ◌%◌, ◌/◌, List, ◌<◌, ◌≤◌, length, true};
ghost use Rattle.rrd_base.specs.Names.{AllByRecursion, parts_in, limits_of, present, AddedEntry, with_sources, IsSavedSource, MayRemove, MayResize, MayTune, MayUndo, names, AreParts, IsPart, IsRow, Rise};
ghost use Rattle.rrd_base.specs.Words.{IsChecked, entry_of};
ghost use Rattle.rrd_spec.specs.Journal.Fitting.{IsArchiveDef};

use super::piece_checks::are_bounded;
use super::validator::EntryValidator;
use crate::journal::{Entry, put_back};
use crate::named::has_double_name;
use crate::rra::Rra;
use crate::{DsDef, RraDef, SavedSource};
use arrayvec::ArrayVec;
use rrd_fixed::{Name, StoredCell};
use rrd_fold::RowPrep;
use rrd_ring::Archive;
use rrd_spec::limits::MAX_SOURCES;

// ---- rows

// Returns whether a row has one cell for each data source, none with an absolute value above the maximum rate.
fn is_row(cells: &[StoredCell], sources: usize) -> bool
    ensures good { result ≡ true → IsRow sources cells.now }
    ensures bad { IsRow sources cells.now → result ≡ true }
{
    cells.len() == sources && are_bounded(cells)
}

// Returns whether all rows have one cell for each data source, none with an absolute value above the maximum rate.
fn are_rows(rows: &Archive, sources: usize) -> bool
    ensures good { result ≡ true → AllByRecursion (IsRow sources) rows.now }
    ensures bad { AllByRecursion (IsRow sources) rows.now → result ≡ true }
{
    for number in 0..rows.rows() {
        if !is_row(rows.row(number), sources) {
            return false;
        }
    }
    true
}

// ---- partial rows

// Returns whether these can be partial rows at `last` in an archive with these settings.
fn are_row_parts(validator: &EntryValidator, last: u64, def: &RraDef, preps: &[RowPrep]) -> bool
    requires { IsArchiveDef present def.now }
    ensures good { result ≡ true
        → AllByRecursion (IsPart def.now.function (last / validator.now.step % def.now.steps)) (parts_in preps.now) }
    ensures bad { AllByRecursion (IsPart def.now.function (last / validator.now.step % def.now.steps)) (parts_in preps.now)
        → result ≡ true }
{
    for prep in preps {
        if validator
            .row_part(last, def, prep.known(), prep.value())
            .is_none()
        {
            return false;
        }
    }
    true
}

// Returns whether these can be the partial rows at `last` in an archive with these settings, one for each data source.
fn are_preps(validator: &EntryValidator, last: u64, def: &RraDef, preps: &[RowPrep]) -> bool
    requires { IsArchiveDef present def.now }
    ensures good { result ≡ true → AreParts def.now.function (length validator.now.outline.sources)
        (last / validator.now.step % def.now.steps) (parts_in preps.now) }
    ensures bad { AreParts def.now.function (length validator.now.outline.sources)
        (last / validator.now.step % def.now.steps) (parts_in preps.now) → result ≡ true }
{
    preps.len() == validator.outline().sources.len() && are_row_parts(validator, last, def, preps)
}

// ---- entries of tunes

// Returns whether these are valid data sources by rising number.
fn are_named(validator: &EntryValidator, olds: &[SavedSource]) -> bool
    ensures rise { result ≡ true → Rise 0 (length validator.now.outline.sources) olds.now }
    ensures each { result ≡ true → AllByRecursion (IsSavedSource (limits_of validator.now.version)) olds.now }
    ensures bad { Rise 0 (length validator.now.outline.sources) olds.now
        → AllByRecursion (IsSavedSource (limits_of validator.now.version)) olds.now → result ≡ true }
{
    let mut lowest = 0;
    for old in olds {
        if !validator.is_valid_saved_source(lowest, old) {
            return false;
        }
        lowest = old.number + 1;
    }
    true
}

// Copies the names of data sources. Does not allocate.
fn names_of(sources: &[DsDef]) -> ArrayVec<Name, MAX_SOURCES>
    requires { length sources.now ≤ present.max_sources }
    ensures { result.items ≡ names sources.now }
{
    let mut all = ArrayVec::new();
    for source in sources {
        all.push(source.name.duplicate());
    }
    all
}

// Returns the names of data sources after a tune's entry is undone.
fn names_with(sources: &[DsDef], olds: &[SavedSource]) -> ArrayVec<Name, MAX_SOURCES>
    requires { length sources.now ≤ present.max_sources }
    ensures { result.items ≡ names (with_sources sources.now olds.now) }
{
    let mut all = names_of(sources);
    put_back(&mut all, olds);
    all
}

// Returns whether a tune may have left this outline.
fn may_tune(validator: &EntryValidator, olds: &[SavedSource]) -> bool
    ensures good { result ≡ true → MayTune (limits_of validator.now.version) validator.now.outline olds.now }
    ensures bad { MayTune (limits_of validator.now.version) validator.now.outline olds.now → result ≡ true }
{
    if !EntryValidator::is_valid_tune_count(olds.len() as u64) || !are_named(validator, olds) {
        return false;
    }
    !has_double_name(names_with(validator.outline().sources.as_slice(), olds).as_slice())
}

// ---- entries of resizes

// Returns whether a resize may have left this outline.
fn may_resize(validator: &EntryValidator, archive: u64, old: &Archive) -> bool
    ensures good { result ≡ true → MayResize (limits_of validator.now.version) validator.now.outline archive old.now }
    ensures bad { MayResize (limits_of validator.now.version) validator.now.outline archive old.now → result ≡ true }
{
    validator.has_archive(archive)
        && validator.is_valid_old_row_count(archive as usize, old.rows())
        && are_rows(old, validator.outline().sources.len())
}

// ---- entries of archives that were added or removed

// Returns whether an addition may have left this outline: the version has such entries, and there are two archives or
// more.
fn may_add(validator: &EntryValidator) -> bool
    ensures good { result ≡ true → MayUndo (limits_of validator.now.version) 0 validator.now.outline AddedEntry }
    ensures bad { MayUndo (limits_of validator.now.version) 0 validator.now.outline AddedEntry → result ≡ true }
{
    validator.allows_archive_changes() && validator.outline().archives.len() > 1
}

// Returns whether a removal may have left this outline.
fn may_remove(validator: &EntryValidator, archive: u64, old: &Rra) -> bool
    ensures good { result ≡ true
        → MayRemove (limits_of validator.now.version) validator.now.step validator.now.outline archive old.now }
    ensures bad { MayRemove (limits_of validator.now.version) validator.now.step validator.now.outline archive old.now
        → result ≡ true }
{
    let def = old.def();
    validator.is_valid_removed_number(archive)
        && validator.accepts_archive(&def)
        && are_preps(validator, validator.outline().last, &def, old.preps())
        && old.archive().rows() == def.rows
        && are_rows(old.archive(), validator.outline().sources.len())
}

impl EntryValidator {
    /// Returns whether an entry fits the outline. An update's pieces were all checked while they were read.
    pub(super) fn may_undo(&self, entry: &Entry) -> bool
        requires { IsChecked self.now (entry_of entry.now) }
        ensures good { result ≡ true
            → MayUndo (limits_of self.now.version) self.now.step self.now.outline (entry_of entry.now) }
        ensures bad { MayUndo (limits_of self.now.version) self.now.step self.now.outline (entry_of entry.now)
            → result ≡ true }
    {
        match entry {
            Entry::Update(_) => true,
            Entry::Tune(olds) => may_tune(self, olds.as_slice()),
            Entry::Resize { archive, old } => may_resize(self, *archive, old),
            Entry::Added => may_add(self),
            Entry::Removed { archive, old } => {
                self.allows_archive_changes() && may_remove(self, *archive, old)
            }
        }
    }
}
