//! The tune of data sources or archives: the checks, the new settings, the journal entry, and how data sources are
//! restored.
ghost use Rattle.std.specs.Prelude.{◌≡◌, ◌≤◌, ◌*◌, ◌++◌, ◌∷◌, [], ◌||◌, List, None, Some, IfOk, OnErr, OnOk, length, map, nat_lt, sum, true};
ghost use Rattle.rrd_base.specs.Names.{AllByRecursion, list_any, result_err, rows_of_archives, Settings, DsDef, Add, Remove, raws_under, max_tuned, present, IsValid};
ghost use Rattle.rrd_base.specs.Words.{entry_of, HasFewRows, settings, IsThere, with_archive_tuned};
ghost use Rattle.rrd_spec.specs.Commands as commands;
ghost use Rattle.rrd_spec.specs.Journal.Entries as entries;
ghost use Rattle.rrd_spec.specs.Commands.Verdict as verdict;

use crate::content::Content;
use crate::create::{check_archives, has_bad_bounds, is_bad_heartbeat, is_beyond_limits};
use crate::journal::{Entry, put_back};
use crate::named::has_source;
use crate::rows::all_rows;
use crate::rra::Rra;
use crate::{ArchiveTune, DsDef, Refusal, RraDef, SavedSource, Tuning};
use arrayvec::ArrayVec;
use rrd_fixed::{Kind, Name, Raw};
use rrd_spec::laws;
use rrd_spec::limits::MAX_TUNED;
use std::alloc::{AllocError, Global};

// ---- the checks

// Returns whether there is no option.
fn has_no_option(tuning: &Tuning) -> bool
    ensures { result ≡ verdict.has_no_option tuning.now }
{
    tuning.heartbeat.is_none()
        && tuning.minimum.is_none()
        && tuning.maximum.is_none()
        && tuning.kind.is_none()
        && tuning.rename.is_none()
}

// Returns whether there is neither an option nor an archive.
fn asks_nothing(tuning: &Tuning) -> bool
    ensures { result ≡ verdict.asks_nothing tuning.now }
{
    has_no_option(tuning) && tuning.archive.is_none()
}

// Returns whether there are both an option and an archive.
fn is_mixed(tuning: &Tuning) -> bool
    ensures { result ≡ verdict.is_mixed tuning.now }
{
    !has_no_option(tuning) && tuning.archive.is_some()
}

// Returns whether an option has a name that no data source has.
fn names_no_source<T>(sources: &[DsDef], option: &Option<(Name, T)>) -> bool
    ensures { result ≡ verdict.names_no_source sources.now option.now }
{
    match option {
        Some((name, _)) => !has_source(sources, name),
        None => false,
    }
}

// Returns whether one of the options has a name that no data source has.
fn any_names_no_source(sources: &[DsDef], tuning: &Tuning) -> bool
    ensures { result ≡ verdict.any_names_no_source sources.now tuning.now }
{
    names_no_source(sources, &tuning.heartbeat)
        || names_no_source(sources, &tuning.minimum)
        || names_no_source(sources, &tuning.maximum)
        || names_no_source(sources, &tuning.kind)
        || names_no_source(sources, &tuning.rename)
}

// Returns whether the new name is not valid.
fn has_bad_name(tuning: &Tuning) -> bool
    ensures { result ≡ verdict.asks_bad_name tuning.now }
{
    match &tuning.rename {
        Some((_, new)) => !new.good(),
        None => false,
    }
}

// Returns whether another data source has the new name.
fn doubles_name(sources: &[DsDef], tuning: &Tuning) -> bool
    ensures { result ≡ verdict.asks_double_name sources.now tuning.now }
{
    match &tuning.rename {
        Some((old, new)) => !old.same(new) && has_source(sources, new),
        None => false,
    }
}

// Returns whether a data source would have bad bounds.
fn any_bad_bounds(sources: &[DsDef], tuning: &Tuning) -> bool
    ensures { result
        ≡ list_any (λ source. verdict.has_bad_bounds present (commands.tuned tuning.now source)) sources.now }
{
    sources
        .iter()
        .any(|source| has_bad_bounds(&settings_after(tuning, source)))
}

// Returns whether the new heartbeat is a bad one.
fn has_bad_heartbeat(tuning: &Tuning) -> bool
    ensures { result ≡ verdict.asks_bad_heartbeat present tuning.now }
{
    match &tuning.heartbeat {
        Some((_, seconds)) => is_bad_heartbeat(*seconds),
        None => false,
    }
}

// Checks the options of a tune (rrdtune).
fn check_options(sources: &[DsDef], tuning: &Tuning) -> Result<(), Refusal>
    ensures { result_err result ≡ verdict.first_refusal (verdict.option_checks present sources.now tuning.now) }
{
    if asks_nothing(tuning) {
        return Err(Refusal::NothingToTune);
    }
    if is_mixed(tuning) {
        return Err(Refusal::MixedTune);
    }
    if any_names_no_source(sources, tuning) {
        return Err(Refusal::NoSuchSource);
    }
    if has_bad_name(tuning) {
        return Err(Refusal::BadName);
    }
    if doubles_name(sources, tuning) {
        return Err(Refusal::DoubleName);
    }
    if has_bad_heartbeat(tuning) {
        return Err(Refusal::BadHeartbeat);
    }
    if any_bad_bounds(sources, tuning) {
        return Err(Refusal::BadBounds);
    }
    Ok(())
}

// Returns whether the database would be too large with one more archive of `rows` rows, at most 1,000,000.
fn is_too_large(sources: usize, archives: &[Rra], rows: u64) -> bool
    requires few_rows { AllByRecursion HasFewRows archives.now }
    requires few_archives { length archives.now ≤ present.max_archives }
    requires few { rows ≤ present.max_rows }
    ensures { let all = rows_of_archives archives.now ++ rows ∷ [] in
        result ≡ nat_lt present.max_archives (length all) || nat_lt present.max_cells (sources * sum all) }
{
    is_beyond_limits(sources, archives.len() + 1, all_rows(archives) + rows)
}

// Checks whether an archive with these settings can be added.
fn check_added(sources: usize, archives: &[Rra], def: &RraDef) -> Result<(), Refusal>
    requires few_rows { AllByRecursion HasFewRows archives.now }
    requires few { length archives.now ≤ present.max_archives }
    ensures { (all : List DsDef) → length all ≡ sources → result_err result
        ≡ verdict.first_refusal (verdict.archive_tune_checks present (settings all archives.now) (Some (Add def.now))) }
{
    check_archives(&[*def])?;
    if is_too_large(sources, archives, def.rows) {
        return Err(Refusal::TooLarge);
    }
    Ok(())
}

// Checks whether archive number `archive` of `archives` archives can be removed.
fn check_removed(archives: usize, archive: u64) -> Result<(), Refusal>
    ensures { (all : Settings) → length all.rows ≡ archives → result_err result
        ≡ verdict.first_refusal (verdict.archive_tune_checks present all (Some (Remove archive))) }
{
    if archive >= archives as u64 {
        return Err(Refusal::NoSuchArchive);
    }
    if archives <= 1 {
        return Err(Refusal::NoArchive);
    }
    Ok(())
}

// Checks whether an archive can be added or removed as requested.
fn check_archive(sources: &[DsDef], archives: &[Rra], asked: &ArchiveTune) -> Result<(), Refusal>
    requires few_rows { AllByRecursion HasFewRows archives.now }
    requires few { length archives.now ≤ present.max_archives }
    ensures { result_err result ≡ verdict.first_refusal
        (verdict.archive_tune_checks present (settings sources.now archives.now) (Some asked.now)) }
{
    match asked {
        ArchiveTune::Add(def) => check_added(sources.len(), archives, def),
        ArchiveTune::Remove(archive) => check_removed(archives.len(), *archive),
    }
}

// Checks a tune (rrdtune).
fn check_tune(sources: &[DsDef], archives: &[Rra], tuning: &Tuning) -> Result<(), Refusal>
    requires few_rows { AllByRecursion HasFewRows archives.now }
    requires few { length archives.now ≤ present.max_archives }
    ensures { result_err result ≡ verdict.first_refusal
        (verdict.tune_checks present (settings sources.now archives.now) tuning.now) }
{
    check_options(sources, tuning)?;
    match &tuning.archive {
        Some(asked) => check_archive(sources, archives, asked),
        None => Ok(()),
    }
}

// ---- the new settings

// Returns the value that an option sets for the data source of a name; otherwise the old value.
fn setting_after<T: Copy>(option: &Option<(Name, T)>, name: &Name, old: T) -> T
    ensures { result ≡ commands.asked option.now name.now old }
{
    match option {
        Some((asked, value)) => { if asked.same(name) { *value } else { old } }
        None => old,
    }
}

// Returns the name of a data source after the tune.
fn name_after(option: &Option<(Name, Name)>, name: &Name) -> Name
    ensures { result ≡ commands.asked option.now name.now name.now }
{
    match option {
        Some((asked, value)) => {
            if asked.same(name) {
                value.duplicate()
            } else {
                name.duplicate()
            }
        }
        None => name.duplicate(),
    }
}

// Returns the settings of a data source after the tune.
fn settings_after(tuning: &Tuning, source: &DsDef) -> DsDef
    ensures { result ≡ commands.tuned tuning.now source.now }
{
    let name = &source.name;
    DsDef {
        name: name_after(&tuning.rename, name),
        kind: setting_after(&tuning.kind, name, source.kind),
        heartbeat: setting_after(&tuning.heartbeat, name, source.heartbeat),
        min: setting_after(&tuning.minimum, name, source.min),
        max: setting_after(&tuning.maximum, name, source.max),
    }
}

// Returns the raw value of a data source under its new settings: unknown if the type changes.
fn raw_under(old: Kind, new: Kind, raw: Raw) -> Raw
    ensures { result ≡ commands.raw_under old new raw }
{
    if old == new { raw } else { Raw::Unknown }
}

// Gives each data source its new settings.
fn tune_all(sources: &mut [DsDef], raws: &mut [Raw], tuning: &Tuning)
    requires { length raws.old ≡ length sources.old }
    ensures sources { sources.new ≡ map (commands.tuned tuning.now) sources.old }
    ensures raws { raws.new ≡ raws_under sources.old (map (commands.tuned tuning.now) sources.old) raws.old }
{
    for number in 0..sources.len() {
        let new = settings_after(tuning, &sources[number]);
        raws[number] = raw_under(sources[number].kind, new.kind, raws[number]);
        sources[number] = new;
    }
}

// ---- the journal entry

// Returns whether an option is for a data source.
fn is_asked<T>(option: &Option<(Name, T)>, source: &DsDef) -> bool
    ensures { result ≡ entries.is_asked option.now source.now }
{
    match option {
        Some((name, _)) => name.same(&source.name),
        None => false,
    }
}

// Returns whether a tune names a data source.
fn is_named(tuning: &Tuning, source: &DsDef) -> bool
    ensures { result ≡ entries.is_named tuning.now source.now }
{
    is_asked(&tuning.heartbeat, source)
        || is_asked(&tuning.minimum, source)
        || is_asked(&tuning.maximum, source)
        || is_asked(&tuning.kind, source)
        || is_asked(&tuning.rename, source)
}

// Copies the data sources that a tune names, by rising number. Does not allocate.
fn keep_sources(
    sources: &[DsDef],
    raws: &[Raw],
    tuning: &Tuning,
) -> ArrayVec<SavedSource, MAX_TUNED>
    requires one_each { length raws.now ≡ length sources.now }
    requires few { length (entries.saved_sources tuning.now 0 sources.now raws.now) ≤ max_tuned }
    ensures { result.items ≡ entries.saved_sources tuning.now 0 sources.now raws.now }
{
    let mut kept = ArrayVec::new();
    for number in 0..sources.len() {
        let source = &sources[number];
        if is_named(tuning, source) {
            kept.push(SavedSource {
                number: number as u64,
                source: source.duplicate(),
                raw: raws[number],
            });
        }
    }
    kept
}

// ---- methods of a content

impl Content {
    /// Checks a tune.
    pub(crate) fn check_tune(&self, tuning: &Tuning) -> Result<(), Refusal>
        ensures { result_err result ≡ verdict.verdict self.now (commands.TuningBy tuning.now) }
    {
        check_tune(&self.sources, self.archives.as_slice(), tuning)
    }

    /// Makes the changes of an accepted tune, and returns its journal entry. Allocates only to add an archive.
    pub(crate) fn tune(&mut self, alloc: Global, tuning: &Tuning) -> Result<Entry, AllocError>
        requires valid { IsValid self.old }
        requires accepted { verdict.verdict self.old (commands.TuningBy tuning.now) ≡ None }
        ensures ok { OnOk result (self.new ≡ commands.moved self.old (commands.TuningBy tuning.now)) }
        ensures entry { IfOk result (λ entry. entry_of entry
            ≡ entries.entry self.old (commands.TuningBy tuning.now)) }
        ensures err { OnErr result (self.new ≡ self.old) }
        ensures memory { OnErr result (commands.is_addition tuning.now.archive ≡ true) }
    {
        laws::stays_valid();
        laws::tune_changes_archives();
        match &tuning.archive {
            None => {
                let kept = self.keep_sources(tuning);
                self.tune_sources(tuning);
                Ok(Entry::Tune(kept))
            }
            Some(asked) => self.tune_archive(alloc, asked),
        }
    }

    // Adds or removes an archive, and returns the journal entry.
    fn tune_archive(&mut self, alloc: Global, asked: &ArchiveTune) -> Result<Entry, AllocError>
        requires there { IsThere self.old asked.now }
        requires valid { IsValid (with_archive_tuned self.old asked.now) }
        ensures ok { OnOk result (self.new ≡ with_archive_tuned self.old asked.now) }
        ensures entry { IfOk result (λ entry. entry_of entry ≡ entries.archive_entry self.old asked.now) }
        ensures err { OnErr result (self.new ≡ self.old) }
        ensures memory { OnErr result (commands.is_addition (Some asked.now) ≡ true) }
    {
        match asked {
            ArchiveTune::Add(def) => {
                self.add_archive(alloc, *def)?;
                Ok(Entry::Added)
            }
            ArchiveTune::Remove(archive) => {
                let archive = *archive;
                let old = self.remove_archive(archive as usize);
                Ok(Entry::Removed { archive, old })
            }
        }
    }

    // Gives the data sources the settings of a tune.
    fn tune_sources(&mut self, tuning: &Tuning)
        requires accepted { verdict.verdict self.old (commands.TuningBy tuning.now) ≡ None }
        requires alone { tuning.now.archive ≡ None }
        ensures { self.new ≡ commands.moved self.old (commands.TuningBy tuning.now) }
    {
        laws::tune_changes_sources();
        laws::stays_valid();
        tune_all(&mut self.sources, &mut self.raws, tuning);
    }

    // Copies the data sources that an accepted tune names.
    fn keep_sources(&self, tuning: &Tuning) -> ArrayVec<SavedSource, MAX_TUNED>
        requires accepted { verdict.verdict self.now (commands.TuningBy tuning.now) ≡ None }
        requires alone { tuning.now.archive ≡ None }
        ensures { entries.TuneEntry result.items ≡ entries.entry self.now (commands.TuningBy tuning.now) }
    {
        laws::entry_fits();
        keep_sources(&self.sources, &self.raws, tuning)
    }

    /// Restores the data sources that a tune named.
    pub(crate) fn undo_tune(&mut self, kept: &ArrayVec<SavedSource, MAX_TUNED>)
        requires { IsValid (entries.undone self.old (entries.TuneEntry kept.now.items)) }
        ensures { self.new ≡ entries.undone self.old (entries.TuneEntry kept.now.items) }
    {
        put_back(&mut self.sources, kept.as_slice());
        put_back(&mut self.raws, kept.as_slice());
    }
}
