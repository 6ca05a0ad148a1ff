//! The samples of an update: the checks, the journal entry, and how it is undone.
ghost use Rattle.std.specs.Prelude.{◌≡◌, ◌<◌, ◌≤◌, ◌∷◌, [], IfOk, false, length, map, not};
ghost use Rattle.rrd_base.specs.Names.{DsDef, list_any, list_all, result_err, names, has_source, is_double, Updating, raw_of, value_for, present, first_refusal, is_admitted, sample_checks, update_checks, verdict, UpdateEntry, undone, IsValid, IsAccepted};
ghost use Rattle.rrd_base.specs.Words.{before, update_of, CanPutBackEach, AreColumns, end_time, template_checks, template_of};

use crate::archives::{put_back_all, save_all};
use crate::columns::Columns;
use crate::content::Content;
use crate::named::{has_double_name, has_source};
use crate::{BeforeUpdate, DsDef, EachSource, Given, List, Refusal, Sample, Update};
use rrd_fixed::{Name, Raw, admit};
use rrd_spec::limits::MAX_TIME;
use std::alloc::{AllocError, Global};

// Returns the number of values that each sample must have.
fn width(template: &Option<List<Name>>, sources: &[DsDef]) -> usize
    ensures { result ≡ length (template_of sources.now template.now) }
{
    match template {
        Some(names) => names.len(),
        None => sources.len(),
    }
}

// Returns whether a data source accepts a given value.
fn is_admitted(source: &DsDef, given: Given) -> bool
    ensures { result ≡ is_admitted source.now given }
{
    match given {
        Given::Unknown => true,
        Given::Number(number) => admit(source.kind, number).is_some(),
    }
}

// Returns whether each data source accepts its value.
fn are_admitted(columns: &Columns, sources: &[DsDef], values: &[Given]) -> bool
    requires { AreColumns sources.now columns.now }
    ensures { let template = template_of sources.now columns.now.template.now in
        result ≡ list_all (λ source. is_admitted source (value_for template values.now source)) sources.now }
{
    for number in 0..sources.len() {
        if !is_admitted(&sources[number], columns.value(values, number)) {
            return false;
        }
    }
    true
}

// Checks a sample after one at `last`.
fn check_sample(
    columns: &Columns,
    sources: &[DsDef],
    last: u64,
    sample: &Sample,
) -> Result<(), Refusal>
    requires { AreColumns sources.now columns.now }
    ensures { let template = template_of sources.now columns.now.template.now in
        result_err result ≡ first_refusal (sample_checks present sources.now template last (sample.now ∷ [])) }
{
    if sample.time > MAX_TIME {
        return Err(Refusal::BadTime);
    }
    if sample.time <= last {
        return Err(Refusal::NotLater { last });
    }
    if sample.values.len() != width(columns.template, sources) {
        return Err(Refusal::WrongCount);
    }
    if !are_admitted(columns, sources, sample.values.as_slice()) {
        return Err(Refusal::BadValue);
    }
    Ok(())
}

// Checks the samples in order.
fn check_samples(
    columns: &Columns,
    sources: &[DsDef],
    last: u64,
    samples: &[Sample],
) -> Result<(), Refusal>
    requires { AreColumns sources.now columns.now }
    ensures { let template = template_of sources.now columns.now.template.now in
        result_err result ≡ first_refusal (sample_checks present sources.now template last samples.now) }
{
    let mut last = last;
    for sample in samples {
        check_sample(columns, sources, last, sample)?;
        last = sample.time;
    }
    Ok(())
}

// Returns whether one of the names is not that of a data source.
fn any_names_no_source(sources: &[DsDef], names: &[Name]) -> bool
    ensures { result ≡ list_any (λ name. not (has_source sources.now name)) names.now }
{
    names.iter().any(|name| !has_source(sources, name))
}

// Checks the template.
fn check_template(template: &Option<List<Name>>, sources: &[DsDef]) -> Result<(), Refusal>
    ensures { result_err result ≡ first_refusal (template_checks sources.now template.now) }
{
    let Some(names) = template else {
        return Ok(());
    };
    if any_names_no_source(sources, names.as_slice()) {
        return Err(Refusal::NoSuchSource);
    }
    if has_double_name(names.as_slice()) {
        return Err(Refusal::DoubleName);
    }
    Ok(())
}

// Checks an update, and returns the indexes of its values (rrdupdate).
fn check_update<'a>(
    sources: &[DsDef],
    last: u64,
    update: &'a Update,
) -> Result<Columns<'a>, Refusal>
    requires names_differ { is_double (names sources.now) ≡ false }
    requires few { length sources.now ≤ present.max_sources }
    ensures refusal { result_err result ≡ first_refusal (update_checks present sources.now last update.now) }
    ensures columns { IfOk result (λ columns. AreColumns sources.now columns
        × (columns.template.now ≡ update.now.template)) }
{
    check_template(&update.template, sources)?;
    let samples = update.samples.as_slice();
    if samples.is_empty() {
        return Err(Refusal::NoSample);
    }
    let columns = Columns::new(&update.template, sources);
    check_samples(&columns, sources, last, samples)?;
    Ok(columns)
}

// Returns the raw value that a data source keeps of a given value.
fn raw_of(source: &DsDef, given: Given) -> Raw
    ensures value { result ≡ raw_of source.now.kind given }
    ensures accepted { IsAccepted source.now.kind result }
{
    match given {
        Given::Unknown => Raw::Unknown,
        Given::Number(number) => match admit(source.kind, number) {
            None => Raw::Unknown,
            Some(value) => Raw::Known(value),
        },
    }
}

/// Writes the raw values of a sample, one for each data source.
pub(crate) fn raws_into(columns: &Columns, sources: &[DsDef], values: &[Given], raws: &mut [Raw])
    requires room { length raws.old ≡ length sources.now }
    requires columns { AreColumns sources.now columns.now }
    ensures value { let template = template_of sources.now columns.now.template.now in
        raws.new ≡ map (λ source. raw_of source.kind (value_for template values.now source)) sources.now }
{
    for number in 0..sources.len() {
        raws[number] = raw_of(&sources[number], columns.value(values, number));
    }
}

/// Returns the time of an update's last sample.
pub(crate) fn end_time(update: &Update) -> u64
    requires { 0 < length update.now.samples }
    ensures { result ≡ end_time update.now }
{
    let samples = update.samples.as_slice();
    samples[samples.len() - 1].time
}

impl Content {
    /// Checks an update, and returns the indexes of its values.
    pub(crate) fn check_update<'a>(&self, update: &'a Update) -> Result<Columns<'a>, Refusal>
        ensures refusal { result_err result ≡ verdict self.now (Updating update.now) }
        ensures columns { IfOk result (λ columns. AreColumns self.now.sources columns
            × (columns.template.now ≡ update.now.template)) }
    {
        check_update(&self.sources, self.last, update)
    }

    /// Copies the values that an update up to `end` replaces.
    pub(crate) fn before(&self, alloc: Global, end: u64) -> Result<BeforeUpdate, AllocError>
        ensures { IfOk result (λ b. update_of b ≡ before self.now end) }
    {
        Ok(BeforeUpdate {
            last: self.last,
            raws: EachSource::from_slice(alloc, &self.raws)?,
            preps: EachSource::from_slice(alloc, &self.preps)?,
            archives: save_all(alloc, self.archives.as_slice(), self.step, self.last, end)?,
        })
    }

    /// Undoes an update. Does not allocate.
    pub(crate) fn undo_update(&mut self, before: BeforeUpdate)
        requires fits { CanPutBackEach self.old.archives before.archives.items }
        requires valid { IsValid (undone self.old (UpdateEntry (update_of before))) }
        ensures { self.new ≡ undone self.old (UpdateEntry (update_of before)) }
    {
        let BeforeUpdate {
            last,
            raws,
            preps,
            archives,
        } = before;
        self.last = last;
        self.raws.copy_from_slice(raws.as_slice());
        self.preps.copy_from_slice(preps.as_slice());
        put_back_all(self.archives.as_mut_slice(), archives);
    }
}
