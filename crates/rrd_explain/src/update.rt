//! What of an update is not allowed, or not by its file.
use crate::file::{Names, no_source, source_named};
use crate::numbers::decimal_text;
use crate::ranges::late;
use rrd_base::{Database, DsDef, Given, Refusal, Sample, Update};
use rrd_fixed::{Kind, Name, Number, admit};
use rrd_spec::limits::MAX_TIME;
use std::alloc::Global;
use std::fmt::{self, Display, Formatter};

/// By how many seconds a sample may be ahead of the clock before that is said: clocks of two machines differ.
const CLOCKS: u64 = 60;

/// Names, with commas between them.
#[derive(Clone, Copy)]
struct Listed<'a>(&'a [Name]);

impl<'a> Display for Listed<'a> {
    fn fmt<W: fmt::Write>(&self, f: &mut Formatter<W>) -> fmt::Result {
        for (index, name) in self.0.iter().enumerate() {
            let mark = if index == 0 { "" } else { ", " };
            write!(f, "{mark}{}", name.as_str())?;
        }
        Ok(())
    }
}

// Returns the names of the template, if there is one.
fn template_of(update: &Update) -> Option<&[Name]> {
    match &update.template {
        Some(names) => Some(names.as_slice()),
        None => None,
    }
}

// Says which name of the template no data source has.
fn no_source_in(alloc: Global, database: &Database, update: &Update) -> Option<String> {
    for name in template_of(update)? {
        let found = no_source(alloc, database, name);
        if found.is_some() {
            return found;
        }
    }
    None
}

// Says which name the template has twice.
fn double_name(alloc: Global, update: &Update) -> Option<String> {
    let names = template_of(update)?;
    for (index, name) in names.iter().enumerate() {
        if names.get(..index)?.iter().any(|other| other.same(name)) {
            return format!(in alloc; "--template has {} twice", name.as_str()).ok();
        }
    }
    None
}

// Says which sample has a time that is too late.
fn late_sample(alloc: Global, update: &Update) -> Option<String> {
    for (index, sample) in update.samples.as_slice().iter().enumerate() {
        let of = format!(in alloc; "sample {} has the time", index.saturating_add(1)).ok()?;
        let found = late(alloc, &of, sample.time);
        if found.is_some() {
            return found;
        }
    }
    None
}

// Says which sample is not later than the one before it, which has the time `last`.
fn early_sample(alloc: Global, update: &Update, last: u64) -> Option<String> {
    let mut before = None;
    for (index, sample) in update.samples.as_slice().iter().enumerate() {
        let seconds = sample.time;
        let number = index.saturating_add(1);
        if before == Some(last) && seconds == last {
            return format!(in alloc;
                "samples {index} and {number} have the same time, {last}; leave one of them out"
            ).ok();
        }
        if before == Some(last) && seconds < last {
            return format!(in alloc;
                "sample {number} has the time {seconds}, before that of sample {index}, {last}; sort them by time"
            ).ok();
        }
        before = Some(seconds);
    }
    None
}

// Returns by how many seconds the last time of the file is later than the clock, if it is. Without a clock `now` is 0, and
// nothing is later.
fn ahead(last: u64, now: u64) -> Option<u64> {
    let seconds = last.saturating_sub(now);
    (now > 0 && seconds > CLOCKS).then_some(seconds)
}

// Says that the last time of the file is later than the clock.
fn ahead_text(alloc: Global, last: u64, seconds: u64) -> Option<String> {
    format!(in alloc;
        "{last} is {seconds} seconds ahead of the clock; if a sample has this wrong time, rrdi revert takes it back"
    ).ok()
}

// Says which sample is not later than the one before, or than the last time of the file.
fn not_later(
    alloc: Global,
    database: &Database,
    update: &Update,
    last: u64,
    now: u64,
) -> Option<String> {
    let seconds = update.samples.as_slice().first()?.time;
    if seconds > database.last() {
        return early_sample(alloc, update, last);
    }
    if let Some(seconds) = ahead(last, now) {
        return ahead_text(alloc, last, seconds);
    }
    let says = format!(in alloc; "{seconds} is not later than the last update, {last}").ok()?;
    if last >= MAX_TIME {
        return Some(says);
    }
    let next = last.saturating_add(1);
    format!(in alloc; "{says}; the next sample may be at {next} or later").ok()
}

// Says that the sample with this number, counted from 1, has too few or too many values.
fn count_text(
    alloc: Global,
    database: Option<&Database>,
    update: &Update,
    number: usize,
    count: usize,
    wanted: usize,
) -> Option<String> {
    let values = if count == 1 { "value" } else { "values" };
    let are = if wanted == 1 { "is" } else { "are" };
    let says = format!(in alloc;
        "sample {number} has {count} {values}, {wanted} {are} wanted"
    ).ok()?;
    match template_of(update) {
        Some(names) => format!(in alloc; "{says}: {}", Listed(names)).ok(),
        None => format!(in alloc; "{says}: {}", Names(database?)).ok(),
    }
}

// Says which sample has another number of values than the template has names or, without a template, than the database has
// data sources.
fn wrong_count(alloc: Global, database: Option<&Database>, update: &Update) -> Option<String> {
    let wanted = match template_of(update) {
        Some(names) => names.len(),
        None => database?.sources() as usize,
    };
    for (index, sample) in update.samples.as_slice().iter().enumerate() {
        let count = sample.values.len();
        if count != wanted {
            let number = index.saturating_add(1);
            return count_text(alloc, database, update, number, count, wanted);
        }
    }
    None
}

// Returns the type of a data source as it is written, and the values that it accepts.
fn kind_texts(kind: Kind) -> (&'static str, &'static str) {
    match kind {
        Kind::Gauge => ("GAUGE", "numbers below 10^18"),
        Kind::Counter => (
            "COUNTER",
            "whole numbers without a point from 0 to 2^64 - 1",
        ),
        Kind::Derive => (
            "DERIVE",
            "whole numbers without a point from -2^63 to 2^63 - 1",
        ),
        Kind::Absolute => ("ABSOLUTE", "numbers below 10^18"),
    }
}

// Returns the data source for the value with this index.
fn source_of<'a>(database: &'a Database, update: &Update, index: usize) -> Option<&'a DsDef> {
    if let Some(names) = template_of(update) {
        return source_named(database, names.get(index)?);
    }
    let number = index as u64;
    if number >= database.sources() {
        return None;
    }
    Some(database.source(number))
}

// Returns the number that a data source does not accept.
fn unaccepted(source: &DsDef, value: &Given) -> Option<Number> {
    match value {
        Given::Number(number) if admit(source.kind, *number).is_none() => Some(*number),
        _ => None,
    }
}

// Says which value of the sample with this number, counted from 1, its data source does not accept.
fn unaccepted_in(
    alloc: Global,
    database: &Database,
    update: &Update,
    number: usize,
    sample: &Sample,
) -> Option<String> {
    for (index, value) in sample.values.as_slice().iter().enumerate() {
        let source = source_of(database, update, index)?;
        let Some(wrong) = unaccepted(source, value) else {
            continue;
        };
        let text = decimal_text(alloc, wrong.millionths, wrong.point)?;
        let (kind, values) = kind_texts(source.kind);
        let name = source.name.as_str();
        let place = index.saturating_add(1);
        return format!(in alloc;
            "value {place} of sample {number} is {text}; {name} is of type {kind}, which takes {values}"
        ).ok();
    }
    None
}

// Says which value its data source does not accept.
fn bad_value(alloc: Global, database: &Database, update: &Update) -> Option<String> {
    for (index, sample) in update.samples.as_slice().iter().enumerate() {
        let number = index.saturating_add(1);
        let found = unaccepted_in(alloc, database, update, number, sample);
        if found.is_some() {
            return found;
        }
    }
    None
}

/// Says what of an update is not allowed.
pub(crate) fn of_update(
    alloc: Global,
    database: Option<&Database>,
    update: &Update,
    refusal: Refusal,
    now: u64,
) -> Option<String> {
    match refusal {
        Refusal::NoSuchSource => no_source_in(alloc, database?, update),
        Refusal::DoubleName => double_name(alloc, update),
        Refusal::BadTime => late_sample(alloc, update),
        Refusal::NotLater { last } => not_later(alloc, database?, update, last, now),
        Refusal::WrongCount => wrong_count(alloc, database, update),
        Refusal::BadValue => bad_value(alloc, database?, update),
        _ => None,
    }
}
