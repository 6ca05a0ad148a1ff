//! What of a tune is not allowed, or not by its file.
use crate::file::{no_archive, no_source, source_named};
use crate::ranges::{crossed_bounds, wrong_archive, wrong_bound, wrong_heartbeat, wrong_name};
use rrd_base::{ArchiveTune, Database, Refusal, Tuning};
use rrd_fixed::Name;
use std::alloc::Global;

// Returns the name that an option begins with.
fn name_in<T>(option: &Option<(Name, T)>) -> Option<&Name> {
    match option {
        Some((name, _)) => Some(name),
        None => None,
    }
}

// Says which name of an option no data source has.
fn no_source_in(alloc: Global, database: &Database, tuning: &Tuning) -> Option<String> {
    for name in [
        name_in(&tuning.heartbeat),
        name_in(&tuning.minimum),
        name_in(&tuning.maximum),
        name_in(&tuning.kind),
        name_in(&tuning.rename),
    ] {
        if let Some(name) = name {
            let found = no_source(alloc, database, name);
            if found.is_some() {
                return found;
            }
        }
    }
    None
}

// Returns the bound that a data source gets from an option. Returns `before` if the option is for another one.
fn new_bound(
    option: &Option<(Name, Option<i128>)>,
    name: &Name,
    before: Option<i128>,
) -> Option<i128> {
    match option {
        Some((other, bound)) if other.same(name) => *bound,
        _ => before,
    }
}

// Says which bounds of a data source would cross.
fn crossed_in(
    alloc: Global,
    database: &Database,
    tuning: &Tuning,
    option: &Option<(Name, Option<i128>)>,
) -> Option<String> {
    let source = source_named(database, name_in(option)?)?;
    let minimum = new_bound(&tuning.minimum, &source.name, source.min);
    let maximum = new_bound(&tuning.maximum, &source.name, source.max);
    crossed_bounds(alloc, &source.name, minimum, maximum)
}

// Says which bounds would cross.
fn crossed(alloc: Global, database: &Database, tuning: &Tuning) -> Option<String> {
    crossed_in(alloc, database, tuning, &tuning.minimum).or(crossed_in(
        alloc,
        database,
        tuning,
        &tuning.maximum,
    ))
}

// Says what is wrong with a new bound. If it is in its range, it crosses the other bound.
fn wrong_bounds(alloc: Global, database: Option<&Database>, tuning: &Tuning) -> Option<String> {
    for (what, option) in [("minimum", &tuning.minimum), ("maximum", &tuning.maximum)] {
        if let Some((name, bound)) = option {
            let found = wrong_bound(alloc, what, name, *bound);
            if found.is_some() {
                return found;
            }
        }
    }
    crossed(alloc, database?, tuning)
}

// Says what is wrong with the archive that is added.
fn wrong_added(alloc: Global, tuning: &Tuning, refusal: Refusal) -> Option<String> {
    match &tuning.archive {
        Some(ArchiveTune::Add(archive)) => wrong_archive(alloc, refusal, 1, archive),
        _ => None,
    }
}

/// Says what of a tune is not allowed.
pub(crate) fn of_tune(
    alloc: Global,
    database: Option<&Database>,
    tuning: &Tuning,
    refusal: Refusal,
) -> Option<String> {
    match refusal {
        Refusal::NoSuchSource => no_source_in(alloc, database?, tuning),
        Refusal::NoSuchArchive => no_archive(alloc, database?),
        Refusal::DoubleName => {
            let (_, name) = tuning.rename.as_ref()?;
            format!(in alloc; "two data sources would have the name {}", name.as_str()).ok()
        }
        Refusal::BadName => {
            let (_, name) = tuning.rename.as_ref()?;
            wrong_name(alloc, "the new name is", name)
        }
        Refusal::BadHeartbeat => {
            let (name, seconds) = tuning.heartbeat.as_ref()?;
            wrong_heartbeat(alloc, name, *seconds)
        }
        Refusal::BadBounds => wrong_bounds(alloc, database, tuning),
        Refusal::BadXff | Refusal::BadSteps | Refusal::BadRows => wrong_added(
            alloc, tuning, refusal,
        ),
        Refusal::NoArchive => {
            String::from_str(alloc, "it is the only archive; add another one first").ok()
        }
        _ => None,
    }
}
