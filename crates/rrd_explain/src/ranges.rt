//! Settings of data sources and archives that are out of their ranges.
use crate::numbers::{decimal_text, is_within};
use crate::shown::Quoted;
use rrd_base::{DsDef, Refusal, RraDef};
use rrd_fixed::Name;
use rrd_spec::limits::{MAX_BOUND, MAX_HEARTBEAT, MAX_ROWS, MAX_STEPS_PER_ROW, MAX_TIME, MAX_XFF};
use std::alloc::Global;

/// Says that a text is not in a range.
pub(crate) fn out_of_range(alloc: Global, what: &str, text: &str, range: &str) -> Option<String> {
    format!(in alloc; "{what} is {}, not {range}", Quoted(text)).ok()
}

/// Says that a whole number is not in a range.
pub(crate) fn whole_out_of_range(
    alloc: Global,
    what: &str,
    number: u64,
    range: &str,
) -> Option<String> {
    format!(in alloc; "{what} is '{number}', not {range}").ok()
}

/// Says that no data source may have a name. `whose` has the name.
pub(crate) fn wrong_name(alloc: Global, whose: &str, name: &Name) -> Option<String> {
    if name.good() {
        return None;
    }
    let name = Quoted(name.as_str());
    format!(in alloc; "{whose} {name}; a name has 1 to 19 characters of a-z A-Z 0-9 _").ok()
}

/// Says that the heartbeat of a data source is not in its range.
pub(crate) fn wrong_heartbeat(alloc: Global, name: &Name, seconds: u64) -> Option<String> {
    if is_within(MAX_HEARTBEAT, seconds) {
        return None;
    }
    let name = name.as_str();
    format!(in alloc;
        "the heartbeat of {name} is '{seconds}', not 1 to {MAX_HEARTBEAT} seconds"
    ).ok()
}

/// Says that a bound of a data source is not in its range.
pub(crate) fn wrong_bound(
    alloc: Global,
    what: &str,
    name: &Name,
    bound: Option<i128>,
) -> Option<String> {
    let bound = bound?;
    if bound.unsigned_abs() <= MAX_BOUND {
        return None;
    }
    let text = decimal_text(alloc, bound, false)?;
    let what = format!(in alloc; "the {what} of {}", name.as_str()).ok()?;
    out_of_range(alloc, &what, &text, "at most 2^64 - 1 in size")
}

/// Says that the minimum of a data source is above its maximum.
pub(crate) fn crossed_bounds(
    alloc: Global,
    name: &Name,
    minimum: Option<i128>,
    maximum: Option<i128>,
) -> Option<String> {
    let (minimum, maximum) = (minimum?, maximum?);
    if minimum <= maximum {
        return None;
    }
    let minimum = decimal_text(alloc, minimum, false)?;
    let maximum = decimal_text(alloc, maximum, false)?;
    let name = name.as_str();
    format!(in alloc; "the minimum of {name} is '{minimum}', above its maximum, '{maximum}'").ok()
}

/// Says what is wrong with a setting of a data source, which the definition with this number has.
pub(crate) fn wrong_source(
    alloc: Global,
    refusal: Refusal,
    number: usize,
    source: &DsDef,
) -> Option<String> {
    match refusal {
        Refusal::BadName => {
            let whose = format!(in alloc; "definition {number} has the name").ok()?;
            wrong_name(alloc, &whose, &source.name)
        }
        Refusal::BadHeartbeat => wrong_heartbeat(alloc, &source.name, source.heartbeat),
        Refusal::BadBounds => wrong_bound(alloc, "minimum", &source.name, source.min)
            .or(wrong_bound(alloc, "maximum", &source.name, source.max))
            .or(crossed_bounds(alloc, &source.name, source.min, source.max)),
        _ => None,
    }
}

/// Says what is wrong with a setting of an archive, which the definition with this number has.
pub(crate) fn wrong_archive(
    alloc: Global,
    refusal: Refusal,
    number: usize,
    archive: &RraDef,
) -> Option<String> {
    match refusal {
        Refusal::BadXff if archive.xff < 0 || MAX_XFF < archive.xff => {
            let what = format!(in alloc; "the xff of definition {number}").ok()?;
            let text = decimal_text(alloc, archive.xff, false)?;
            out_of_range(alloc, &what, &text, "0 to 0.999999")
        }
        Refusal::BadSteps if !is_within(MAX_STEPS_PER_ROW, archive.steps) => {
            let what = format!(in alloc; "the number of steps of definition {number}").ok()?;
            whole_out_of_range(alloc, &what, archive.steps, "1 to 1000000")
        }
        Refusal::BadRows if !is_within(MAX_ROWS, archive.rows) => {
            let what = format!(in alloc; "the number of rows of definition {number}").ok()?;
            whole_out_of_range(alloc, &what, archive.rows, "1 to 1000000")
        }
        _ => None,
    }
}

/// Says that a time is too late. It may be in a smaller unit than seconds. `of` has the time.
pub(crate) fn late(alloc: Global, of: &str, seconds: u64) -> Option<String> {
    if seconds <= MAX_TIME {
        return None;
    }
    for (unit, part) in [
        ("milliseconds", 1_000),
        ("microseconds", 1_000_000),
        ("nanoseconds", 1_000_000_000),
    ] {
        let whole = seconds / part;
        if whole <= MAX_TIME {
            return format!(in alloc; "{of} {seconds}; if these are {unit}, write {whole}").ok();
        }
    }
    format!(in alloc; "{of} {seconds}, which is over {MAX_TIME}").ok()
}
