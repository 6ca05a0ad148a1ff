//! What to write in place of the times, the lengths and the numbers of RRDtool.
use crate::numbers::{whole_written_out, written_out};
use rrd_fixed::read_whole;
use rrd_tool::Part;
use std::alloc::Global;

/// The seconds of a day.
const DAY: u64 = 86_400;

// Returns the seconds of a unit, as RRDtool counts them: a month has 31 days, and a year 366.
fn seconds_of_unit(unit: &str) -> Option<u64> {
    match unit {
        "s" | "sec" | "second" | "seconds" => Some(1),
        "m" | "min" | "minute" | "minutes" => Some(60),
        "h" | "hour" | "hours" => Some(3_600),
        "d" | "day" | "days" => Some(DAY),
        "w" | "week" | "weeks" => Some(7 * DAY),
        "M" | "mon" | "month" | "months" => Some(31 * DAY),
        "y" | "year" | "years" => Some(366 * DAY),
        _ => None,
    }
}

// Returns the seconds of a length such as `5m`.
fn seconds_of_length(text: &str) -> Option<u64> {
    let at = text.find(|character: char| !character.is_ascii_digit())?;
    let (count, unit) = text.split_at_checked(at)?;
    read_whole(count.as_bytes())?.checked_mul(seconds_of_unit(unit)?)
}

// Returns the seconds of an offset without its sign: a length, or a number of seconds.
fn offset_of(text: &str) -> Option<u64> {
    match read_whole(text.as_bytes()) {
        Some(seconds) => Some(seconds),
        None => seconds_of_length(text),
    }
}

// Returns the seconds since 1970 of a time such as `now`, `-1d`, `-3600` or `now-5m`.
fn time_of(text: &str, now: u64) -> Option<u64> {
    let offset = text.strip_prefix("now").unwrap_or(text);
    if let Some(length) = offset.strip_prefix('-') {
        return now.checked_sub(offset_of(length)?);
    }
    if let Some(length) = offset.strip_prefix('+') {
        return now.checked_add(offset_of(length)?);
    }
    (text == "now").then_some(now)
}

/// Returns what to write in place of a length.
pub(crate) fn length_for(alloc: Global, text: &str) -> Option<String> {
    match seconds_of_length(text) {
        Some(seconds) => format!(in alloc; "{seconds}").ok(),
        None => whole_written_out(alloc, text),
    }
}

/// Returns what to write at the time `now` in place of a time.
pub(crate) fn time_for(alloc: Global, text: &str, now: u64) -> Option<String> {
    match time_of(text, now) {
        Some(seconds) => format!(in alloc; "{seconds}").ok(),
        None => whole_written_out(alloc, text),
    }
}

// Returns what to write in place of a setting that follows the name of a data source.
fn setting_for(alloc: Global, part: Part, text: &str) -> Option<String> {
    let (name, setting) = text.split_once(':')?;
    let setting = match part {
        Part::Heartbeat => length_for(alloc, setting)?,
        _ => written_out(alloc, setting)?,
    };
    format!(in alloc; "{name}:{setting}").ok()
}

/// Returns what to write in place of the text of a part that is no time, if the text is as RRDtool takes it.
pub(crate) fn written_for(alloc: Global, part: Part, text: &str) -> Option<String> {
    match part {
        Part::Step | Part::Resolution => length_for(alloc, text),
        Part::Journal | Part::Rows | Part::Archive => whole_written_out(alloc, text),
        Part::Heartbeat | Part::Minimum | Part::Maximum => setting_for(alloc, part, text),
        Part::Start
        | Part::End
        | Part::Definition
        | Part::Template
        | Part::Sample
        | Part::Kind
        | Part::Rename
        | Part::Change
        | Part::Function => None,
    }
}

/// Adds to an explanation what to write instead, and which tool takes what was written.
pub(crate) fn with_hint(alloc: Global, says: String, write: Option<String>) -> Option<String> {
    match write {
        Some(write) => format!(in alloc; "{says}; write {write}, or run rrdi-rrdtool --rrdi").ok(),
        None => Some(says),
    }
}

/// Adds to the explanation of a time what to write instead at the time `now`, or at least which tool takes such times.
pub(crate) fn with_time_hint(alloc: Global, says: String, text: &str, now: u64) -> Option<String> {
    let write = time_for(alloc, text, now);
    if write.is_none() {
        return format!(in alloc; "{says}; rrdi-rrdtool --rrdi takes RRDtool's times").ok();
    }
    with_hint(alloc, says, write)
}
