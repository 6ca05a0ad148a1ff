//! Why a part of a command cannot be read.
use crate::arguments::Arguments;
use crate::command_usage::{lines_of, options_in};
use crate::definitions::wrong_field;
use crate::hints::{time_for, with_hint, with_time_hint, written_for};
use crate::numbers::written_out;
use crate::samples::{SampleFault, sample_fault};
use crate::shown::Quoted;
use rrd_fixed::Name;
use rrd_tool::Part;
use std::alloc::Global;

/// A definition of a tune.
const OF_TUNE: &str = "RRA:AVERAGE|MIN|MAX|LAST:xff:steps:rows or DELRRA:ARCHIVE";

/// A definition of a create.
const OF_CREATE: &str =
    "DS:name:GAUGE|COUNTER|DERIVE|ABSOLUTE:heartbeat:min:max or RRA:AVERAGE|MIN|MAX|LAST:xff:steps:rows";

/// Names of a template.
const NAMES: &str = "names of at most 19 characters with colons between them";

/// A new name.
const RENAMING: &str = "NAME:NEW, two names of at most 19 characters";

/// An archive.
const ARCHIVE: &str = "the number of an archive, such as 0";

// Returns the option whose value a part of a command is, if the part is no word, and the form of the part.
fn option_and_form(part: Part, command: &str) -> (Option<&'static str>, &'static str) {
    match part {
        Part::Step => (Some("--step"), "a whole number of seconds"),
        Part::Resolution => (Some("--resolution"), "a whole number of seconds"),
        Part::Start => (Some("--start"), "whole seconds since 1970"),
        Part::End => (Some("--end"), "whole seconds since 1970"),
        Part::Journal => (Some("--journal"), "a whole number"),
        Part::Rows => (None, "a whole number"),
        Part::Definition if command == "tune" => (None, OF_TUNE),
        Part::Definition => (None, OF_CREATE),
        Part::Template => (Some("--template"), NAMES),
        Part::Sample => (None, "TIME:VALUE"),
        Part::Heartbeat => (Some("--heartbeat"), "NAME:SECONDS"),
        Part::Minimum => (Some("--minimum"), "NAME:NUMBER or NAME:U"),
        Part::Maximum => (Some("--maximum"), "NAME:NUMBER or NAME:U"),
        Part::Kind => (
            Some("--data-source-type"),
            "NAME:GAUGE|COUNTER|DERIVE|ABSOLUTE",
        ),
        Part::Rename => (Some("--data-source-rename"), RENAMING),
        Part::Archive if command == "first" => (Some("--rraindex"), ARCHIVE),
        Part::Archive => (None, ARCHIVE),
        Part::Change => (None, "GROW or SHRINK"),
        Part::Function => (None, "AVERAGE, MIN, MAX or LAST"),
    }
}

// Returns the number of the word of a command that is a part of it, counted from 0.
fn index_of(part: Part, number: u64) -> usize {
    match part {
        Part::Change => 1,
        Part::Rows => 2,
        _ => number.saturating_sub(1) as usize,
    }
}

// Returns the text of a part that cannot be read: the value of the option, or the word with this index.
fn text_of<'a>(
    alloc: Global,
    command: &str,
    arguments: &[&'a str],
    option: Option<&'static str>,
    index: usize,
) -> Option<&'a str> {
    let given = Arguments::new(alloc, arguments).ok()?;
    match option {
        Some(name) => given.value(
            name,
            &options_in(alloc, &lines_of(alloc, command).ok()?).ok()?,
        ),
        None => Some(*given.words.get(index)?),
    }
}

// Checks whether a setting begins with a name that no data source can have.
fn has_bad_name(part: Part, text: &str) -> bool {
    match (part, text.split_once(':')) {
        (Part::Heartbeat | Part::Minimum | Part::Maximum | Part::Kind, Some((name, _))) => {
            Name::fit(name.as_bytes()).is_none()
        }
        _ => false,
    }
}

// Says what of a sample cannot be read, and what to write instead.
fn unreadable_sample(alloc: Global, sample: &str, now: u64) -> Option<String> {
    let fault = sample_fault(sample)?;
    let write = match fault {
        SampleFault::NoValue(_) => None,
        SampleFault::Time("now") => String::from_str(alloc, "N").ok(),
        SampleFault::Time(time) => time_for(alloc, time, now),
        SampleFault::Value(_, value, _) => written_out(alloc, value),
    };
    with_hint(alloc, format!(in alloc; "{fault}").ok()?, write)
}

/// Says why a part cannot be read, and what to write instead.
pub(crate) fn unreadable(
    alloc: Global,
    words: &[&str],
    part: Part,
    number: u64,
    now: u64,
) -> Option<String> {
    let [command, arguments @ ..] = words else {
        return None;
    };
    let (option, form) = option_and_form(part, command);
    let text = text_of(alloc, command, arguments, option, index_of(part, number))?;
    if part == Part::Sample {
        return unreadable_sample(alloc, text, now);
    }
    if part == Part::Definition
        && let Some(field) = wrong_field(text, *command == "tune")
    {
        return with_hint(alloc, field.says(alloc)?, field.written(alloc));
    }
    let says = format!(in alloc; "it is {}, not {form}", Quoted(text)).ok()?;
    if has_bad_name(part, text) {
        return format!(in alloc; "{says}; a name has 1 to 19 characters of a-z A-Z 0-9 _").ok();
    }
    match part {
        Part::Start | Part::End => with_time_hint(alloc, says, text, now),
        _ => with_hint(alloc, says, written_for(alloc, part, text)),
    }
}
