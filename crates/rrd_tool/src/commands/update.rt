//! `update`: adds samples (rrdupdate).
ghost use Rattle.std.specs.Prelude.{◌≡◌, IfOk, List, None, Option, Some, map, ℕ};
ghost use Rattle.rrd_tool.specs.Names.{found_of, rows_of};
ghost use Rattle.rrd_tool.specs.Words.{HasApp, sample_of, samples_of, time_of, update_app, update_of, value_of, Executes, Meets, each_of, or_fault};

use super::name::CommandName;
use crate::arguments::{letter_arg, many_arg, text_of, texts_of};
use crate::execution::Outcome;
use crate::fields::{Field, cut, or_fault, read_list};
use crate::{Command, LineFault, Part};
use clap::ArgMatches;
use rrd_base::{Database, Given, List, Sample, Update};
use rrd_fixed::{read_number, read_whole};
use std::alloc::{AllocError, Global};

/// Returns the shape of the command for clap.
pub(crate) fn shape<'a>(alloc: Global) -> Result<clap::Command<'a>, AllocError>
    ensures { IfOk result (HasApp update_app) }
{
    CommandName::Update
        .bare(alloc)
        .arg(letter_arg(alloc, "template", "template", 't'))?
        .arg(many_arg(alloc, "sample"))
}

// Parses the time of a sample; `N` is now (rrdupdate).
fn read_time(now: u64, text: &str) -> Option<u64>
    ensures { result ≡ time_of now text.now }
{
    if text == "N" {
        return Some(now);
    }
    read_whole(text.as_bytes())
}

// Parses a value of a sample; `U` is unknown.
impl Field for Given {
    ghost meaning = { value_of };

    fn read(text: &str) -> Option<Given> {
        if text == "U" {
            return Some(Given::Unknown);
        }
        let number = read_number(text.as_bytes())?;
        Some(Given::Number(number))
    }
}

// Parses the sample with this number: `time:value[:value..]`.
fn read_sample(alloc: Global, now: u64, number: u64, text: &str) -> Result<Sample, LineFault>
    ensures { Meets (or_fault Part.Sample number (sample_of now text.now)) result }
{
    let (time, values) = or_fault(Part::Sample, number, cut(text))?;
    let time = or_fault(Part::Sample, number, read_time(now, time))?;
    let values = read_list(alloc, Part::Sample, number, values)?;
    Ok(Sample { time, values })
}

fn samples(alloc: Global, now: u64, words: &[&str]) -> Result<List<Sample>, LineFault>
    ensures { Meets (each_of (sample_of now) Part.Sample 1 (map (λ w. w.now) words.now)) result }
{
    let mut samples = List::new(alloc);
    for (index, word) in words.iter().enumerate() {
        let sample = read_sample(alloc, now, index as u64 + 1, word)?;
        samples.push(sample)?;
    }
    Ok(samples)
}

/// Parses the values of the command's arguments.
pub(crate) fn read(alloc: Global, matches: &ArgMatches<'_>, now: u64) -> Result<Command, LineFault>
    ensures { Meets (update_of (rows_of (found_of matches.now)) now) result }
{
    let template = match text_of(matches, "template") {
        None => None,
        Some(text) => Some(read_list(alloc, Part::Template, 1, text)?),
    };
    let samples = match texts_of(matches, "sample") {
        None => List::new(alloc),
        Some(words) => samples(alloc, now, words)?,
    };
    Ok(Command::Update(Update { template, samples }))
}

/// Parses words of which none is an option: each is a sample.
pub(crate) fn read_samples(alloc: Global, words: &[&str], now: u64) -> Result<Command, LineFault>
    ensures { Meets (samples_of None (map (λ w. w.now) words.now) now) result }
{
    let samples = samples(alloc, now, words)?;
    Ok(Command::Update(Update {
        template: None,
        samples,
    }))
}

/// Adds the samples.
pub(crate) fn run(alloc: Global, mut database: Database, update: &Update) -> Outcome
    ensures { (c : Option (List ℕ)) → Executes (Some database) (Command.Update update.now) c c result }
{
    let updated = database.update(alloc, update);
    Outcome::of_change(database, updated)
}
