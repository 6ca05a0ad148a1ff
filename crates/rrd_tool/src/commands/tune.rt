//! `tune`: changes the settings of sources, or adds or removes an archive (rrdtune).
ghost use Rattle.std.specs.Prelude.{IfOk, List, Option, Some, ℕ};
ghost use Rattle.rrd_tool.specs.Names.{found_of, rows_of};
ghost use Rattle.rrd_tool.specs.Words.{HasApp, archive_tune_of, setting_of, tune_app, tune_of, Executes, Meets};

use super::name::CommandName;
use crate::arguments::{letter_arg, option_arg, text_of, word_arg};
use crate::execution::Outcome;
use crate::fields::{Field, cut, read_optional};
use crate::{Command, LineFault, Part};
use clap::ArgMatches;
use rrd_base::{ArchiveTune, Database, RraDef, Tuning};
use rrd_fixed::Name;
use std::alloc::{AllocError, Global};

/// Returns the shape of the command for clap.
pub(crate) fn shape<'a>(alloc: Global) -> Result<clap::Command<'a>, AllocError>
    ensures { IfOk result (HasApp tune_app) }
{
    CommandName::Tune
        .bare(alloc)
        .arg(option_arg(alloc, "heartbeat", "heartbeat"))?
        .arg(letter_arg(alloc, "minimum", "minimum", 'i'))?
        .arg(letter_arg(alloc, "maximum", "maximum", 'a'))?
        .arg(letter_arg(alloc, "type", "data-source-type", 'd'))?
        .arg(letter_arg(alloc, "rename", "data-source-rename", 'r'))?
        .arg(word_arg(alloc, "definition"))
}

// Parses a name and a new value for the data source of this name, with a colon between them.
impl<T: Field + Drop> Field for (Name, T) {
    ghost meaning = { setting_of T.meaning };

    fn read(text: &str) -> Option<(Name, T)> {
        let (name, value) = cut(text)?;
        let name = Name::read(name)?;
        let value = T::read(value)?;
        Some((name, value))
    }
}

// Parses `RRA:` and an archive to add, or `DELRRA:` and the number of an archive to remove.
impl Field for ArchiveTune {
    ghost meaning = { archive_tune_of };

    fn read(text: &str) -> Option<ArchiveTune> {
        let (tag, rest) = cut(text)?;
        if tag == "RRA" {
            let def = RraDef::read(rest)?;
            Some(ArchiveTune::Add(def))
        } else if tag == "DELRRA" {
            let archive = u64::read(rest)?;
            Some(ArchiveTune::Remove(archive))
        } else {
            None
        }
    }
}

/// Parses the values of the command's arguments.
pub(crate) fn read(matches: &ArgMatches<'_>) -> Result<Command, LineFault>
    ensures { Meets (tune_of (rows_of (found_of matches.now))) result }
{
    let heartbeat = read_optional(Part::Heartbeat, text_of(matches, "heartbeat"))?;
    let minimum = read_optional(Part::Minimum, text_of(matches, "minimum"))?;
    let maximum = read_optional(Part::Maximum, text_of(matches, "maximum"))?;
    let kind = read_optional(Part::Kind, text_of(matches, "type"))?;
    let rename = read_optional(Part::Rename, text_of(matches, "rename"))?;
    let archive = read_optional(Part::Definition, text_of(matches, "definition"))?;
    Ok(Command::Tune(Tuning {
        heartbeat,
        minimum,
        maximum,
        kind,
        rename,
        archive,
    }))
}

/// Changes the settings, or adds or removes the archive.
pub(crate) fn run(alloc: Global, mut database: Database, tuning: &Tuning) -> Outcome
    ensures { (c : Option (List ℕ)) → Executes (Some database) (Command.Tune tuning.now) c c result }
{
    let tuned = database.tune(alloc, tuning);
    Outcome::of_change(database, tuned)
}
