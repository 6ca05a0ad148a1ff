//! `resize`: changes the number of rows of an archive (rrdresize).
ghost use Rattle.std.specs.Prelude.{IfOk, List, Option, Some, ℕ};
ghost use Rattle.rrd_tool.specs.Names.{found_of, rows_of};
ghost use Rattle.rrd_tool.specs.Words.{HasApp, change_of, resize_app, resize_of, Executes, Meets};

use super::name::CommandName;
use crate::arguments::{required_arg, text_of};
use crate::execution::Outcome;
use crate::fields::{Field, read_required};
use crate::{Command, LineFault, Part};
use clap::ArgMatches;
use rrd_base::{Change, Database};
use std::alloc::{AllocError, Global};

/// Returns the shape of the command for clap.
pub(crate) fn shape<'a>(alloc: Global) -> Result<clap::Command<'a>, AllocError>
    ensures { IfOk result (HasApp resize_app) }
{
    CommandName::Resize
        .bare(alloc)
        .arg(required_arg(alloc, "archive"))?
        .arg(required_arg(alloc, "change"))?
        .arg(required_arg(alloc, "rows"))
}

// Parses GROW or SHRINK.
impl Field for Change {
    ghost meaning = { change_of };

    fn read(text: &str) -> Option<Change> {
        if text == "GROW" {
            Some(Change::Grow)
        } else if text == "SHRINK" {
            Some(Change::Shrink)
        } else {
            None
        }
    }
}

/// Parses the values of the command's arguments.
pub(crate) fn read(matches: &ArgMatches<'_>) -> Result<Command, LineFault>
    ensures { Meets (resize_of (rows_of (found_of matches.now))) result }
{
    let archive = read_required(Part::Archive, text_of(matches, "archive"))?;
    let change = read_required(Part::Change, text_of(matches, "change"))?;
    let rows = read_required(Part::Rows, text_of(matches, "rows"))?;
    Ok(Command::Resize {
        archive,
        change,
        rows,
    })
}

/// Adds `rows` rows to the archive with this number, or removes them.
pub(crate) fn run(
    alloc: Global,
    mut database: Database,
    archive: u64,
    change: Change,
    rows: u64,
) -> Outcome
    ensures { (c : Option (List ℕ)) → Executes (Some database) (Command.Resize archive change rows) c c result }
{
    let resized = database.resize(alloc, archive, change, rows);
    Outcome::of_change(database, resized)
}
