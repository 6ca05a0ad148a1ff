//! `first`: prints the time of an archive's oldest row (rrdfirst).
ghost use Rattle.std.specs.Prelude.{IfOk, Some};
ghost use Rattle.rrd_tool.specs.Names.{found_of, rows_of};
ghost use Rattle.rrd_tool.specs.Words.{HasApp, first_app, first_from, Executes, Meets};

use super::last::write_line;
use super::name::CommandName;
use crate::arguments::{option_arg, text_of};
use crate::execution::Outcome;
use crate::fields::read_or;
use crate::{Command, LineFault, Part};
use clap::ArgMatches;
use rrd_base::Database;
use rrd_fixed::time_string;
use std::alloc::{AllocError, Global};
use std::io::Write;

/// Returns the shape of the command for clap.
pub(crate) fn shape<'a>(alloc: Global) -> Result<clap::Command<'a>, AllocError>
    ensures { IfOk result (HasApp first_app) }
{
    CommandName::First
        .bare(alloc)
        .arg(option_arg(alloc, "rraindex", "rraindex"))
}

/// Parses the values of the command's arguments.
pub(crate) fn read(matches: &ArgMatches<'_>) -> Result<Command, LineFault>
    ensures { Meets (first_from (rows_of (found_of matches.now))) result }
{
    let archive = read_or(Part::Archive, text_of(matches, "rraindex"), 0)?;
    Ok(Command::First { archive })
}

/// Prints the time.
pub(crate) fn run<W: Write>(database: Database, archive: u64, out: &mut W) -> Outcome
    ensures { Executes (Some database) (Command.First archive) (W.contents out.old) (W.contents out.new) result }
{
    match database.first(archive) {
        Ok(time) => {
            let written = write_line(out, time_string(time).as_str());
            Outcome::of_text(database, written)
        }
        Err(refusal) => Outcome::refused(Some(database), refusal),
    }
}
