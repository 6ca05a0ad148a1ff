//! The commands, and the tables of them: the shape of each command for clap, its parsing and its run. The names are in
//! `name`, and the parts of one command are in the file of its name.
ghost use Rattle.std.specs.Prelude.{◌≡◌, ◌∷◌, [], IfOk, IfSome, IsTrue, List, None, Ok, Option, Some, is_some, map, true, ℕ};
ghost use Rattle.rrd_tool.specs.Names.{found_of, rows_of, subcommand_rows_of};
ghost use Rattle.rrd_tool.specs.Words.{shape_of, values_of, HasApp, first_name, name_text, Executes, IsReading, IsUpdate, Meets, effect};

mod create;
mod fetch;
mod first;
mod info;
mod last;
mod lastupdate;
mod name;
mod resize;
mod revert;
mod tune;
mod update;

use crate::arguments::{command_with, parse};
use crate::execution::Outcome;
use crate::words::are_values;
use crate::{Fault, LineFault, Words};
use clap::ArgMatches;
pub use fetch::choose_rows;
use name::CommandName;
use rrd_base::{Change, CreateSpec, Database, Tuning, Update};
use rrd_spec::FetchRequest;
use std::alloc::{AllocError, Global};
use std::io::Write;

/// A parsed command.
#[derive(Drop)]
pub enum Command {
    /// Creates a database (rrdcreate).
    Create(CreateSpec),
    /// Adds samples (rrdupdate).
    Update(Update),
    /// Changes the settings of data sources, or adds or removes an archive (rrdtune).
    Tune(Tuning),
    /// Adds `rows` rows to the archive with the number `archive`, or removes them (rrdresize).
    Resize {
        archive: u64,
        change: Change,
        rows: u64,
    },
    /// Prints the requested rows (rrdfetch).
    Fetch(FetchRequest),
    /// Prints the time of the oldest row of the archive with the number `archive` (rrdfirst).
    First {
        archive: u64,
    },
    /// Prints the time of the last sample (rrdlast).
    Last,
    /// Prints the last raw value of each data source (rrdlastupdate).
    LastUpdate,
    /// Prints the settings, and the number of changes that can be reverted (rrdinfo).
    Info,
    /// Undoes the newest change.
    Revert,
}

impl Command {
    /// Returns whether the command is an update.
    pub fn is_update(&self) -> bool
        ensures { IsTrue result → IsUpdate (effect self.now) }
    {
        matches!(self, Command::Update(_))
    }
}

impl CommandName {
    /// Returns the shape of the command for clap.
    fn shape<'a>(self, alloc: Global) -> Result<clap::Command<'a>, AllocError>
        ensures { IfOk result (HasApp (shape_of self)) }
    {
        match self {
            CommandName::Create => create::shape(alloc),
            CommandName::Update => update::shape(alloc),
            CommandName::Fetch => fetch::shape(alloc),
            CommandName::Tune => tune::shape(alloc),
            CommandName::Resize => resize::shape(alloc),
            CommandName::First => first::shape(alloc),
            CommandName::Last | CommandName::LastUpdate | CommandName::Info | CommandName::Revert =>
                Ok(self.bare(alloc)),
        }
    }

    /// Returns the command without words after its name, if it takes none.
    fn alone(self) -> Option<Command>
        ensures { IfSome result (λ command. (now : ℕ) → IsReading (name_text self ∷ []) now (Ok command)) }
    {
        match self {
            CommandName::Last => Some(Command::Last),
            CommandName::LastUpdate => Some(Command::LastUpdate),
            CommandName::Info => Some(Command::Info),
            CommandName::Revert => Some(Command::Revert),
            _ => None,
        }
    }

    /// Parses the values of the command's arguments.
    fn read(self, alloc: Global, matches: &ArgMatches<'_>, now: u64) -> Result<Command, LineFault>
        ensures { Meets (values_of self (rows_of (found_of matches.now)) now) result }
    {
        match self {
            CommandName::Create => create::read(alloc, matches, now),
            CommandName::Update => update::read(alloc, matches, now),
            CommandName::Fetch => fetch::read(matches, now),
            CommandName::Tune => tune::read(matches),
            CommandName::Resize => resize::read(matches),
            CommandName::First => first::read(matches),
            CommandName::Last => Ok(Command::Last),
            CommandName::LastUpdate => Ok(Command::LastUpdate),
            CommandName::Info => Ok(Command::Info),
            CommandName::Revert => Ok(Command::Revert),
        }
    }
}

// Returns the name of the command at the start of the words; `None` if the first word is not the name of a command.
fn name_of(words: &Words) -> Option<CommandName>
    ensures { result ≡ first_name words.now }
{
    CommandName::of(words.first()?)
}

// Parses the values that clap found for the command of this name.
fn read_entered(
    alloc: Global,
    name: CommandName,
    matches: &ArgMatches<'_>,
    now: u64,
) -> Result<Command, LineFault>
    requires { is_some (subcommand_rows_of matches.now) ≡ true }
    ensures { IfSome (subcommand_rows_of matches.now) (λ entered. Meets (values_of name entered.1 now) result) }
{
    let Some((_word, inner)) = matches.subcommand() else {
        unreachable!()
    };
    name.read(alloc, inner, now)
}

// Parses the words after the name of a command without clap, which takes longer than most updates: samples, or no words. Returns
// `None` if others may be among the words.
fn read_values(
    alloc: Global,
    name: CommandName,
    words: &[&str],
    now: u64,
) -> Option<Result<Command, LineFault>>
    ensures { IfSome result (λ read. IsReading (name_text name ∷ map (λ w. w.now) words.now) now read) }
{
    match (name, words) {
        (CommandName::Update, samples) if are_values(samples) => Some(update::read_samples(
            alloc, samples, now,
        )),
        (_, []) => Some(Ok(name.alone()?)),
        _ => None,
    }
}

/// Parses the words of one command: its name and then its arguments.
///
/// `now` is the time for `N` and for the defaults, in seconds since 1970. Defaults: a step of 300 seconds, a start ten
/// seconds before `now` but not before 1970 (rrdcreate), a journal of 16 changes (this project's); a fetch ends at `now`,
/// starts a day before its end but not before 1970, and asks for a resolution of one second (rrdfetch).
///
/// # Errors
///
/// - `Usage` if clap refuses the words, or the words request help.
/// - `BadWord` for the first part that cannot be parsed, in this order: of create step, start, journal, definitions; of
///   update template, samples; of tune heartbeat, minimum, maximum, type, rename, the archive's definition; of resize
///   archive, change, rows; of fetch function, resolution, start, end; of first archive.
/// - `OutOfMemory` if memory runs out.
pub fn read_command(alloc: Global, words: &Words<'_>, now: u64) -> Result<Command, LineFault>
    ensures { IsReading words.now now result }
{
    let Some(name) = name_of(words) else {
        return Err(LineFault::Usage);
    };
    if let Some(read) = read_values(alloc, name, words.behind_first(), now) {
        return read;
    }
    let matches = parse(command_with(alloc, name.shape(alloc)?)?, words)?;
    read_entered(alloc, name, &matches, now)
}

/// Runs a command on a database, and writes to `out` what the command prints.
pub(crate) fn run<W: Write>(
    alloc: Global,
    database: Database,
    command: Command,
    out: &mut W,
) -> Outcome
    ensures { Executes (Some database) command (W.contents out.old) (W.contents out.new) result }
{
    match command {
        Command::Create(spec) => create::run(alloc, Some(database), spec),
        Command::Update(samples) => update::run(alloc, database, &samples),
        Command::Fetch(request) => fetch::run(database, request, out),
        Command::First { archive } => first::run(database, archive, out),
        Command::Last => last::run(database, out),
        Command::LastUpdate => lastupdate::run(database, out),
        Command::Info => info::run(database, out),
        Command::Revert => revert::run(database),
        Command::Tune(tuning) => tune::run(alloc, database, &tuning),
        Command::Resize {
            archive,
            change,
            rows,
        } => resize::run(alloc, database, archive, change, rows),
    }
}

/// Runs a command without a database: only a create is accepted.
pub(crate) fn run_without(alloc: Global, command: Command) -> Outcome
    ensures { (c : Option (List ℕ)) → Executes None command c c result }
{
    match command {
        Command::Create(spec) => create::run(alloc, None, spec),
        _ => Outcome::Refused {
            database: None,
            fault: Fault::NoDatabase,
        },
    }
}
