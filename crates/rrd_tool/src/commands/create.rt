//! `create`: makes a database (rrdcreate).
ghost use Rattle.std.specs.Prelude.{IfOk, List, Option, map, ℕ};
ghost use Rattle.rrd_tool.specs.Names.{found_of, rows_of};
ghost use Rattle.rrd_tool.specs.Words.{HasApp, archive_of, create_app, create_of, definition_of, definitions_of, share_of, source_of, Executes, Meets};

use super::name::CommandName;
use crate::arguments::{letter_arg, many_arg, option_arg, text_of, texts_of};
use crate::execution::Outcome;
use crate::fields::{Field, cut, or_fault, read_or};
use crate::{Command, LineFault, Part};
use clap::ArgMatches;
use rrd_base::{CreateSpec, Database, DsDef, List, RraDef};
use rrd_fixed::{Kind, Name, read_number};
use rrd_fold::Function;
use std::alloc::{AllocError, Global};

/// Returns the shape of the command for clap.
pub(crate) fn shape<'a>(alloc: Global) -> Result<clap::Command<'a>, AllocError>
    ensures { IfOk result (HasApp create_app) }
{
    CommandName::Create
        .bare(alloc)
        .arg(letter_arg(alloc, "step", "step", 's'))?
        .arg(letter_arg(alloc, "start", "start", 'b'))?
        .arg(option_arg(alloc, "journal", "journal"))?
        .arg(many_arg(alloc, "definition"))
}

/// A definition of a new database.
#[derive(Drop)]
pub(crate) enum Definition {
    Source(DsDef),
    Archive(RraDef),
}

// Reads a share, in millionths.
impl Field for i128 {
    ghost meaning = { share_of };

    fn read(text: &str) -> Option<i128> {
        let number = read_number(text.as_bytes())?;
        Some(number.millionths)
    }
}

// Parses `name:type:heartbeat:min:max`.
impl Field for DsDef {
    ghost meaning = { source_of };

    fn read(text: &str) -> Option<DsDef> {
        let (name, rest) = cut(text)?;
        let name = Name::read(name)?;
        let (kind, rest) = cut(rest)?;
        let kind = Kind::read(kind)?;
        let (heartbeat, rest) = cut(rest)?;
        let heartbeat = u64::read(heartbeat)?;
        let (min, max) = cut(rest)?;
        let min = <Option<i128>>::read(min)?;
        let max = <Option<i128>>::read(max)?;
        Some(DsDef {
            name,
            kind,
            heartbeat,
            min,
            max,
        })
    }
}

// Parses `function:xff:steps:rows`.
impl Field for RraDef {
    ghost meaning = { archive_of };

    fn read(text: &str) -> Option<RraDef> {
        let (function, rest) = cut(text)?;
        let function = Function::read(function)?;
        let (xff, rest) = cut(rest)?;
        let xff = i128::read(xff)?;
        let (steps, rows) = cut(rest)?;
        let steps = u64::read(steps)?;
        let rows = u64::read(rows)?;
        Some(RraDef {
            function,
            xff,
            steps,
            rows,
        })
    }
}

// Parses `DS:` and a data source, or `RRA:` and an archive.
impl Field for Definition {
    ghost meaning = { definition_of };

    fn read(text: &str) -> Option<Definition> {
        let (tag, rest) = cut(text)?;
        if tag == "DS" {
            let source = DsDef::read(rest)?;
            Some(Definition::Source(source))
        } else if tag == "RRA" {
            let archive = RraDef::read(rest)?;
            Some(Definition::Archive(archive))
        } else {
            None
        }
    }
}

// Parses the definitions. Returns the data sources and the archives, each in their order.
fn definitions(alloc: Global, words: &[&str]) -> Result<(List<DsDef>, List<RraDef>), LineFault>
    ensures { Meets (definitions_of (map (λ w. w.now) words.now)) result }
{
    let mut sources = List::new(alloc);
    let mut archives = List::new(alloc);
    for (index, word) in words.iter().enumerate() {
        let definition = or_fault(Part::Definition, index as u64 + 1, Definition::read(word))?;
        let added = match definition {
            Definition::Source(source) => sources.push(source),
            Definition::Archive(archive) => archives.push(archive),
        };
        added?;
    }
    Ok((sources, archives))
}

/// Parses the values of the command's arguments.
pub(crate) fn read(alloc: Global, matches: &ArgMatches<'_>, now: u64) -> Result<Command, LineFault>
    ensures { Meets (create_of (rows_of (found_of matches.now)) now) result }
{
    let step = read_or(Part::Step, text_of(matches, "step"), 300)?;
    let start = read_or(
        Part::Start,
        text_of(matches, "start"),
        now.saturating_sub(10),
    )?;
    let depth = read_or(Part::Journal, text_of(matches, "journal"), 16)?;
    let (sources, archives) = match texts_of(matches, "definition") {
        None => (List::new(alloc), List::new(alloc)),
        Some(words) => definitions(alloc, words)?,
    };
    Ok(Command::Create(CreateSpec {
        step,
        start,
        depth,
        sources,
        archives,
    }))
}

/// Creates a database, and replaces the present one.
pub(crate) fn run(alloc: Global, database: Option<Database>, spec: CreateSpec) -> Outcome
    ensures { (c : Option (List ℕ)) → Executes database (Command.Create spec) c c result }
{
    match Database::create(alloc, spec) {
        Ok(made) => Outcome::Changed(made),
        Err(refusal) => Outcome::refused(database, refusal),
    }
}
