//! What a database has, as an explanation names it.
use crate::likeness::nearest;
use crate::shown::Shown;
use rrd_base::{Database, DsDef};
use rrd_fixed::Name;
use rrd_fold::Function;
use std::alloc::Global;
use std::fmt::{self, Display, Formatter};

/// How many names are shown of the data sources of a file.
const SHOWN: u64 = 8;

/// The names of the first data sources of a database, with commas between them.
#[derive(Clone, Copy)]
pub(crate) struct Names<'a>(pub(crate) &'a Database);

impl<'a> Display for Names<'a> {
    fn fmt<W: fmt::Write>(&self, f: &mut Formatter<W>) -> fmt::Result {
        for number in 0..self.0.sources() {
            if number >= SHOWN {
                return f.write_str(", ..");
            }
            let mark = if number == 0 { "" } else { ", " };
            write!(f, "{mark}{}", self.0.source(number).name.as_str())?;
        }
        Ok(())
    }
}

/// The consolidation functions, with their words.
const FUNCTIONS: [(Function, &str); 4] = [
    (Function::Average, "AVERAGE"),
    (Function::Min, "MIN"),
    (Function::Max, "MAX"),
    (Function::Last, "LAST"),
];

// Checks whether an archive has this function.
fn has_function(database: &Database, function: Function) -> bool {
    for archive in 0..database.archives() {
        if database.archive(archive).function == function {
            return true;
        }
    }
    false
}

/// The consolidation functions of the archives of a database, each once, with commas between them.
#[derive(Clone, Copy)]
pub(crate) struct Functions<'a>(pub(crate) &'a Database);

impl<'a> Display for Functions<'a> {
    fn fmt<W: fmt::Write>(&self, f: &mut Formatter<W>) -> fmt::Result {
        let mut mark = "";
        for (function, word) in FUNCTIONS {
            if has_function(self.0, function) {
                write!(f, "{mark}{word}")?;
                mark = ", ";
            }
        }
        Ok(())
    }
}

/// Returns the data source of this name.
pub(crate) fn source_named<'a>(database: &'a Database, name: &Name) -> Option<&'a DsDef> {
    for number in 0..database.sources() {
        let source = database.source(number);
        if source.name.same(name) {
            return Some(source);
        }
    }
    None
}

// Returns the data source whose name is like this one.
fn meant<'a>(alloc: Global, database: &'a Database, name: &str) -> Option<&'a str> {
    let mut names = Vec::new(alloc);
    for number in 0..database.sources() {
        names.push(database.source(number).name.as_str()).ok()?;
    }
    nearest(alloc, name, &names)
}

/// Says that no data source has this name, if none has.
pub(crate) fn no_source(alloc: Global, database: &Database, name: &Name) -> Option<String> {
    if source_named(database, name).is_some() {
        return None;
    }
    let name = name.as_str();
    if name.is_empty() {
        return format!(in alloc; "a name is empty; the file has {}", Names(database)).ok();
    }
    let says = match meant(alloc, database, name) {
        Some(meant) => format!(in alloc;
            "there is no data source {}; did you mean {meant}?",
            Shown(name)
        ),
        None => format!(in alloc;
            "there is no data source {}; the file has {}",
            Shown(name),
            Names(database)
        ),
    };
    says.ok()
}

/// Says which archives the database has.
pub(crate) fn no_archive(alloc: Global, database: &Database) -> Option<String> {
    let count = database.archives();
    if count == 1 {
        return String::from_str(alloc, "the file has one archive, 0").ok();
    }
    let last = count.saturating_sub(1);
    format!(in alloc; "the file has {count} archives, 0 to {last}").ok()
}

/// Says which consolidation functions the archives of the database have.
pub(crate) fn no_function(alloc: Global, database: &Database) -> Option<String> {
    format!(in alloc; "the archives have {}", Functions(database)).ok()
}

/// Says how many rows the archive has that a resize would leave without any.
pub(crate) fn no_row(alloc: Global, database: &Database, archive: u64) -> Option<String> {
    if archive >= database.archives() {
        return None;
    }
    let rows = database.archive(archive).rows;
    let word = if rows == 1 { "row" } else { "rows" };
    format!(in alloc; "archive {archive} has {rows} {word}, of which one has to be left").ok()
}
