//! `fetch`: prints rows of an archive (rrdfetch). Puts the lines of several rows into a buffer without allocating, and
//! writes the lines from the buffer.
ghost use Rattle.std.specs.Prelude.{◌≡◌, ◌<◌, ◌≤◌, ◌+◌, ◌-◌, ◌*◌, ◌/◌, ◌++◌, IfNone, IfOk, IfSome, Ok, Option, Some, codes, drop, length, slice_index_or, ℕ};
ghost use Rattle.rrd_tool.specs.Names.{found_of, rows_of, Puts, Writes, Function, choice};
ghost use Rattle.rrd_tool.specs.Words.{HasApp, IsReadable, row_room, fetch_app, fetch_of, fetch_text, header_text, row_of, row_text, rows_text, texts_below, Executes, Meets};
ghost use Rattle.rrd_fixed.specs.declared.cell.Cell.TheVariants.{Unknown};

use super::name::CommandName;
use crate::arguments::{letter_arg, required_arg, text_of};
use crate::execution::Outcome;
use crate::fields::{read_optional, read_or, read_required};
use crate::{Command, LineFault, Part};
use arrayvec::ArrayString;
use clap::ArgMatches;
use rrd_base::{Chosen, Database, Refusal, database_is_valid};
use rrd_fixed::{Cell, Name, StoredCell, WriteFault, put_cell, put_time, write_bytes};
use rrd_spec::FetchRequest;
use std::alloc::{AllocError, Global};
use std::io::Write;

/// The maximum number of bytes of rows in one write.
const BLOCK: usize = 4_096;

/// Returns the shape of the command for clap.
pub(crate) fn shape<'a>(alloc: Global) -> Result<clap::Command<'a>, AllocError>
    ensures { IfOk result (HasApp fetch_app) }
{
    CommandName::Fetch
        .bare(alloc)
        .arg(required_arg(alloc, "function"))?
        .arg(letter_arg(alloc, "resolution", "resolution", 'r'))?
        .arg(letter_arg(alloc, "start", "start", 's'))?
        .arg(letter_arg(alloc, "end", "end", 'e'))
}

/// Parses the values of the command's arguments.
pub(crate) fn read(matches: &ArgMatches<'_>, now: u64) -> Result<Command, LineFault>
    ensures { Meets (fetch_of (rows_of (found_of matches.now)) now) result }
{
    let function = read_required(Part::Function, text_of(matches, "function"))?;
    let asked = read_or(Part::Resolution, text_of(matches, "resolution"), 1)?;
    let start: Option<u64> = read_optional(Part::Start, text_of(matches, "start"))?;
    let end = read_or(Part::End, text_of(matches, "end"), now)?;
    Ok(Command::Fetch(FetchRequest {
        function,
        asked,
        start: start.unwrap_or(end.saturating_sub(86_400)),
        end,
    }))
}

// Returns the cell of a data source in a row; unknown if there is no such row.
fn cell_in(row: Option<&[StoredCell]>, source: usize) -> Cell
    requires { IfSome row (λ cells. source < length cells.now) }
    ensures some { IfSome row.entry (λ cells. result ≡ slice_index_or cells.now source Unknown) }
    ensures none { IfNone row.entry (result ≡ Unknown) }
{
    match row {
        Some(cells) => cells[source].cell(),
        None => Cell::Unknown,
    }
}

// The maximum number of bytes of a row's line.
fn row_room(database: &Database) -> usize
    ensures room { result ≡ row_room (length database.now.content.sources) }
    ensures few { result ≤ 4096 }
{
    22 + 49 * database.sources() as usize
}

// Puts the line of a row before the index `end` of the buffer, from its last byte to its first. Returns the index at
// which the line begins.
fn put_row(database: &Database, archive: u64, time: i64, buffer: &mut [u8], end: usize) -> usize
    requires there { archive < length database.now.content.archives }
    requires room { row_room (length database.now.content.sources) ≤ end }
    requires inside { end ≤ length buffer.old }
    ensures text { Puts buffer.old buffer.new end (row_text database.now.content archive time) result }
    ensures short { end ≤ result + row_room (length database.now.content.sources) }
{
    let row = database.row(archive, time);
    let mut at = end - 1;
    buffer[at] = b'\n';
    let mut source = database.sources();
    while 0 < source {
        source -= 1;
        at = put_cell(cell_in(row, source as usize), buffer, at) - 1;
        buffer[at] = b' ';
    }
    at -= 1;
    buffer[at] = b':';
    put_time(time, buffer, at)
}

// Adds a space and a name to a line.
fn push_name(line: &mut ArrayString<2048>, name: &Name)
    requires { length line.old.bytes + 20 ≤ 2048 }
    ensures text { line.new.bytes ≡ line.old.bytes ++ codes " " ++ name.now }
    ensures room { length line.new.bytes ≤ length line.old.bytes + 20 }
{
    line.push_str(" ");
    line.push_str(name.as_str());
}

/// Returns the line with the names of the data sources.
pub(crate) fn header_string(database: &Database) -> ArrayString<2048>
    ensures { result.bytes ≡ header_text database.now.content.sources }
{
    let mut line = ArrayString::new();
    line.push_str("time:");
    for source in 0..database.sources() {
        push_name(&mut line, &database.source(source).name);
    }
    line.push_str("\n");
    line
}

// Puts the lines of the rows from `from` up to `to`, counted from 0, at the end of the buffer, the last line first.
// Returns the index at which the lines begin.
fn put_rows(database: &Database, chosen: Chosen, from: u64, to: u64, buffer: &mut [u8]) -> usize
    requires readable { IsReadable database.now.content chosen }
    requires rows { (from ≤ to) × (to ≤ (chosen.hi - chosen.lo) / chosen.res) }
    requires room { (to - from) * row_room (length database.now.content.sources) ≤ length buffer.old }
    ensures rows { texts_below (row_of database.now.content chosen) from ++ drop result buffer.new
        ≡ texts_below (row_of database.now.content chosen) to }
    ensures inside { result ≤ length buffer.old }
{
    let mut at = buffer.len();
    let mut row = to;
    while from < row {
        let time = chosen.lo + row * chosen.res;
        at = put_row(database, chosen.archive, time as i64, buffer, at);
        row -= 1;
    }
    at
}

// Writes a line for each row at a multiple of the resolution after `lo`, up to `hi`.
fn write_rows<W: Write>(out: &mut W, database: &Database, chosen: Chosen) -> Result<(), WriteFault>
    requires { IsReadable database.now.content chosen }
    ensures { Writes (W.contents out.old) (W.contents out.new) (rows_text database.now.content chosen) result }
{
    let count = chosen.hi.saturating_sub(chosen.lo) / chosen.res;
    let at_once = (BLOCK / row_room(database)) as u64;
    let mut buffer = [0; BLOCK];
    let mut done = 0;
    while done < count {
        let next = count.min(done + at_once);
        let start = put_rows(database, chosen, done, next, &mut buffer);
        write_bytes(out, &buffer[start..])?;
        done = next;
    }
    Ok(())
}

// Writes the line with the names of the data sources, and then the rows of a fetch.
fn write_fetch<W: Write>(out: &mut W, database: &Database, chosen: Chosen) -> Result<(), WriteFault>
    requires { (function : Function) × (asked : ℕ) × (start : ℕ) × (end : ℕ)
        × (choice database.now.content function asked start end ≡ Ok chosen) }
    ensures { Writes (W.contents out.old) (W.contents out.new) (fetch_text database.now.content chosen) result }
{
    // The database is valid, so the chosen rows can be read.
    database_is_valid(database);
    write_bytes(out, header_string(database).as_str().as_bytes())?;
    write_rows(out, database, chosen)
}

/// Selects the rows that a fetch reads, as [`Database::choose_for`] does.
///
/// Theorem: there are such rows: their archive exists, and their times are numbers that a time has.
pub fn choose_rows(database: &Database, request: FetchRequest) -> Result<Chosen, Refusal>
    ensures chosen { result
        ≡ choice database.now.content request.function request.asked request.start request.end }
    ensures readable { IfOk result (λ chosen. IsReadable database.now.content chosen) }
{
    database_is_valid(database);
    database.choose_for(request)
}

/// Prints the rows.
pub(crate) fn run<W: Write>(database: Database, request: FetchRequest, out: &mut W) -> Outcome
    ensures { Executes (Some database) (Command.Fetch request) (W.contents out.old) (W.contents out.new) result }
{
    match database.choose_for(request) {
        Ok(chosen) => {
            let written = write_fetch(out, &database, chosen);
            Outcome::of_text(database, written)
        }
        Err(refusal) => Outcome::refused(Some(database), refusal),
    }
}
