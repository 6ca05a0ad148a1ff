//! `info`: prints the settings of a database, and the number of changes that can be reverted (rrdinfo). Builds the
//! lines of each data source and archive without allocating, and then writes them at once.
ghost use Rattle.std.specs.Prelude.{◌≡◌, ◌≤◌, ◌+◌, ◌++◌, Some, codes, decimal, length};
ghost use Rattle.rrd_tool.specs.Names.{Writes};
ghost use Rattle.rrd_tool.specs.Words.{texts_below, archive_at, archive_text, bound_text, head_text, numbered, setting, source_at, source_text, Executes};

use crate::Command;
use crate::execution::Outcome;
use crate::fields::Worded;
use arrayvec::ArrayString;
use itoa::Buffer;
use rrd_base::{Database, DsDef, RraDef};
use rrd_fixed::{Cell, Raw, WriteFault, cell_string, raw_string, write_bytes};
use std::io::Write;

// ---- values

// Returns the text of a bound in millionths; `U` if there is no bound.
fn bound_string(bound: Option<i128>) -> ArrayString<48>
    ensures text { result.bytes ≡ bound_text bound }
    ensures short { length result.bytes ≤ 48 }
{
    let Some(bound) = bound else {
        let mut text = ArrayString::new();
        text.push_str("U");
        return text;
    };
    cell_string(Cell::Known(bound))
}

// ---- lines

// Returns the beginning of the lines of the data source or archive with this number.
fn numbered_string(items: &str, number: u64) -> ArrayString<48>
    requires { length items.now ≤ 3 }
    ensures text { result.bytes ≡ numbered items.now number }
    ensures short { length result.bytes ≤ 26 }
{
    let mut text = ArrayString::new();
    let mut buffer = Buffer::new();
    text.push_str(items);
    text.push_str("[");
    text.push_str(buffer.format(number));
    text.push_str("].");
    text
}

// Adds a line: its beginning, a name, and a value.
fn push_setting(text: &mut ArrayString<1024>, of: &str, name: &str, value: &str)
    requires of_short { length of.now ≤ 26 }
    requires name_short { length name.now ≤ 20 }
    requires value_short { length value.now ≤ 48 }
    requires room { length text.old.bytes + 98 ≤ 1024 }
    ensures text { text.new.bytes ≡ text.old.bytes ++ setting of.now name.now value.now }
    ensures room { length text.new.bytes ≤ length text.old.bytes + 98 }
{
    text.push_str(of);
    text.push_str(name);
    text.push_str(" = ");
    text.push_str(value);
    text.push_str("\n");
}

// Adds a line with a whole number as its value.
fn push_number(text: &mut ArrayString<1024>, of: &str, name: &str, number: u64)
    requires of_short { length of.now ≤ 26 }
    requires name_short { length name.now ≤ 20 }
    requires room { length text.old.bytes + 98 ≤ 1024 }
    ensures text { text.new.bytes ≡ text.old.bytes ++ setting of.now name.now (decimal number) }
    ensures room { length text.new.bytes ≤ length text.old.bytes + 98 }
{
    let mut buffer = Buffer::new();
    push_setting(text, of, name, buffer.format(number));
}

// Returns the lines that belong to no data source or archive.
fn head_string(database: &Database) -> ArrayString<1024>
    ensures { result.bytes ≡ head_text database.now }
{
    let mut text = ArrayString::new();
    push_number(&mut text, "", "step", database.step());
    push_number(&mut text, "", "last_update", database.last());
    push_number(&mut text, "", "journal", database.depth());
    push_number(&mut text, "", "undoable", database.undoable());
    text
}

// Returns the lines of a data source.
fn source_string(number: u64, source: &DsDef, raw: Raw) -> ArrayString<1024>
    ensures { result.bytes ≡ source_text number source.now raw }
{
    let of = numbered_string("ds", number);
    let of = of.as_str();
    let raw = raw_string(source.kind, raw);
    let mut text = ArrayString::new();
    push_setting(&mut text, of, "name", source.name.as_str());
    push_setting(&mut text, of, "type", source.kind.word());
    push_number(&mut text, of, "minimal_heartbeat", source.heartbeat);
    push_setting(&mut text, of, "min", bound_string(source.min).as_str());
    push_setting(&mut text, of, "max", bound_string(source.max).as_str());
    push_setting(&mut text, of, "last_raw", raw.as_str());
    text
}

// Returns the lines of an archive.
fn archive_string(archive: u64, def: RraDef) -> ArrayString<1024>
    ensures { result.bytes ≡ archive_text archive def }
{
    let of = numbered_string("rra", archive);
    let of = of.as_str();
    let xff = cell_string(Cell::Known(def.xff));
    let mut text = ArrayString::new();
    push_setting(&mut text, of, "cf", def.function.word());
    push_setting(&mut text, of, "xff", xff.as_str());
    push_number(&mut text, of, "steps", def.steps);
    push_number(&mut text, of, "rows", def.rows);
    text
}

// ---- all lines

// Writes the lines of all data sources.
fn write_sources<W: Write>(out: &mut W, database: &Database) -> Result<(), WriteFault>
    ensures { Writes (W.contents out.old) (W.contents out.new)
        (texts_below (source_at database.now.content) (length database.now.content.sources)) result }
{
    for number in 0..database.sources() {
        let text = source_string(number, database.source(number), database.last_raw(number));
        write_bytes(out, text.as_str().as_bytes())?;
    }
    Ok(())
}

// Writes the lines of all archives.
fn write_archives<W: Write>(out: &mut W, database: &Database) -> Result<(), WriteFault>
    ensures { Writes (W.contents out.old) (W.contents out.new)
        (texts_below (archive_at database.now.content) (length database.now.content.archives)) result }
{
    for archive in 0..database.archives() {
        let text = archive_string(archive, database.archive(archive));
        write_bytes(out, text.as_str().as_bytes())?;
    }
    Ok(())
}

// Writes all lines.
fn write_info<W: Write>(out: &mut W, database: &Database) -> Result<(), WriteFault>
    ensures { Writes (W.contents out.old) (W.contents out.new)
        (head_text database.now
        ++ texts_below (source_at database.now.content) (length database.now.content.sources)
        ++ texts_below (archive_at database.now.content) (length database.now.content.archives)) result }
{
    write_bytes(out, head_string(database).as_str().as_bytes())?;
    write_sources(out, database)?;
    write_archives(out, database)
}

/// Prints the settings.
pub(crate) fn run<W: Write>(database: Database, out: &mut W) -> Outcome
    ensures { Executes (Some database) Command.Info (W.contents out.old) (W.contents out.new) result }
{
    let written = write_info(out, &database);
    Outcome::of_text(database, written)
}
