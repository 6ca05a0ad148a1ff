//! `lastupdate`: prints the last raw value of each data source (rrdlastupdate). Builds each line without allocating,
//! and then writes the line at once.
ghost use Rattle.std.specs.Prelude.{◌≡◌, ◌≤◌, ◌+◌, ◌++◌, Some, codes, length};
ghost use Rattle.rrd_tool.specs.Names.{raw_text, Writes};
ghost use Rattle.rrd_tool.specs.Words.{header_text, raws_text, Executes};

use super::fetch::header_string;
use crate::Command;
use crate::execution::Outcome;
use arrayvec::ArrayString;
use itoa::Buffer;
use rrd_base::Database;
use rrd_fixed::{Kind, Raw, WriteFault, raw_string, write_bytes};
use std::io::Write;

// Adds a space and the text of a raw value to a line.
fn push_raw(line: &mut ArrayString<4096>, kind: Kind, raw: Raw)
    requires { length line.old.bytes + 49 ≤ 4096 }
    ensures text { line.new.bytes ≡ line.old.bytes ++ codes " " ++ raw_text kind raw }
    ensures room { length line.new.bytes ≤ length line.old.bytes + 49 }
{
    line.push_str(" ");
    line.push_str(raw_string(kind, raw).as_str());
}

// Returns the line with the last time and the raw values.
fn raws_string(database: &Database) -> ArrayString<4096>
    ensures { result.bytes ≡ raws_text database.now.content }
{
    let mut line = ArrayString::new();
    let mut buffer = Buffer::new();
    line.push_str(buffer.format(database.last()));
    line.push_str(":");
    for source in 0..database.sources() {
        push_raw(
            &mut line,
            database.source(source).kind,
            database.last_raw(source),
        );
    }
    line.push_str("\n");
    line
}

// Writes the line with the names of the data sources, and then the line with the raw values.
fn write_raws<W: Write>(out: &mut W, database: &Database) -> Result<(), WriteFault>
    ensures { Writes (W.contents out.old) (W.contents out.new)
        (header_text database.now.content.sources ++ raws_text database.now.content) result }
{
    write_bytes(out, header_string(database).as_str().as_bytes())?;
    write_bytes(out, raws_string(database).as_str().as_bytes())
}

/// Prints the raw values.
pub(crate) fn run<W: Write>(database: Database, out: &mut W) -> Outcome
    ensures { Executes (Some database) Command.LastUpdate (W.contents out.old) (W.contents out.new) result }
{
    let written = write_raws(out, &database);
    Outcome::of_text(database, written)
}
