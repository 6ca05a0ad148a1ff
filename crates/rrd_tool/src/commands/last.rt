//! `last`: prints the time of the last update (rrdlast).
ghost use Rattle.std.specs.Prelude.{Some, ◌++◌, ◌≤◌, codes, length};
ghost use Rattle.rrd_tool.specs.Names.{Writes};
ghost use Rattle.rrd_tool.specs.Words.{Executes};

use crate::Command;
use crate::execution::Outcome;
use arrayvec::ArrayString;
use itoa::Buffer;
use rrd_base::Database;
use rrd_fixed::{WriteFault, write_bytes};
use std::io::Write;

/// Writes a line with this text, of at most 40 bytes.
pub(crate) fn write_line<W: Write>(out: &mut W, text: &str) -> Result<(), WriteFault>
    requires { length text.now ≤ 40 }
    ensures { Writes (W.contents out.old) (W.contents out.new) (text.now ++ codes "\n") result }
{
    let mut line = ArrayString::<48>::new();
    line.push_str(text);
    line.push_str("\n");
    write_bytes(out, line.as_str().as_bytes())
}

/// Prints the time.
pub(crate) fn run<W: Write>(database: Database, out: &mut W) -> Outcome
    ensures { Executes (Some database) Command.Last (W.contents out.old) (W.contents out.new) result }
{
    let mut buffer = Buffer::new();
    let written = write_line(out, buffer.format(database.last()));
    Outcome::of_text(database, written)
}
