//! The reasons why a line is refused, and the line that reports a reason.
ghost use Rattle.std.specs.Prelude.{◌≡◌, ◌≤◌, length};
ghost use Rattle.rrd_tool.specs.Names.{Writes};
ghost use Rattle.rrd_tool.specs.Words.{error_line, fault_line, fault_text, is_numbered, line_fault_text, unread_text, word_of};

use arrayvec::ArrayString;
use itoa::Buffer;
use rrd_base::Refusal;
use rrd_fixed::{WriteFault, message, write_bytes};
use std::alloc::AllocError;
use std::error::Error;
use std::fmt;
use std::io::Write;

/// The parts of a command that may be unreadable.
#[derive(Clone, Copy, Debug, PartialEq, Eq)]
pub enum Part {
    /// The step of a create: `step`.
    Step,
    /// The start of a create or a fetch: `start`.
    Start,
    /// The depth of the journal: `journal`.
    Journal,
    /// The definition of a data source or an archive: `definition`.
    Definition,
    /// The template of an update: `template`.
    Template,
    /// A sample of an update: `sample`.
    Sample,
    /// A source's new heartbeat: `heartbeat`.
    Heartbeat,
    /// A data source's new minimum rate: `minimum`.
    Minimum,
    /// A data source's new maximum rate: `maximum`.
    Maximum,
    /// A source's new type: `type`.
    Kind,
    /// A source's new name: `rename`.
    Rename,
    /// An archive's number: `archive`.
    Archive,
    /// GROW or SHRINK: `change`.
    Change,
    /// The number of rows to add or remove: `rows`.
    Rows,
    /// A consolidation function: `function`.
    Function,
    /// The resolution of a fetch: `resolution`.
    Resolution,
    /// The end of a fetch: `end`.
    End,
}

impl Part {
    /// Returns the name of the part, as faults print it.
    pub fn word(self) -> &'static str
        ensures { result.now ≡ word_of self }
    {
        match self {
            Part::Step => "step",
            Part::Start => "start",
            Part::Journal => "journal",
            Part::Definition => "definition",
            Part::Template => "template",
            Part::Sample => "sample",
            Part::Heartbeat => "heartbeat",
            Part::Minimum => "minimum",
            Part::Maximum => "maximum",
            Part::Kind => "type",
            Part::Rename => "rename",
            Part::Archive => "archive",
            Part::Change => "change",
            Part::Rows => "rows",
            Part::Function => "function",
            Part::Resolution => "resolution",
            Part::End => "end",
        }
    }

    // Returns whether a command may have several of these parts, so that faults print the number too.
    fn is_numbered(self) -> bool
        ensures { result ≡ is_numbered self }
    {
        matches!(self, Part::Definition | Part::Sample)
    }
}

/// The reason why words are not a command.
#[derive(Clone, Copy, Debug, PartialEq, Eq)]
pub enum LineFault {
    /// clap refuses the words.
    Usage,
    /// This part cannot be read. Definitions and samples are numbered from 1; the number of any other part is 1.
    BadWord { part: Part, number: u64 },
    /// Memory ran out while the words were read.
    OutOfMemory,
}

// A failed allocation becomes `OutOfMemory`.
impl From<AllocError> for LineFault {
    ghost use Rattle.std.specs.Prelude.{◌≡◌};
    ghost use Rattle.rrd_tool.specs.declared.faults.LineFault.TheVariants.{OutOfMemory};

    ghost from_gives = { λ _ fault. fault ≡ OutOfMemory };

    fn from(_error: AllocError) -> LineFault {
        LineFault::OutOfMemory
    }
}

impl LineFault {
    /// Returns the text of the reason, as faults print it: at most 60 bytes.
    pub fn text(self) -> ArrayString<96>
        ensures text { result.bytes ≡ line_fault_text self }
        ensures short { length result.bytes ≤ 60 }
    {
        match self {
            LineFault::Usage => message("usage"),
            LineFault::BadWord { part, number } => unread_string(part, number),
            LineFault::OutOfMemory => message("out of memory"),
        }
    }
}

impl fmt::Display for LineFault {
    fn fmt<W: fmt::Write>(&self, f: &mut fmt::Formatter<W>) -> fmt::Result {
        f.write_str(self.text().as_str())
    }
}

impl Error for LineFault {}

// Returns the text of an unreadable part.
fn unread_string(part: Part, number: u64) -> ArrayString<96>
    ensures text { result.bytes ≡ unread_text part number }
    ensures short { length result.bytes ≤ 60 }
{
    let mut text = message("unreadable ");
    text.push_str(part.word());
    if part.is_numbered() {
        let mut buffer = Buffer::new();
        text.push_str(" ");
        text.push_str(buffer.format(number));
    }
    text
}

/// The reason why a command failed, or its output is incomplete.
#[derive(Clone, Copy, Debug, PartialEq, Eq)]
pub enum Fault {
    /// The words are not a command.
    Line(LineFault),
    /// The database refused the command.
    Refused(Refusal),
    /// A command needs a database, and there is none.
    NoDatabase,
    /// The command was done, but a write of its text failed.
    Output,
}

impl Fault {
    /// Returns the text of the reason, without `ERROR: `: at most 60 bytes.
    pub fn text(self) -> ArrayString<96>
        ensures text { result.bytes ≡ fault_text self }
        ensures short { length result.bytes ≤ 60 }
    {
        match self {
            Fault::Line(fault) => fault.text(),
            Fault::Refused(refusal) => refusal.text(),
            Fault::NoDatabase => message("no database"),
            Fault::Output => message("write failed"),
        }
    }
}

impl fmt::Display for Fault {
    fn fmt<W: fmt::Write>(&self, f: &mut fmt::Formatter<W>) -> fmt::Result {
        f.write_str(self.text().as_str())
    }
}

impl Error for Fault {}

/// Writes the line of a reason: `ERROR: `, a text of at most 60 bytes, and LF.
pub fn write_error<W: Write>(out: &mut W, text: &str) -> Result<(), WriteFault>
    requires { length text.now ≤ 60 }
    ensures { Writes (W.contents out.old) (W.contents out.new) (error_line text.now) result }
{
    let mut line = ArrayString::<96>::new();
    line.push_str("ERROR: ");
    line.push_str(text);
    line.push_str("\n");
    write_bytes(out, line.as_str().as_bytes())
}

/// Writes the line of a fault.
pub fn write_fault<W: Write>(out: &mut W, fault: &Fault) -> Result<(), WriteFault>
    ensures { Writes (W.contents out.old) (W.contents out.new) (fault_line fault.now) result }
{
    write_error(out, fault.text().as_str())
}
