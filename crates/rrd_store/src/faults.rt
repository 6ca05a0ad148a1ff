//! The reasons why a task was not done, and the lines that report them.
ghost use Rattle.std.specs.Prelude.{◌≡◌, ◌≤◌, length};
ghost use Rattle.rrd_fixed.specs.Written.{Writes};
ghost use Rattle.rrd_tool.specs.Faults.{error_line};
ghost use Rattle.rrd_store.specs.Faults.{is_usage_error, report_of, stream_text, task_fault_text};

use crate::usage::USAGE;
use arrayvec::ArrayString;
use rrd_file::FileFault;
use rrd_fixed::{WriteFault, message, write_bytes};
use rrd_tool::{Fault, LineFault, StreamFault, write_error};
use std::error::Error;
use std::fmt;
use std::io::Write;

/// The reason why a task was not done, or only in part.
#[derive(Clone, Copy, Debug, PartialEq, Eq)]
pub enum TaskFault {
    /// The command was refused, or a write of its output failed.
    Command(Fault),
    /// A stream of the batch failed.
    Stream(StreamFault),
    /// The file has no database, or could not be read to its end.
    File(FileFault),
    /// The file does not exist, or cannot be opened for reading.
    CannotOpen,
    /// The file cannot be opened for writing, or a write of the file failed.
    CannotWrite,
}

// Converts the fault of arguments that are not a command.
impl From<LineFault> for TaskFault {
    ghost use Rattle.std.specs.Prelude.{◌≡◌};
    ghost use Rattle.rrd_tool.specs.declared.faults.Fault.TheVariants.{Line};
    ghost use Rattle.rrd_store.specs.declared.faults.TaskFault.TheVariants.{Command};

    ghost from_gives = { λ line fault. fault ≡ Command (Line line) };

    fn from(line: LineFault) -> TaskFault {
        TaskFault::Command(Fault::Line(line))
    }
}

// Returns the message of a stream's fault.
fn stream_string(fault: StreamFault) -> ArrayString<96>
    ensures text { result.bytes ≡ stream_text fault }
    ensures short { length result.bytes ≤ 60 }
{
    match fault {
        StreamFault::Write => message("write failed"),
        StreamFault::Read => message("read failed"),
        StreamFault::OutOfMemory => message("out of memory"),
    }
}

impl TaskFault {
    /// Returns the message of at most 60 bytes, without `ERROR: ` before it.
    pub fn text(self) -> ArrayString<96>
        ensures text { result.bytes ≡ task_fault_text self }
        ensures short { length result.bytes ≤ 60 }
    {
        match self {
            TaskFault::Command(fault) => fault.text(),
            TaskFault::Stream(fault) => stream_string(fault),
            TaskFault::File(fault) => fault.text(),
            TaskFault::CannotOpen => message("cannot open"),
            TaskFault::CannotWrite => message("cannot write"),
        }
    }

    /// Checks whether the arguments were not a command. The usage text follows the line of such a fault.
    pub(crate) fn is_usage_error(self) -> bool
        ensures { result ≡ is_usage_error self }
    {
        matches!(self, TaskFault::Command(Fault::Line(LineFault::Usage)))
    }
}

impl fmt::Display for TaskFault {
    fn fmt<W: fmt::Write>(&self, f: &mut fmt::Formatter<W>) -> fmt::Result {
        f.write_str(self.text().as_str())
    }
}

impl Error for TaskFault {}

// Writes the line of a fault.
fn write_line<W: Write>(err: &mut W, fault: &TaskFault) -> Result<(), WriteFault>
    ensures { Writes (W.contents err.old) (W.contents err.new) (error_line (task_fault_text fault.now)) result }
{
    write_error(err, fault.text().as_str())
}

/// Writes the line of a fault: `ERROR: `, the message and LF. The usage text follows if the arguments were not a
/// command.
///
/// # Errors
///
/// A write failed. A first part of the line and the text is written.
pub(crate) fn write_task_fault<W: Write>(err: &mut W, fault: &TaskFault) -> Result<(), WriteFault>
    ensures { Writes (W.contents err.old) (W.contents err.new) (report_of USAGE.now fault.now) result }
{
    write_line(err, fault)?;
    if fault.is_usage_error() {
        return write_bytes(err, USAGE.as_bytes());
    }
    Ok(())
}
