//! The end of a run: the faults on standard error, and the status.
ghost use Rattle.std.specs.Prelude.{◌≡◌};
ghost use Rattle.std.specs.Result.{result_err};
ghost use Rattle.rrd_fixed.specs.Written.{Writes};
ghost use Rattle.rrd_store.specs.Ending.{Tells, batch_report, batch_status, file_batch_report, file_batch_status, report_if, single_status};

use crate::faults::write_task_fault;
use crate::usage::USAGE;
use crate::{FileBatchEnd, TaskFault};
use rrd_fixed::WriteFault;
use rrd_tool::StreamFault;
use std::io::Write;

// Returns 0 if nothing was refused and nothing failed, 2 if the arguments were not a command, 1 otherwise.
fn single_status(end: Result<(), TaskFault>) -> u8
    ensures { result ≡ single_status end }
{
    match end {
        Ok(()) => 0,
        Err(fault) if fault.is_usage_error() => 2,
        Err(_) => 1,
    }
}

// Returns 0 if no line was refused and nothing failed, 1 otherwise.
fn batch_status(refused: u64, stream: Option<StreamFault>, unstored: Option<TaskFault>) -> u8
    ensures { result ≡ batch_status refused stream unstored }
{
    match (stream, unstored) {
        (None, None) if refused == 0 => 0,
        _ => 1,
    }
}

// Writes the report of a fault, if there is a fault.
fn write_if<W: Write>(err: &mut W, fault: Option<TaskFault>) -> Result<(), WriteFault>
    ensures { Writes (W.contents err.old) (W.contents err.new) (report_if USAGE.now fault) result }
{
    match fault {
        Some(fault) => write_task_fault(err, &fault),
        None => Ok(()),
    }
}

// Writes the report of the faults of a batch.
fn write_batch_faults<W: Write>(
    err: &mut W,
    stream: Option<StreamFault>,
    unstored: Option<TaskFault>,
) -> Result<(), WriteFault>
    ensures { Writes (W.contents err.old) (W.contents err.new) (batch_report USAGE.now stream unstored) result }
{
    let Some(fault) = stream else {
        return write_if(err, unstored);
    };
    write_task_fault(err, &TaskFault::Stream(fault))?;
    write_if(err, unstored)
}

/// Reports the fault of one command, if there is one, and returns the status of the program.
///
/// The status is 0 if nothing was refused and nothing failed, 2 if the arguments were not a command, 1 otherwise. If
/// the report cannot be written, the status is the same.
pub fn report_command<W: Write>(err: &mut W, end: Result<(), TaskFault>) -> u8
    ensures status { result ≡ single_status end }
    ensures told { Tells (W.contents err.old) (W.contents err.new) (report_if USAGE.now (result_err end)) }
{
    let _written = write_if(err, end.err());
    single_status(end)
}

/// Reports the faults of a batch, and returns the status of the program.
///
/// The report has a line for the stream that failed, and a line if the database was not written. The status is 0 if no
/// line was refused and nothing failed, 1 otherwise. If the report cannot be written, the status is the same.
pub fn report_batch<W: Write>(
    err: &mut W,
    refused: u64,
    stream: Option<StreamFault>,
    unstored: Option<TaskFault>,
) -> u8
    ensures status { result ≡ batch_status refused stream unstored }
    ensures told { Tells (W.contents err.old) (W.contents err.new) (batch_report USAGE.now stream unstored) }
{
    let _written = write_batch_faults(err, stream, unstored);
    batch_status(refused, stream, unstored)
}

/// Reports the faults of a batch on a file, and returns the status of the program.
///
/// If the lines were run, the report and the status are those of [`report_batch`]. If no database could be read from
/// the file, they are those of [`report_command`].
pub fn report_file_batch<W: Write>(err: &mut W, end: Result<FileBatchEnd, TaskFault>) -> u8
    ensures status { result ≡ file_batch_status end }
    ensures told { Tells (W.contents err.old) (W.contents err.new) (file_batch_report USAGE.now end) }
{
    match end {
        Ok(end) => report_batch(err, end.refused, end.stream, end.unstored),
        Err(fault) => report_command(err, Err(fault)),
    }
}
