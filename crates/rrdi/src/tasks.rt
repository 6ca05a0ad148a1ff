//! The tasks on the program's streams and files. Each returns the status of the program.
ghost use Rattle.std.specs.Prelude.{◌≡◌};

use crate::clock::seconds_now;
use crate::disk::Host;
use crate::explaining::{report, report_explained, report_fault, texts_of};
use crate::settings::settings;
use crate::{NO_MEMORY, USAGE_ERROR};
use rrd_disk::{Cause, Place, run_batch_at, run_command_at};
use rrd_explain::{Explained, Explainer, Explanation, Misuse, misuse_of};
use rrd_fixed::write_bytes;
use rrd_store::{TaskFault, USAGE, report_batch, report_command, report_file_batch};
use rrd_tool::{Words, run_batch, write_error};
use std::io::{BufWriter, Error, ErrorKind, Stdout};

/// The maximum number of bytes of output that one call writes.
const OUTPUT: usize = 65_536;

/// The writer of the program's output.
type OutputWriter = BufWriter<Stdout>;

/// Reports a fault, and returns the status for it.
pub(crate) fn fail(rt: &HostRuntime, fault: TaskFault) -> u8 {
    report_command(&mut rt.stderr(), Err(fault))
}

/// What is wrong with arguments that are no text.
const NOT_TEXT: &str = "an argument is not in UTF-8";

/// The status of the program after arguments that are not a command.
const MISUSED: u8 = 2;

// Reports on standard error what was wrong with arguments that are not a command, and returns the usage of the command that
// they name, if they name one.
fn report_misuse(rt: &HostRuntime, arguments: &[String]) -> Option<String> {
    let words = texts_of(rt.alloc(), arguments.get(1..)?)?;
    let Misuse { explanation, usage } = misuse_of(rt.alloc(), &words, seconds_now(rt));
    if let Some(explanation) = &explanation {
        report(rt, explanation);
    }
    usage
}

/// Reports arguments that are not a command, and returns the status for them.
///
/// After the line of the fault follows what was wrong, if the arguments show it, and the usage of the command that they
/// name. If they name none, or memory runs out, the usage of the whole program follows.
pub(crate) fn misuse(rt: &HostRuntime, arguments: &[String]) -> u8
    ensures { result ≡ 2 }
{
    let _reported = write_error(&mut rt.stderr(), "usage");
    let usage = report_misuse(rt, arguments);
    let _written = match &usage {
        Some(usage) => write_bytes(&mut rt.stderr(), usage.as_bytes()),
        None => write_bytes(&mut rt.stderr(), USAGE.as_bytes()),
    };
    MISUSED
}

/// Reports arguments that are no text, and returns the status for them. The usage of the whole program follows.
pub(crate) fn not_text(rt: &HostRuntime) -> u8
    ensures { result ≡ 2 }
{
    let _reported = write_error(&mut rt.stderr(), "usage");
    if let Ok(explanation) = Explanation::new(rt.alloc(), NOT_TEXT) {
        report(rt, &explanation);
    }
    let _written = write_bytes(&mut rt.stderr(), USAGE.as_bytes());
    MISUSED
}

/// Runs the commands on standard input, in memory.
pub(crate) fn batch(rt: &HostRuntime) -> u8 {
    let Ok(mut out) = BufWriter::with_capacity(rt.alloc(), OUTPUT, rt.stdout()) else {
        return fail(rt, NO_MEMORY);
    };
    let now = seconds_now(rt);
    let explainer = Explainer::of_lines(rt.alloc(), now);
    let end = run_batch(
        rt.alloc(),
        None,
        now,
        0,
        &mut rt.stdin(),
        &mut out,
        &explainer,
    );
    let status = report_batch(&mut rt.stderr(), end.refused, end.stream, None);
    report_explained(rt, &explainer.into_explained());
    status
}

// Returns why the file could not be opened, read or written, if `fault` is such a fault. After a fault of the bytes that
// were read there is no reason, because no call failed. If no call failed, a file that could not be opened is not there,
// and memory ran out for the new bytes of a file that could not be written.
fn reason_of(cause: &Cause, fault: TaskFault) -> Option<Error> {
    match (fault, cause.last()) {
        (TaskFault::CannotOpen, None) => Some(Error::from(ErrorKind::NotFound)),
        (TaskFault::CannotWrite, None) => Some(Error::from(ErrorKind::OutOfMemory)),
        (TaskFault::CannotOpen | TaskFault::CannotWrite | TaskFault::File(_), last) => last,
        _ => None,
    }
}

/// The end of a run on a file.
#[derive(Drop)]
struct Ended {
    status: u8,
    // The fault that was reported.
    fault: Option<TaskFault>,
    // What was explained of the commands that were refused.
    explained: Option<Vec<Explained>>,
}

// Runs a task on the database in the file at `path`, explains its fault, if it has one, and returns the status of the
// program.
//
// `run` gets the settings and the cause of a failed call for the file, the present time, and the writer of the output.
fn on_file<R>(rt: &HostRuntime, path: &str, run: R) -> u8
where
    R: FnOnce(Place<'_>, u64, &mut OutputWriter) -> Ended,
    requires { R.IsAlwaysCallable run }
{
    let Ok(mut out) = BufWriter::with_capacity(rt.alloc(), OUTPUT, rt.stdout()) else {
        return fail(rt, NO_MEMORY);
    };
    let now = seconds_now(rt);
    let cause = Cause::new();
    let place = Place {
        settings: settings(rt),
        cause: &cause,
    };
    let ended = run(place, now, &mut out);
    if let Some(fault) = ended.fault {
        let error = reason_of(&cause, fault);
        report_fault(rt, path, fault, error, &cause, settings(rt));
    }
    if let Some(explained) = &ended.explained {
        report_explained(rt, explained);
    }
    ended.status
}

/// Runs the commands on standard input on the database in a file.
pub(crate) fn file_batch(rt: &HostRuntime, path: &str) -> u8 {
    on_file(rt, path, |place, now, out| {
        let explainer = Explainer::of_lines(rt.alloc(), now);
        let ran = run_batch_at(
            rt.alloc(),
            Host::new(rt, path),
            place,
            now,
            0,
            &mut rt.stdin(),
            out,
            &explainer,
        );
        let fault = match &ran.end {
            Ok(end) => end.unstored,
            Err(fault) => Some(*fault),
        };
        Ended {
            status: report_file_batch(&mut rt.stderr(), ran.end),
            fault,
            explained: Some(explainer.into_explained()),
        }
    })
}

// Reports the fault of one command, if there is one, and returns the status for it.
fn report_end(rt: &HostRuntime, arguments: &[String], end: Result<(), TaskFault>) -> u8 {
    if end == Err(USAGE_ERROR) {
        return misuse(rt, arguments);
    }
    report_command(&mut rt.stderr(), end)
}

// Returns what was explained of a command that ended with this fault. What was wrong with arguments that are not a command is
// reported with them.
fn explained(explainer: Explainer<'_>, fault: Option<TaskFault>) -> Option<Vec<Explained>> {
    match fault? {
        USAGE_ERROR => None,
        TaskFault::Command(fault) => {
            explainer.end(fault);
            Some(explainer.into_explained())
        }
        _ => None,
    }
}

/// Runs one command on the database in a file. `arguments` are all arguments of the program.
pub(crate) fn single(
    rt: &HostRuntime,
    path: &str,
    command: &Words<'_>,
    arguments: &[String],
) -> u8 {
    on_file(rt, path, |place, now, out| {
        let explainer = Explainer::of_command(rt.alloc(), command.as_slice(), now);
        let ran = run_command_at(
            rt.alloc(),
            Host::new(rt, path),
            place,
            command,
            now,
            out,
            &explainer,
        );
        let fault = ran.end.err();
        Ended {
            status: report_end(rt, arguments, ran.end),
            fault,
            explained: explained(explainer, fault),
        }
    })
}
