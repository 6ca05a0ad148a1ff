//! Explains the end of a run, on standard error behind the fault. Only a run that failed does this.
use rrd_disk::{Cause, Settings};
use rrd_explain::{Explained, Explanation, explain_cause, other_program};
use rrd_file::FileFault;
use rrd_fixed::write_bytes;
use rrd_store::TaskFault;
use std::alloc::{AllocError, Global};
use std::io::Error;

/// Returns words as texts.
pub(crate) fn texts_of(alloc: Global, words: &[String]) -> Option<Vec<&str>> {
    let mut texts = Vec::new(alloc);
    for word in words {
        texts.push(word.as_str()).ok()?;
    }
    Some(texts)
}

/// Reports why a run on the file at `path` failed: why the last call on the file failed or, if none did, of which other
/// program the file is.
pub(crate) fn report_fault(
    rt: &HostRuntime,
    path: &str,
    fault: TaskFault,
    error: Option<Error>,
    cause: &Cause,
    settings: Settings,
) {
    let explanation = match (error, fault) {
        (Some(error), _) => explain_cause(rt.alloc(), path, error, settings.wait),
        (None, TaskFault::File(FileFault::NotOurs)) => other_program(
            rt.alloc(),
            path,
            &cause.mark(),
        ),
        _ => None,
    };
    if let Some(explanation) = &explanation {
        report(rt, explanation);
    }
}

/// Reports an explanation on standard error, in the line `rrdi: EXPLANATION`.
///
/// If memory runs out for the line, or the write fails, nothing more is reported.
pub(crate) fn report(rt: &HostRuntime, explanation: &Explanation) {
    report_line(rt, 0, explanation);
}

/// Reports what was explained of a run: of a batch each line that was refused, in a line `rrdi: line NUMBER: EXPLANATION`.
pub(crate) fn report_explained(rt: &HostRuntime, explained: &[Explained]) {
    for one in explained {
        report_line(rt, one.line, &one.explanation);
    }
}

// Reports an explanation of the line of a batch with this number, or of the only command if the number is 0.
fn report_line(rt: &HostRuntime, number: u64, explanation: &Explanation) {
    let Ok(line) = line_of(rt.alloc(), number, explanation) else {
        return;
    };
    let _written = write_bytes(&mut rt.stderr(), &line);
}

// Returns the line of an explanation.
fn line_of(alloc: Global, number: u64, explanation: &Explanation) -> Result<Vec<u8>, AllocError> {
    let mut line = Vec::new(alloc);
    line.extend_from_slice(b"rrdi: ")?;
    if number > 0 {
        line.extend_from_slice(format!(in alloc; "line {number}: ")?.as_bytes())?;
    }
    line.extend_from_slice(explanation.as_bytes())?;
    line.push(b'\n')?;
    Ok(line)
}
