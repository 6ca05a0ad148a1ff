//! What the program tells on standard error, and its status.
use rrd_base::Refusal;
use rrd_store::{TaskFault, USAGE, report_batch, report_command, report_file_batch};
use rrd_tool::{Fault, LineFault, Part, StreamFault};
use std::alloc::Global;
use std::process::Abort;
use std::test::Fail;
use test_data::worked_files::FILE_FAULTS;

const USAGE_ERROR: TaskFault = TaskFault::Command(Fault::Line(LineFault::Usage));

const NO_SAMPLE_READ: TaskFault = TaskFault::Command(Fault::Line(LineFault::BadWord {
    part: Part::Sample,
    number: 1,
}));

const NO_MEMORY: TaskFault = TaskFault::Stream(StreamFault::OutOfMemory);

const BAD_STEP: TaskFault = TaskFault::Command(Fault::Refused(Refusal::BadStep));

// Other faults, their text, and what is told behind their line.
const OTHER_FAULTS: &[(TaskFault, &str, &str)] = &[
    (TaskFault::Stream(StreamFault::Write), "write failed", ""),
    (TaskFault::Stream(StreamFault::Read), "read failed", ""),
    (NO_MEMORY, "out of memory", ""),
    (TaskFault::CannotOpen, "cannot open", ""),
    (TaskFault::CannotWrite, "cannot write", ""),
    (NO_SAMPLE_READ, "unreadable sample 1", ""),
    (BAD_STEP, "bad step", ""),
    (USAGE_ERROR, "usage", USAGE),
];

// A fault shows its text, and its line has it; the usage text follows where the words were no command.
fn assert_told(
    rt: &impl Abort,
    alloc: Global,
    fault: TaskFault,
    text: &str,
    behind: &str,
) -> Result<(), Fail> {
    let shown = format!(in alloc; "{fault}")?;
    assert_eq!(rt; shown.as_str(), text);
    let mut err = Vec::new(alloc);
    let status = if behind.is_empty() { 1 } else { 2 };
    assert_eq!(rt; report_command(&mut err, Err(fault)), status, "{text}");
    let told = format!(in alloc; "ERROR: {text}\n{behind}")?;
    assert_eq!(rt; err.as_slice(), told.as_bytes(), "{text}");
    Ok(())
}

#[test]
fn faults_of_tasks(rt: HostRuntime) -> Result<(), Fail> {
    let alloc = rt.alloc();
    for (fault, text) in FILE_FAULTS {
        assert_told(&rt, alloc, TaskFault::File(*fault), text, "")?;
    }
    for (fault, text, behind) in OTHER_FAULTS {
        assert_told(&rt, alloc, *fault, text, behind)?;
    }
    Ok(())
}

const UNWRITTEN: Option<TaskFault> = Some(TaskFault::CannotWrite);

const BOTH: &str = "ERROR: read failed\nERROR: cannot write\n";

// How a batch ended: how many lines were refused, what of its streams failed, and why its database
// isn't in its file; the status then, and what is told.
const ENDS: &[(u64, Option<StreamFault>, Option<TaskFault>, u8, &str)] = &[
    (0, None, None, 0, ""),
    (1, None, None, 1, ""),
    (0, None, UNWRITTEN, 1, "ERROR: cannot write\n"),
    (0, Some(StreamFault::Read), UNWRITTEN, 1, BOTH),
];

#[test]
fn ends_of_batches(rt: HostRuntime) -> Result<(), Fail> {
    let alloc = rt.alloc();
    for (refused, stream, unstored, status, text) in ENDS {
        let mut err = Vec::new(alloc);
        let end = report_batch(&mut err, *refused, *stream, *unstored);
        assert_eq!(&rt; end, *status, "{text}");
        assert_eq!(&rt; err.as_slice(), text.as_bytes(), "{text}");
    }
    let mut err = Vec::new(alloc);
    assert_eq!(&rt; report_command(&mut err, Ok(())), 0);
    assert!(&rt; err.is_empty());
    assert_eq!(&rt; report_file_batch(&mut err, Err(TaskFault::CannotOpen)), 1);
    assert_eq!(&rt; err.as_slice(), b"ERROR: cannot open\n".as_slice());
    Ok(())
}
