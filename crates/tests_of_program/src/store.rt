//! The program's tasks: what its words ask for, what is done over a storage in memory that may fail, and what is told.
use rrd_store::{Always, FileBatchEnd, TaskFault, run_file_batch, run_file_command};
use rrd_tool::Unobserved;
use std::alloc::{AllocError, Global};
use std::process::Abort;
use std::test::Fail;
use storage::InMemory;
use test_data::words_of;

mod batch;
mod ending;
mod scripts;
mod session;
mod single;
mod spans;
mod storage;
mod strange_files;
mod task;

// Runs the words of a line: its fault, and what it prints.
fn run(
    alloc: Global,
    storage: &mut InMemory,
    line: &str,
    now: u64,
) -> Result<(Option<TaskFault>, Vec<u8>), AllocError> {
    let words = words_of(alloc, line)?;
    let mut out = Vec::new(alloc);
    let end = run_file_command(alloc, &words, now, storage, &mut out, &Unobserved);
    Ok((end.err(), out))
}

// Runs lines as a batch: how it ends, and what it prints.
fn run_lines(
    alloc: Global,
    storage: &mut InMemory,
    lines: &str,
) -> (Result<FileBatchEnd, TaskFault>, Vec<u8>) {
    let mut input = lines.as_bytes();
    let mut out = Vec::new(alloc);
    let end = run_file_batch(alloc, 0, 0, storage, &mut input, &mut out, &Always);
    (end, out)
}

// A command, the text of its fault, what it prints, and how many bytes are there then.
type Step<'a> = (&'a str, &'a str, &'a str, usize);

// A command ends as the step says.
fn assert_ended(
    rt: &impl Abort,
    alloc: Global,
    fault: Option<TaskFault>,
    out: &[u8],
    bytes: &[u8],
    step: &Step<'_>,
) -> Result<(), Fail> {
    let (line, wanted, text, length) = step;
    let told = match fault {
        None => String::new(alloc),
        Some(told) => format!(in alloc; "{told}")?,
    };
    assert_eq!(rt; told.as_str(), *wanted, "{line}");
    assert_eq!(rt; out, text.as_bytes(), "{line}");
    assert_eq!(rt; bytes.len(), *length, "{line}");
    Ok(())
}
