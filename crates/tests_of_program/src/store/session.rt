//! Sessions on a storage in memory that may fail.
use super::single::OVER_NOTHING;
use super::storage::{Ending, InMemory};
use super::{Step, assert_ended};
use crate::shared::assert_bytes;
use rrd_base::{Database, Given, List, Sample, Update};
use rrd_fixed::Number;
use rrd_store::{Gate, Session, TaskFault};
use rrd_tool::{Command, Fault, Observer};
use std::alloc::{AllocError, Global};
use std::process::Abort;
use std::test::Fail;
use test_data::words_of;
use test_data::worked_files::sampled_file;

// Allows no write.
struct Never;

impl Observer for Never {
    fn command_refused(&self, _database: Option<&Database>, _fault: Fault) {}

    fn line_refused(
        &self,
        _number: u64,
        _text: Option<&[u8]>,
        _database: Option<&Database>,
        _fault: Fault,
    ) {}
}

impl Gate for Never {
    fn allows(&self) -> bool {
        false
    }
}

// Runs the words of the line at time 1,000.
fn assert_step(
    rt: &impl Abort,
    alloc: Global,
    session: &mut Session<InMemory>,
    step: &Step<'_>,
) -> Result<(), Fail> {
    let (line, fault, text, _) = step;
    let mut out = Vec::new(alloc);
    let end = session.run(alloc, &words_of(alloc, line)?, 1_000, &mut out);
    let bytes = session.storage().bytes.as_slice();
    assert_ended(rt, alloc, end.err(), &out, bytes, step)?;
    let is_written = fault.is_empty() && text.is_empty();
    assert_eq!(rt; session.is_written(), is_written, "{line}");
    Ok(())
}

#[test]
fn session_runs_as_single_commands_do(rt: HostRuntime) -> Result<(), Fail> {
    let alloc = rt.alloc();
    let mut session = Session::new(InMemory::missing(alloc));
    for step in OVER_NOTHING {
        assert_step(&rt, alloc, &mut session, step)?;
    }
    Ok(())
}

// After a write that failed the storage is read again: it has the old database, or the new one.
#[test]
fn failed_write_is_read_again(rt: HostRuntime) -> Result<(), Fail> {
    let alloc = rt.alloc();
    for (ending, length, last) in [
        (Ending::OldStays, 309, "10\n"),
        (Ending::NewStays, 394, "20\n"),
    ] {
        let mut storage = InMemory::with(alloc, &sampled_file(alloc)?)?;
        storage.ending = ending;
        let mut session = Session::new(storage);
        assert_step(&rt, alloc, &mut session, &("last", "", "10\n", 309))?;
        let step = ("update 20:1", "cannot write", "", length);
        assert_step(&rt, alloc, &mut session, &step)?;
        assert_step(&rt, alloc, &mut session, &("last", "", last, length))?;
    }
    Ok(())
}

// A batch that the gate stops leaves the storage as it is, and the next run reads it.
#[test]
fn gate_stops_a_batch(rt: HostRuntime) -> Result<(), Fail> {
    let alloc = rt.alloc();
    let storage = InMemory::with(alloc, &sampled_file(alloc)?)?;
    let mut session = Session::new(storage);
    let mut lines = &b"update 20:1\nlast\n"[..];
    let mut out = Vec::new(alloc);
    let end = session.run_batch(alloc, 0, 1, &mut lines, &mut out, &Never)?;
    assert_eq!(&rt; out.as_slice(), b"20\n".as_slice());
    assert_eq!(&rt; end.unstored, Some(TaskFault::CannotWrite));
    assert_step(&rt, alloc, &mut session, &("last", "", "10\n", 309))
}

// An update by one sample, whose one value is in millionths, or unknown.
fn update_by(alloc: Global, time: u64, value: Option<i128>) -> Result<Command, AllocError> {
    let mut values = List::new(alloc);
    values.push(match value {
        Some(millionths) => Given::Number(Number {
            millionths,
            point: true,
        }),
        None => Given::Unknown,
    })?;
    let mut samples = List::new(alloc);
    samples.push(Sample { time, values })?;
    Ok(Command::Update(Update {
        template: None,
        samples,
    }))
}

// Runs an update by one sample, and tells the text of its fault.
fn run_sample(
    alloc: Global,
    session: &mut Session<InMemory>,
    time: u64,
    value: Option<i128>,
) -> Result<String, AllocError> {
    let mut out = Vec::new(alloc);
    match session.run_command(alloc, update_by(alloc, time, value)?, &mut out) {
        Ok(()) => Ok(String::new(alloc)),
        Err(told) => format!(in alloc; "{told}"),
    }
}

const TOO_SMALL: i128 = -1_000_000_000_000_000_000_000_000;

// A command that was not read from words leaves the same bytes as its words do, and is refused as they are.
#[test]
fn commands_without_words_run_as_their_words_do(rt: HostRuntime) -> Result<(), Fail> {
    let alloc = rt.alloc();
    let mut by_words = Session::new(InMemory::with(alloc, &sampled_file(alloc)?)?);
    let mut by_command = Session::new(InMemory::with(alloc, &sampled_file(alloc)?)?);
    for (line, time, value, fault) in [
        ("update 20:1.5", 20, Some(1_500_000), ""),
        ("update 30:U", 30, None, ""),
        ("update 30:2.0", 30, Some(2_000_000), "not later than 30"),
        (
            "update 40:-1000000000000000000.0",
            40,
            Some(TOO_SMALL),
            "bad value",
        ),
        ("update 50:-0.000001", 50, Some(-1), ""),
    ] {
        let mut out = Vec::new(alloc);
        let end = by_words.run(alloc, &words_of(alloc, line)?, 1_000, &mut out);
        assert_eq!(&rt; end.is_ok(), fault.is_empty(), "{line}");
        let told = run_sample(alloc, &mut by_command, time, value)?;
        assert_eq!(&rt; told.as_str(), fault, "{line}");
        assert_eq!(&rt; by_command.is_written(), fault.is_empty(), "{line}");
        assert_bytes(
            &rt,
            &by_command.storage().bytes,
            &by_words.storage().bytes,
            line,
        );
    }
    Ok(())
}

// After a write that failed a command without words reads the storage again.
#[test]
fn commands_without_words_read_again(rt: HostRuntime) -> Result<(), Fail> {
    let alloc = rt.alloc();
    let mut storage = InMemory::with(alloc, &sampled_file(alloc)?)?;
    storage.ending = Ending::OldStays;
    let mut session = Session::new(storage);
    assert!(&rt; session.database().is_none());
    let told = run_sample(alloc, &mut session, 20, None)?;
    assert_eq!(&rt; told.as_str(), "cannot write");
    assert!(&rt; session.database().is_none());
    assert_step(&rt, alloc, &mut session, &("last", "", "10\n", 309))?;
    let last = session.database().map(|database| database.last());
    assert_eq!(&rt; last, Some(10));
    Ok(())
}
