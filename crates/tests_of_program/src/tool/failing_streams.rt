//! Texts, commands and batches over readers and writers that give or take little, are interrupted, or fail once, also in
//! each call: what is tried again, and what isn't.
use crate::shared::{assert_front, last_of, parts_of};
use rrd_base::Database;
use rrd_fixed::write_bytes;
use rrd_fold::Function;
use rrd_spec::FetchRequest;
use rrd_tool::{
    Command, Fault, LineFault, StreamFault, Unobserved, execute, run_batch, write_error,
    write_fault,
};
use std::alloc::{AllocError, Global};
use std::io::ErrorKind;
use std::process::Abort;
use std::test::Fail;
use test_data::each_call::{FAULTS, INTERRUPTS, failing_after, interrupted};
use test_data::plans::made;
use test_data::streams::{Giver, Manner, PLAIN, Taker};
use test_data::worked_files::FOUR_CHANGES;

// ---- texts and commands

const TEXTS: usize = 8;

// Writes the text of this number, or runs the command: what fails.
fn write(
    alloc: Global,
    database: &mut Option<Database>,
    number: usize,
    out: &mut Taker,
) -> Option<Fault> {
    let command = match number {
        0 => return write_bytes(out, b"some bytes").err().map(|_| Fault::Output),
        1 => {
            let usage = Fault::Line(LineFault::Usage);
            return write_fault(out, &usage).err().map(|_| Fault::Output);
        }
        2 => return write_error(out, "cannot open").err().map(|_| Fault::Output),
        3 => Command::Fetch(FetchRequest {
            function: Function::Average,
            asked: 1,
            start: 100,
            end: 140,
        }),
        4 => Command::First { archive: 1 },
        5 => Command::Last,
        6 => Command::LastUpdate,
        _ => Command::Info,
    };
    let end = parts_of(execute(alloc, database.take(), command, out));
    *database = end.database;
    end.fault
}

// Each write fails so: a front of the text is there. Or each one is interrupted.
fn assert_each_write(
    rt: &impl Abort,
    alloc: Global,
    database: &mut Option<Database>,
    number: usize,
) {
    let mut whole = Taker::new(alloc, PLAIN, PLAIN);
    assert_eq!(rt;
        write(alloc, database, number, &mut whole),
        None,
        "{number}"
    );
    let text = whole.taken.as_slice();
    for fault in FAULTS {
        for calls in 0..text.len().saturating_add(1) {
            let mut out = Taker::new(alloc, failing_after(calls, *fault), PLAIN);
            let end = write(alloc, database, number, &mut out);
            let wanted = (calls < text.len()).then_some(Fault::Output);
            assert_eq!(rt; end, wanted, "{number} {calls}");
            assert_front(rt, &out.taken, text, calls);
        }
    }
    for (interrupts, is_written) in INTERRUPTS {
        let mut out = Taker::new(alloc, interrupted(*interrupts), PLAIN);
        let end = write(alloc, database, number, &mut out);
        assert_eq!(rt; end.is_none(), *is_written, "{number}");
        let room = if *is_written { text.len() } else { 0 };
        assert_front(rt, &out.taken, text, room);
    }
}

#[test]
fn each_write_of_a_text_fails(rt: HostRuntime) -> Result<(), Fail> {
    let mut database = Some(made(rt.alloc(), FOUR_CHANGES)?);
    for number in 0..TEXTS {
        assert_each_write(&rt, rt.alloc(), &mut database, number);
    }
    Ok(())
}

// ---- batches

const READ: Option<StreamFault> = Some(StreamFault::Read);

const WRITE: Option<StreamFault> = Some(StreamFault::Write);

// How a batch ended: what of its streams failed, how many fault lines were written whole, and the database's last time.
type End = (Option<StreamFault>, u64, Option<u64>);

// Runs a batch over streams that read, write and flush so: how it ended, and what was written.
fn run(alloc: Global, input: &[u8], manners: [Manner; 3]) -> (End, Taker) {
    let [reading, writing, flushing] = manners;
    let mut source = Giver::new(input, reading);
    let mut sink = Taker::new(alloc, writing, flushing);
    let end = run_batch(alloc, None, 0, 0, &mut source, &mut sink, &Unobserved);
    ((end.stream, end.refused, last_of(&end.database)), sink)
}

const MADE: &[u8] =
    b"create --step 10 --start 0 DS:g:GAUGE:100:U:U RRA:LAST:0.5:1:4\nupdate 10:1\nlast\nupdate 20:2\n";

// Two lines that are refused.
const LASTS: &[u8] = b"last\nlast\n";

const ONE_ANSWER: &str = "ERROR: no database\n";

const ANSWERS: &str = "ERROR: no database\nERROR: no database\n";

// How a stream's calls go: how many bytes at most, how often each is interrupted, and after how many bytes one fails, by
// which error, or takes nothing.
type Way = (usize, u64, usize, Option<ErrorKind>);

const MOST: usize = usize::MAX;

const FAULT: Option<ErrorKind> = Some(ErrorKind::Other);

const ALL: Way = (MOST, 0, MOST, FAULT);

// The first call fails, by an error that is no interruption.
const FAILS: Way = (MOST, 0, 0, FAULT);

const BLOCKS: Way = (MOST, 0, 0, Some(ErrorKind::WouldBlock));

const IS_LATE: Way = (MOST, 0, 0, Some(ErrorKind::TimedOut));

const ENDS: Way = (MOST, 0, 0, Some(ErrorKind::UnexpectedEof));

fn manner(way: Way) -> Manner {
    let (at_once, interrupts, room, fault) = way;
    Manner {
        at_once,
        interrupts,
        room,
        fault,
    }
}

// A batch, how it ends, how often its output was handed on, and what then is written.
type Ran<'a> = (&'a [u8], End, u64, &'a str);

const ACCEPTED: Ran<'static> = (MADE, (None, 0, Some(20)), 1, "10\n");

// The first read fails, or one in the second update.
const NONE_READ: Ran<'static> = (MADE, (READ, 0, None), 0, "");

const HALF_READ: Ran<'static> = (MADE, (READ, 0, Some(10)), 1, "10\n");

// The answer isn't written, or is written and then not handed on.
const UNTOLD: Ran<'static> = (MADE, (WRITE, 0, Some(10)), 0, "");

const TOLD: Ran<'static> = (MADE, (WRITE, 0, Some(10)), 0, "10\n");

const REFUSED: Ran<'static> = (LASTS, (None, 2, None), 2, ANSWERS);

// The first of the refused lines isn't read, none or some of its answer is written, or that is written and then not handed
// on. A line is refused, and counts, once that is written.
const UNREAD: Ran<'static> = (LASTS, (READ, 0, None), 0, "");

const UNWRITTEN: Ran<'static> = (LASTS, (WRITE, 0, None), 0, "");

const FRONT: Ran<'static> = (LASTS, (WRITE, 0, None), 0, "ERROR: no data");

const LONG_FRONT: Ran<'static> = (LASTS, (WRITE, 0, None), 0, "ERROR: no database");

const UNFLUSHED: Ran<'static> = (LASTS, (WRITE, 1, None), 0, ONE_ANSWER);

// How the batch reads, writes and flushes, and what becomes of it.
const RUNS: &[(&str, [Way; 3], Ran<'_>)] = &[
    ("accepted", [ALL, ALL, ALL], ACCEPTED),
    ("refused", [ALL, ALL, ALL], REFUSED),
    (
        "little",
        [(5, 1_000, MOST, FAULT), (7, 0, MOST, FAULT), ALL],
        ACCEPTED,
    ),
    (
        "1,001 tries",
        [(5, 1_001, MOST, FAULT), ALL, ALL],
        NONE_READ,
    ),
    ("in a line", [(5, 0, 85, FAULT), ALL, ALL], HALF_READ),
    ("a read fails once", [FAILS, ALL, ALL], UNREAD),
    ("a read would block once", [BLOCKS, ALL, ALL], UNREAD),
    ("a read times out once", [IS_LATE, ALL, ALL], UNREAD),
    ("a read finds an end once", [ENDS, ALL, ALL], UNREAD),
    (
        "1,000 writes",
        [ALL, (7, 1_000, MOST, FAULT), ALL],
        ACCEPTED,
    ),
    ("1,001 writes", [ALL, (7, 1_001, MOST, FAULT), ALL], UNTOLD),
    ("no write", [ALL, FAILS, ALL], UNTOLD),
    ("a front", [ALL, (7, 0, 14, FAULT), ALL], FRONT),
    ("a longer front", [ALL, (7, 0, 18, FAULT), ALL], LONG_FRONT),
    ("all", [ALL, (7, 0, 19, FAULT), FAILS], UNFLUSHED),
    ("a write fails once", [ALL, FAILS, ALL], UNWRITTEN),
    ("a write would block once", [ALL, BLOCKS, ALL], UNWRITTEN),
    ("nothing is taken", [ALL, (7, 0, 0, None), ALL], UNWRITTEN),
    ("no flush", [ALL, ALL, FAILS], TOLD),
    ("two flushes", [ALL, ALL, (1, 1, MOST, FAULT)], REFUSED),
    (
        "1,000 flushes",
        [ALL, ALL, (1, 1_000, MOST, FAULT)],
        REFUSED,
    ),
    (
        "1,001 tries",
        [ALL, ALL, (1, 1_001, MOST, FAULT)],
        UNFLUSHED,
    ),
    ("a flush fails once", [ALL, ALL, FAILS], UNFLUSHED),
    ("a flush would block once", [ALL, ALL, BLOCKS], UNFLUSHED),
    ("a flush times out once", [ALL, ALL, IS_LATE], UNFLUSHED),
    ("a flush finds an end once", [ALL, ALL, ENDS], UNFLUSHED),
];

#[test]
fn batches_over_streams(rt: HostRuntime) {
    for (name, streams, (input, wanted, flushed, text)) in RUNS {
        let manners = [manner(streams[0]), manner(streams[1]), manner(streams[2])];
        let (end, sink) = run(rt.alloc(), input, manners);
        assert_eq!(&rt; (end, sink.flushed), (*wanted, *flushed), "{name}");
        assert_eq!(&rt; sink.taken.as_slice(), text.as_bytes(), "{name}");
    }
}

// ---- each call of a batch

// A line with its end, what it prints, how many lines are refused up to it, and the last time behind it. The
// last one has no end.
const LINES: &[(&str, &str, u64, Option<u64>)] = &[
    ("last\n", "ERROR: no database\n", 1, None),
    (
        "create --step 10 --start 0 DS:g:GAUGE:100:U:U RRA:LAST:0.5:1:4\r\n",
        "",
        1,
        Some(0),
    ),
    ("update 10:1\n", "", 1, Some(10)),
    ("\n", "", 1, Some(10)),
    ("last\n", "10\n", 1, Some(10)),
    ("first 0\n", "ERROR: usage\n", 2, Some(10)),
    ("update 20:2\n", "", 2, Some(20)),
    ("last", "20\n", 2, Some(20)),
];

// All lines, and what all print.
fn batch_of(alloc: Global) -> Result<(Vec<u8>, Vec<u8>), AllocError> {
    let mut input = Vec::new(alloc);
    let mut text = Vec::new(alloc);
    for (line, told, _, _) in LINES {
        input.extend_from_slice(line.as_bytes())?;
        text.extend_from_slice(told.as_bytes())?;
    }
    Ok((input, text))
}

// How the batch ends where a read fails after so many bytes, and how many bytes are then printed: the lines
// that are whole were run. The last one is whole once the end is read.
fn after_reads(calls: usize) -> (End, usize) {
    let (mut bytes, mut text) = (0usize, 0usize);
    let (mut refused, mut last) = (0, None);
    for (line, told, up_to_it, behind) in LINES {
        let end = if line.ends_with('\n') { 0 } else { 1 };
        bytes = bytes.saturating_add(line.len()).saturating_add(end);
        if calls < bytes {
            return ((READ, refused, last), text);
        }
        text = text.saturating_add(told.len());
        (refused, last) = (*up_to_it, *behind);
    }
    ((None, refused, last), text)
}

// In a line, in a CR LF, behind a line, and behind the last one, which has no end.
#[test]
fn each_read_of_a_batch_fails(rt: HostRuntime) -> Result<(), Fail> {
    let (input, text) = batch_of(rt.alloc())?;
    for calls in 0..input.len().saturating_add(2) {
        let reading = failing_after(calls, Some(ErrorKind::Other));
        let (end, sink) = run(rt.alloc(), &input, [reading, PLAIN, PLAIN]);
        let (wanted, length) = after_reads(calls);
        assert_eq!(&rt; end, wanted, "{calls}");
        assert_front(&rt, &sink.taken, &text, length);
    }
    Ok(())
}

// How the batch ends where a write fails after so many bytes: the line that was being answered has been run,
// and counts as refused only if its fault was written whole.
fn after_writes(calls: usize) -> End {
    let mut text = 0usize;
    let mut before = 0;
    for (_, told, refused, last) in LINES {
        text = text.saturating_add(told.len());
        if calls < text {
            return (WRITE, before, *last);
        }
        before = *refused;
    }
    (None, before, Some(20))
}

#[test]
fn each_write_of_a_batch_fails(rt: HostRuntime) -> Result<(), Fail> {
    let (input, text) = batch_of(rt.alloc())?;
    for calls in 0..text.len().saturating_add(1) {
        for fault in [Some(ErrorKind::BrokenPipe), None] {
            let writing = failing_after(calls, fault);
            let (end, sink) = run(rt.alloc(), &input, [PLAIN, writing, PLAIN]);
            assert_eq!(&rt; end, after_writes(calls), "{calls}");
            assert_front(&rt, &sink.taken, &text, calls);
        }
    }
    Ok(())
}

// How the batch ends where the flush of this number fails, counted from 0 on, and how many bytes were written.
const FLUSHES: [(End, usize); 5] = [
    ((WRITE, 1, None), 19),
    ((WRITE, 1, Some(10)), 22),
    ((WRITE, 2, Some(10)), 35),
    ((WRITE, 2, Some(20)), 38),
    ((None, 2, Some(20)), 38),
];

#[test]
fn each_flush_of_a_batch_fails(rt: HostRuntime) -> Result<(), Fail> {
    let (input, text) = batch_of(rt.alloc())?;
    for (calls, (wanted, length)) in FLUSHES.iter().enumerate() {
        let flushing = failing_after(calls, Some(ErrorKind::Other));
        let (end, sink) = run(rt.alloc(), &input, [PLAIN, PLAIN, flushing]);
        assert_eq!(&rt; end, *wanted, "{calls}");
        assert_front(&rt, &sink.taken, &text, *length);
    }
    Ok(())
}

// ---- long lines

// `last`, spaces up to a length, and what comes behind them.
fn padded(alloc: Global, length: usize, behind: &str) -> Result<Vec<u8>, AllocError> {
    let mut line = Vec::from_slice(alloc, b"last")?;
    line.resize(length, b' ')?;
    line.extend_from_slice(behind.as_bytes())?;
    Ok(line)
}

// The length of the first line, what comes behind it, how many bytes a read gives, what is printed,
// and how many lines are refused.
const LONG_LINES: &[(usize, &str, usize, &str, u64)] = &[
    (65_536, "\r\nlast\n", MOST, ANSWERS, 2),
    (
        65_537,
        "\r\nlast\n",
        MOST,
        "ERROR: usage\nERROR: no database\n",
        2,
    ),
    (65_536, "", MOST, ONE_ANSWER, 1),
    (65_536, "\r", MOST, "ERROR: usage\n", 1),
    (3_000, "\nlast\n", 1, ANSWERS, 2),
];

#[test]
fn lines_as_long_as_can_be(rt: HostRuntime) -> Result<(), Fail> {
    for (length, behind, at_once, text, refused) in LONG_LINES {
        let line = padded(rt.alloc(), *length, behind)?;
        let reading = manner((*at_once, 0, MOST, FAULT));
        let (end, sink) = run(rt.alloc(), &line, [reading, PLAIN, PLAIN]);
        assert_eq!(&rt; end, (None, *refused, None), "{length} {behind:?}");
        assert_eq!(&rt;
            sink.taken.as_slice(),
            text.as_bytes(),
            "{length} {behind:?}"
        );
    }
    Ok(())
}
