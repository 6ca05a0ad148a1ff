//! What is said of the refusals of the table, and of refused lines.
use super::said;
use super::table::{
    AHEAD, COUNTS, CREATES, FAR_AHEAD, FOUR_FUNCTIONS, FURTHER, GAUGE_AND_COUNTER, LATER, MANY,
    NINE_SOURCES, OF_RRDTOOL, OPTIONS, READINGS, TUNES, UNREADABLE, UPDATES, WRITTEN_BEFORE,
};
use rrd_base::{Database, Refusal};
use rrd_explain::{Explainer, Explanation, explain_words};
use rrd_tool::{Fault, Outcome, execute, read_command, run_batch};
use std::alloc::Global;
use std::process::Abort;
use std::test::Fail;
use test_data::words_of;

/// The time at which the commands run.
const NOW: u64 = 1_000_000;

// Creates the database of a line of words.
fn created(alloc: Global, line: &str) -> Result<Database, Fail> {
    let command = read_command(alloc, &words_of(alloc, line)?, NOW)?;
    match execute(alloc, None, command, &mut Vec::new(alloc)) {
        Outcome::Changed(database) => Ok(database),
        _ => Err(Fail::from("not created")),
    }
}

// Returns the fault of a line of words, and the database on which it was refused, if it came to that.
fn refused(alloc: Global, holder: &str, line: &str) -> Result<(Fault, Option<Database>), Fail> {
    let command = match read_command(alloc, &words_of(alloc, line)?, NOW) {
        Ok(command) => command,
        Err(fault) => return Ok((Fault::Line(fault), None)),
    };
    let held = Some(created(alloc, holder)?);
    match execute(alloc, held, command, &mut Vec::new(alloc)) {
        Outcome::Refused { database, fault } => Ok((fault, database)),
        _ => Err(Fail::from("not refused")),
    }
}

// The rows of the table, each with the words that make their database.
pub(super) const TABLE: [(&str, &str); 13] = [
    (GAUGE_AND_COUNTER, UNREADABLE),
    (GAUGE_AND_COUNTER, OF_RRDTOOL),
    (GAUGE_AND_COUNTER, OPTIONS),
    (GAUGE_AND_COUNTER, COUNTS),
    (GAUGE_AND_COUNTER, CREATES),
    (GAUGE_AND_COUNTER, UPDATES),
    (GAUGE_AND_COUNTER, TUNES),
    (GAUGE_AND_COUNTER, READINGS),
    (GAUGE_AND_COUNTER, WRITTEN_BEFORE),
    (GAUGE_AND_COUNTER, FURTHER),
    (NINE_SOURCES, MANY),
    (FAR_AHEAD, AHEAD),
    (FOUR_FUNCTIONS, LATER),
];

// Returns the fault of a line of words.
pub(super) fn fault_of(alloc: Global, holder: &str, line: &str) -> Result<Fault, Fail> {
    let (fault, _) = refused(alloc, holder, line)?;
    Ok(fault)
}

// Explains the refusal of a line of words.
fn explained(alloc: Global, holder: &str, line: &str) -> Result<Option<Explanation>, Fail> {
    let (fault, database) = refused(alloc, holder, line)?;
    let texts: Vec<&str> = line.split(' ').collect(alloc)?;
    Ok(explain_words(alloc, &texts, database.as_ref(), fault, NOW))
}

// Explains each of these refusals by a database that is made by the words `holder`.
fn assert_said(rt: &impl Abort, alloc: Global, holder: &str, rows: &str) -> Result<(), Fail> {
    for row in rows.lines() {
        let (line, wanted) = row.split_once(" => ").ok_or("no row")?;
        let explanation = explained(alloc, holder, line)?;
        assert_eq!(rt; said(&explanation), wanted, "{line}");
        assert!(rt; !wanted.is_empty(), "{line}");
    }
    Ok(())
}

#[test]
fn what_is_said_of_refusals(rt: HostRuntime) -> Result<(), Fail> {
    for (holder, rows) in TABLE {
        assert_said(&rt, rt.alloc(), holder, rows)?;
    }
    Ok(())
}

// The times without a clock: of a clock that fails, and of numbers in C.
const WITHOUT_A_CLOCK: [u64; 2] = [0, u64::MAX];

#[test]
fn after_the_last_time(rt: HostRuntime) -> Result<(), Fail> {
    let alloc = rt.alloc();
    let holder = "create --start 9999999999 DS:a:GAUGE:100:U:U RRA:LAST:0.5:1:1";
    let database = created(alloc, holder)?;
    let words = ["update", "9999999999:1"];
    let last = 9_999_999_999;
    let fault = Fault::Refused(Refusal::NotLater { last });
    for now in WITHOUT_A_CLOCK {
        let explanation = explain_words(alloc, &words, Some(&database), fault, now);
        let wanted = "9999999999 is not later than the last update, 9999999999";
        assert_eq!(&rt; said(&explanation), wanted, "{now}");
    }
    Ok(())
}

// Lines of a batch.
const LINES: &str =
    "info\ncreate --step 10 --start 0 DS:a:GAUGE:100:U:U RRA:LAST:0.5:1:4\nupdate 10:1:2\nlast\n\tupdate  20:x \ntune -r a:b\nupdate 30:1:2\nlsat\nupdate \u{1b}\nupdate 0:1\nbatch f\nfetch\n";

// The numbers of the lines, and what is said of them.
const SAID_OF_LINES: [(u64, &str); 9] = [
    (
        1,
        "there is none yet: begin with a create, or check the path of FILE",
    ),
    (3, "sample 1 has 2 values, 1 is wanted: a"),
    (
        5,
        "its value 1 is 'x'; a value is a number, such as 21.5 or -3, or U for unknown",
    ),
    (7, "sample 1 has 2 values, 1 is wanted: b"),
    (8, "there is no command lsat; did you mean last?"),
    (
        9,
        "the line has over 65536 bytes, or a byte that is neither tab nor printable ASCII",
    ),
    (
        10,
        "0 is not later than the last update, 0; the next sample may be at 1 or later",
    ),
    (
        11,
        "batch is no command here: the program runs it, as rrdi batch FILE",
    ),
    (12, "give a function: LAST"),
];

#[test]
fn refused_lines(rt: HostRuntime) -> Result<(), Fail> {
    let alloc = rt.alloc();
    let explainer = Explainer::of_lines(alloc, NOW);
    let mut out = Vec::new(alloc);
    let mut lines = LINES.as_bytes();
    let end = run_batch(alloc, None, NOW, 0, &mut lines, &mut out, &explainer);
    assert_eq!(&rt; (end.refused, end.stream), (9, None));
    let explained = explainer.into_explained();
    assert_eq!(&rt; explained.len(), SAID_OF_LINES.len());
    for (said, (line, wanted)) in explained.iter().zip(SAID_OF_LINES) {
        assert_eq!(&rt; said.line, line, "{wanted}");
        assert_eq!(&rt; said.explanation.as_bytes(), wanted.as_bytes(), "{wanted}");
    }
    Ok(())
}
