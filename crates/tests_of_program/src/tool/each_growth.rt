//! Calls that take memory, each made again where it found none: what it left is as it was before, and the second one
//! does all. `tests/program/test_growths_in_tests.py` has each growth refused in turn; otherwise the first one does all.
use crate::shared::{assert_bytes, parts_of};
use rrd_base::{Database, Refusal};
use rrd_file::{FileFault, decode};
use rrd_spec::List;
use rrd_tool::{Fault, LineFault, Words, execute, read_command};
use std::alloc::Global;
use std::process::Abort;
use std::test::Fail;
use test_data::plans::made;
use test_data::worked_files::{ARCHIVES_CHANGED, FOUR_CHANGES, SAMPLED, file_of};
use test_data::{command_of, words_of};

#[test]
fn lists_grow(rt: HostRuntime) -> Result<(), Fail> {
    let mut list = List::new(rt.alloc());
    for item in 0..40u64 {
        if list.push(item).is_err() {
            assert_eq!(&rt; list.len() as u64, item, "{item}");
            list.push(item)?;
        }
    }
    assert_eq!(&rt; list.len(), 40);
    assert_eq!(&rt; list.as_slice().last().copied(), Some(39));
    Ok(())
}

#[test]
fn words_grow(rt: HostRuntime) -> Result<(), Fail> {
    let mut words = Words::new(rt.alloc());
    for count in 0..40usize {
        if words.push("word").is_err() {
            assert_eq!(&rt; words.len(), count, "{count}");
            words.push("word")?;
        }
    }
    assert_eq!(&rt; words.len(), 40);
    Ok(())
}

// ---- files

fn assert_is_read(rt: &impl Abort, alloc: Global, plan: &str) -> Result<(), Fail> {
    let bytes = file_of(alloc, &made(alloc, plan)?)?;
    let end = match decode(alloc, bytes.as_slice()) {
        Err(FileFault::OutOfMemory) => decode(alloc, bytes.as_slice()),
        end => end,
    };
    let database = match end {
        Ok(database) => database,
        Err(fault) => panic!(rt; "{fault}"),
    };
    assert_bytes(rt, &file_of(alloc, &database)?, &bytes, plan);
    Ok(())
}

#[test]
fn a_file_is_read(rt: HostRuntime) -> Result<(), Fail> {
    assert_is_read(&rt, rt.alloc(), SAMPLED)
}

#[test]
fn a_file_with_entries_is_read(rt: HostRuntime) -> Result<(), Fail> {
    assert_is_read(&rt, rt.alloc(), FOUR_CHANGES)?;
    assert_is_read(&rt, rt.alloc(), ARCHIVES_CHANGED)
}

// ---- commands

const CREATE: &str = "create --step 10 --start 0 DS:g:GAUGE:100:U:U RRA:LAST:0.5:1:4";

const LINES: &[&str] = &[
    CREATE,
    "update -t s01 150:3 160:5",
    "tune -i s01:-6 -r s01:other",
    "tune RRA:LAST:0.5:1:4",
    "resize 0 GROW 2",
    "fetch AVERAGE -s 0 -e 150",
    "first --rraindex 1",
    "last",
    "lastupdate",
    "info",
    "revert",
];

// Words are read, or read again where there was no memory.
#[test]
fn words_are_read(rt: HostRuntime) -> Result<(), Fail> {
    let alloc = rt.alloc();
    for line in LINES {
        let words = words_of(alloc, line)?;
        if let Err(fault) = read_command(alloc, &words, 0) {
            assert_eq!(&rt; fault, LineFault::OutOfMemory, "{line}");
            assert!(&rt; read_command(alloc, &words, 0).is_ok(), "{line}");
        }
    }
    Ok(())
}

// Words that are no command are refused so, or once they are read again.
#[test]
fn other_words_are_read(rt: HostRuntime) -> Result<(), Fail> {
    let alloc = rt.alloc();
    for line in ["-x", "last -x", "nothing"] {
        let words = words_of(alloc, line)?;
        let mut fault = read_command(alloc, &words, 0).err();
        if fault == Some(LineFault::OutOfMemory) {
            fault = read_command(alloc, &words, 0).err();
        }
        assert_eq!(&rt; fault, Some(LineFault::Usage), "{line}");
    }
    Ok(())
}

// A command is done, and changes the database.
fn assert_done(rt: &impl Abort, alloc: Global, database: Database, line: &str) -> Result<(), Fail> {
    let mut out = Vec::new(alloc);
    let end = parts_of(execute(alloc, Some(database), command_of(alloc, line)?, &mut out));
    assert!(rt; end.fault.is_none() && end.changed, "{line}");
    Ok(())
}

// A command is done, or leaves the database as it was where there was no memory, and is done then.
fn assert_changes(rt: &impl Abort, alloc: Global, line: &str) -> Result<(), Fail> {
    let database = made(alloc, FOUR_CHANGES)?;
    let before = file_of(alloc, &database)?;
    let mut out = Vec::new(alloc);
    let end = parts_of(execute(alloc, Some(database), command_of(alloc, line)?, &mut out));
    let database = end.database.ok_or("no database")?;
    let Some(fault) = end.fault else {
        return Ok(());
    };
    assert_eq!(rt; fault, Fault::Refused(Refusal::OutOfMemory), "{line}");
    assert_eq!(rt;
        file_of(alloc, &database)?.as_slice(),
        before.as_slice(),
        "{line}"
    );
    assert_done(rt, alloc, database, line)
}

#[test]
fn a_create_replaces(rt: HostRuntime) -> Result<(), Fail> {
    assert_changes(&rt, rt.alloc(), CREATE)
}

#[test]
fn a_create_makes(rt: HostRuntime) -> Result<(), Fail> {
    let alloc = rt.alloc();
    let mut out = Vec::new(alloc);
    let mut end = parts_of(execute(alloc, None, command_of(alloc, CREATE)?, &mut out));
    if end.fault == Some(Fault::Refused(Refusal::OutOfMemory)) {
        assert!(&rt; end.database.is_none() && !end.changed);
        end = parts_of(execute(alloc, None, command_of(alloc, CREATE)?, &mut out));
    }
    assert_eq!(&rt; (end.fault, end.changed), (None, true));
    Ok(())
}

#[test]
fn an_update_is_done(rt: HostRuntime) -> Result<(), Fail> {
    assert_changes(&rt, rt.alloc(), "update 150:3:4 160:5:6 200:7:8")
}

#[test]
fn an_archive_grows(rt: HostRuntime) -> Result<(), Fail> {
    assert_changes(&rt, rt.alloc(), "resize 0 GROW 3")
}

#[test]
fn an_archive_shrinks(rt: HostRuntime) -> Result<(), Fail> {
    assert_changes(&rt, rt.alloc(), "resize 1 SHRINK 2")
}

#[test]
fn an_archive_is_added(rt: HostRuntime) -> Result<(), Fail> {
    assert_changes(&rt, rt.alloc(), "tune RRA:MAX:0.5:1:4")
}
