//! Single commands over a storage in memory that may fail.
use super::storage::{Ending, InMemory};
use super::{Step, assert_ended, run};
use crate::shared::assert_bytes;
use rrd_store::{Access, TaskFault, run_file_command};
use rrd_tool::{Fault, Unobserved};
use std::alloc::Global;
use std::process::Abort;
use std::test::Fail;
use test_data::streams::{Manner, PLAIN, Taker};
use test_data::words_of;
use test_data::worked_files::{new_file, sampled_file};

pub(super) const CREATE: &str = "create --step 10 --start 0 DS:g:GAUGE:100:U:U RRA:LAST:0.5:1:4";

// Runs the words of the line at time 1,000. A fault leaves the bytes as they were.
pub(super) fn assert_step(
    rt: &impl Abort,
    alloc: Global,
    storage: &mut InMemory,
    step: &Step<'_>,
) -> Result<(), Fail> {
    let (line, fault, _, length) = step;
    let before = storage.bytes.clone()?;
    let (end, out) = run(alloc, storage, line, 1_000)?;
    assert_ended(rt, alloc, end, &out, &storage.bytes, step)?;
    let expected = storage.expected.take().unwrap_or(*length);
    assert!(rt; !fault.is_empty() || expected == *length, "{line}");
    let kept = fault.is_empty() || storage.bytes.as_slice() == before.as_slice();
    assert!(rt; kept, "{line}");
    Ok(())
}

// From nothing to what all changes leave, which is then taken back.
pub(super) const OVER_NOTHING: &[Step<'_>] = &[
    // A command finds no file, if its words can be read.
    ("update 20", "unreadable sample 1", "", 0),
    ("update 20:1", "cannot open", "", 0),
    ("last", "cannot open", "", 0),
    ("revert", "cannot open", "", 0),
    (CREATE, "", "", 224),
    ("update 10:1", "", "", 309),
    ("last", "", "10\n", 309),
    (
        "fetch LAST -s 0 -e 19",
        "",
        "time: g\n10: 1.000000\n20: nan\n",
        309,
    ),
    // What is refused writes nothing.
    ("nothing", "usage", "", 309),
    ("batch", "usage", "", 309),
    ("last 1", "usage", "", 309),
    ("revert --help", "usage", "", 309),
    ("update 20", "unreadable sample 1", "", 309),
    ("update", "no sample", "", 309),
    ("update 5:1", "not later than 10", "", 309),
    ("tune", "nothing to tune", "", 309),
    ("resize 1 GROW 1", "no such archive", "", 309),
    ("fetch MIN", "no archive for this function", "", 309),
    ("create", "no data source", "", 309),
    // An entry of a tune has 82 bytes; two cells more and the entry of a resize 103; an entry of an
    // update that finishes six rows 165.
    ("tune --minimum g:5", "", "", 391),
    ("resize 0 GROW 2", "", "", 494),
    ("update N:1", "", "", 659),
    ("last", "", "1000\n", 659),
    ("revert", "", "", 494),
    ("revert", "", "", 391),
    ("revert", "", "", 309),
    ("revert", "", "", 224),
    ("revert", "nothing to revert", "", 224),
];

#[test]
fn commands_over_one_place(rt: HostRuntime) -> Result<(), Fail> {
    let alloc = rt.alloc();
    let mut storage = InMemory::missing(alloc);
    for step in OVER_NOTHING {
        assert_step(&rt, alloc, &mut storage, step)?;
    }
    assert_bytes(&rt, &storage.bytes, &new_file(alloc)?, "a new file");
    Ok(())
}

// Words come before the storage.
const OVER_OTHER_BYTES: &[Step<'_>] = &[
    ("nothing", "usage", "", 11),
    ("update 20", "unreadable sample 1", "", 11),
    ("create --step 0", "bad step", "", 11),
    ("update", "file: not ours", "", 11),
    ("last", "file: not ours", "", 11),
];

#[test]
fn commands_over_other_bytes(rt: HostRuntime) -> Result<(), Fail> {
    let alloc = rt.alloc();
    let mut storage = InMemory::with(alloc, b"other bytes")?;
    for step in OVER_OTHER_BYTES {
        assert_step(&rt, alloc, &mut storage, step)?;
    }
    // A create doesn't ask what is there.
    storage.opens = false;
    assert_step(&rt, alloc, &mut storage, &("last", "cannot open", "", 11))?;
    assert_step(&rt, alloc, &mut storage, &(CREATE, "", "", 224))?;
    assert_bytes(&rt, &storage.bytes, &new_file(alloc)?, "a new file");
    Ok(())
}

#[test]
fn a_place_that_is_not_written(rt: HostRuntime) -> Result<(), Fail> {
    let alloc = rt.alloc();
    let refused = ("update 10:1", "cannot write", "", 224);
    let mut storage = InMemory::with(alloc, &new_file(alloc)?)?;
    for (begins, ending, room) in [
        (false, Ending::Whole, usize::MAX),
        (true, Ending::OldStays, usize::MAX),
        (true, Ending::Whole, 308),
    ] {
        storage.begins = begins;
        storage.ending = ending;
        storage.room = room;
        assert_step(&rt, alloc, &mut storage, &refused)?;
    }
    Ok(())
}

// The last call of a change fails and the new bytes are there: the next command runs over them.
#[test]
fn a_place_that_is_written_by_a_call_that_fails(rt: HostRuntime) -> Result<(), Fail> {
    let alloc = rt.alloc();
    let mut storage = InMemory::with(alloc, &new_file(alloc)?)?;
    storage.ending = Ending::NewStays;
    let (end, _) = run(alloc, &mut storage, "update 10:1", 0)?;
    assert_eq!(&rt; end, Some(TaskFault::CannotWrite));
    assert_bytes(&rt, &storage.bytes, &sampled_file(alloc)?, "a sampled file");
    assert_step(&rt, alloc, &mut storage, &("last", "", "10\n", 309))
}

// What each command opens its storage for; a create doesn't open it.
const OPENED: &[(&str, Option<Access>)] = &[
    (CREATE, None),
    ("update 10:1", Some(Access::ReadWrite)),
    ("tune --minimum g:5", Some(Access::ReadWrite)),
    ("resize 0 GROW 2", Some(Access::ReadWrite)),
    ("revert", Some(Access::ReadWrite)),
    ("fetch LAST -s 0 -e 19", Some(Access::Read)),
    ("first", Some(Access::Read)),
    ("last", Some(Access::Read)),
    ("lastupdate", Some(Access::Read)),
    ("info", Some(Access::Read)),
];

#[test]
fn what_a_place_is_opened_for(rt: HostRuntime) -> Result<(), Fail> {
    let alloc = rt.alloc();
    let mut storage = InMemory::missing(alloc);
    for (line, access) in OPENED {
        let (end, _) = run(alloc, &mut storage, line, 0)?;
        assert_eq!(&rt; end, None, "{line}");
        assert_eq!(&rt; storage.access.take(), *access, "{line}");
    }
    Ok(())
}

// The write of a command breaks off after so many bytes.
fn assert_breaks_off(
    rt: &impl Abort,
    alloc: Global,
    storage: &mut InMemory,
    line: &str,
    room: usize,
) -> Result<(), Fail> {
    storage.room = room;
    let (end, _) = run(alloc, storage, line, 0)?;
    assert_eq!(rt; end, Some(TaskFault::CannotWrite), "{line} {room}");
    assert!(rt; storage.expected.take() > Some(room), "{line} {room}");
    Ok(())
}

// Wherever the write of the first file breaks off, a front of it is there.
#[test]
fn a_write_over_no_database_that_breaks_off(rt: HostRuntime) -> Result<(), Fail> {
    let alloc = rt.alloc();
    let new = new_file(alloc)?;
    for room in 0..new.len() {
        let front = new.get(..room).ok_or("short")?;
        for mut storage in [InMemory::missing(alloc), InMemory::with(alloc, b"")?] {
            assert_breaks_off(&rt, alloc, &mut storage, CREATE, room)?;
            assert_bytes(&rt, &storage.bytes, front, "a front");
        }
    }
    Ok(())
}

// Wherever a write over a database breaks off, the database stays.
#[test]
fn a_write_over_a_database_that_breaks_off(rt: HostRuntime) -> Result<(), Fail> {
    let alloc = rt.alloc();
    let new = new_file(alloc)?;
    for room in 0..sampled_file(alloc)?.len() {
        let mut storage = InMemory::with(alloc, &new)?;
        assert_breaks_off(&rt, alloc, &mut storage, "update 10:1", room)?;
        assert_bytes(&rt, &storage.bytes, &new, "a new file");
        assert_step(&rt, alloc, &mut storage, &("last", "", "0\n", 224))?;
    }
    Ok(())
}

#[test]
fn output_that_fails(rt: HostRuntime) -> Result<(), Fail> {
    let alloc = rt.alloc();
    let mut storage = InMemory::with(alloc, &new_file(alloc)?)?;
    let words = words_of(alloc, "last")?;
    for (written, flushed) in [(1, usize::MAX), (usize::MAX, 0)] {
        let writing = Manner {
            room: written,
            ..PLAIN
        };
        let flushing = Manner {
            room: flushed,
            ..PLAIN
        };
        let mut out = Taker::new(alloc, writing, flushing);
        let end = run_file_command(alloc, &words, 0, &mut storage, &mut out, &Unobserved);
        assert_eq!(&rt;
            end.err(),
            Some(TaskFault::Command(Fault::Output)),
            "{written}"
        );
    }
    assert_bytes(&rt, &storage.bytes, &new_file(alloc)?, "a new file");
    Ok(())
}
