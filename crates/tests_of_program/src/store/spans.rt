//! The spans of a file that a run says it changes: an update changes what is before the cells, the slots of the rows that
//! ended, and the journal.
use super::run;
use super::storage::{Ending, InMemory};
use crate::shared::assert_bytes;
use rrd_store::Session;
use std::alloc::Global;
use std::process::Abort;
use std::test::Fail;
use test_data::words_of;
use test_data::worked_files::{in_first_version, sampled_file};

// A file of 193 bytes before the cells, 64 and 48 bytes of cells, and a journal of two changes. The rows of the second
// archive have two steps.
const CREATE: &str =
    "create --step 10 --start 0 --journal 2 DS:a:GAUGE:100:U:U RRA:LAST:0.5:1:4 RRA:AVERAGE:0.5:2:3";

// Where the cells begin, and where they end.
const CELLS: (usize, usize) = (193, 305);

// Updates, and the spans of cells that they change. A row of number n, counted from time 0 on, is in the slot of n modulo
// the number of rows; the slots of the first archive begin at 193, those of the second at 257.
const UPDATES: &[(&str, &[(usize, usize)])] = &[
    // No row ends.
    ("update 15:2", &[]),
    // The first archive ends its row 2, and the second its row 1.
    ("update 20:3", &[(225, 241), (273, 289)]),
    // Rows 3 and 4: the last slot and the first. The second ends its row 2.
    ("update 30:4 40:5", &[(193, 209), (241, 257), (289, 305)]),
    // Rows 5 to 8: all slots, up to that of the newest row and after it. Rows 3 and 4 of the second: its first two.
    ("update 50:6 80:7", &[(193, 209), (209, 257), (257, 289)]),
    // More rows than there are: the newest are in the third slot and in the first.
    (
        "update 300:8",
        &[(193, 241), (241, 257), (257, 273), (273, 305)],
    ),
    ("update 310:9", &[(241, 257)]),
];

// Runs a line in a session, and tells whether it was written.
fn run_in(alloc: Global, session: &mut Session<InMemory>, line: &str) -> Result<bool, Fail> {
    let mut out = Vec::new(alloc);
    let end = session.run(alloc, &words_of(alloc, line)?, 0, &mut out);
    Ok(end.is_ok() && session.is_written())
}

// The spans of the last change, if it came with spans.
fn spans_of(session: &Session<InMemory>) -> Option<&[(usize, usize)]> {
    session.storage().spans.as_deref()
}

// Runs a line alone, and tells whether it was written.
fn run_alone(alloc: Global, storage: &mut InMemory, line: &str) -> Result<bool, Fail> {
    let (end, _) = run(alloc, storage, line, 0)?;
    Ok(end.is_none())
}

// Checks the spans of an update: these cells, what is before the cells, and the journal.
fn assert_spans(rt: &impl Abort, storage: &InMemory, line: &str, cells: &[(usize, usize)]) {
    let spans = storage.spans.as_deref().unwrap_or(&[]);
    let others = [(0, CELLS.0), (CELLS.1, storage.bytes.len())];
    assert!(rt; storage.agrees, "{line}");
    assert_eq!(rt;
        spans.len(),
        cells.len().saturating_add(2),
        "{line}: {spans:?}"
    );
    assert!(rt; spans.starts_with(cells), "{line}: {spans:?}");
    for span in others {
        assert!(rt; spans.contains(&span), "{line}: {spans:?}");
    }
}

// Changes of other kinds.
const OTHERS: [&str; 4] = [
    "tune --heartbeat a:90",
    "resize 0 GROW 2",
    "revert",
    "revert",
];

// Checks the spans of a change of another kind: the blocks of 256 bytes that differ.
fn assert_blocks(rt: &impl Abort, storage: &InMemory, line: &str) {
    let end = storage.bytes.len();
    assert!(rt; storage.agrees && storage.spans.is_some(), "{line}");
    for &(start, stop) in storage.spans.as_deref().unwrap_or(&[]) {
        let is_block = start % 256 == 0 && (stop % 256 == 0 || stop == end);
        assert!(rt; is_block, "{line}: {start} to {stop}");
    }
}

#[test]
fn updates_name_the_slots_that_they_change(rt: HostRuntime) -> Result<(), Fail> {
    let alloc = rt.alloc();
    let mut session = Session::new(InMemory::missing(alloc));
    assert!(&rt; run_in(alloc, &mut session, CREATE)?, "{CREATE}");
    // Of the first change nobody knows what was there.
    assert!(&rt; spans_of(&session).is_none());
    assert!(&rt; run_in(alloc, &mut session, "update 10:1")?);
    assert_spans(&rt, session.storage(), "update 10:1", &[(209, 225)]);
    for (line, cells) in UPDATES {
        assert!(&rt; run_in(alloc, &mut session, line)?, "{line}");
        assert_spans(&rt, session.storage(), line, cells);
    }
    Ok(())
}

// A change that is the only one of its run knows the bytes that were read for it.
#[test]
fn a_single_change_names_what_it_changes(rt: HostRuntime) -> Result<(), Fail> {
    let alloc = rt.alloc();
    let mut storage = InMemory::missing(alloc);
    storage.gives_bytes = true;
    assert!(&rt; run_alone(alloc, &mut storage, CREATE)?, "{CREATE}");
    assert!(&rt; run_alone(alloc, &mut storage, "update 10:1")?);
    for (line, cells) in UPDATES {
        assert!(&rt; run_alone(alloc, &mut storage, line)?, "{line}");
        assert_spans(&rt, &storage, line, cells);
    }
    for line in OTHERS {
        assert!(&rt; run_alone(alloc, &mut storage, line)?, "{line}");
        assert_blocks(&rt, &storage, line);
    }
    Ok(())
}

// An update writes the whole file.
fn assert_written_whole(
    rt: &impl Abort,
    alloc: Global,
    storage: &mut InMemory,
) -> Result<(), Fail> {
    assert!(rt; run_alone(alloc, storage, "update 20:1")?);
    assert!(rt; storage.spans.is_none());
    Ok(())
}

// A file of the first version is written anew: its header is shorter. (So is one whose bytes are not at hand.)
#[test]
fn an_update_of_the_first_version_writes_all(rt: HostRuntime) -> Result<(), Fail> {
    let alloc = rt.alloc();
    let mut first = InMemory::with(alloc, &in_first_version(alloc, &sampled_file(alloc)?)?)?;
    first.gives_bytes = true;
    let mut newest = InMemory::with(alloc, &sampled_file(alloc)?)?;
    assert_written_whole(&rt, alloc, &mut first)?;
    assert_written_whole(&rt, alloc, &mut newest)?;
    assert_bytes(&rt, &first.bytes, &newest.bytes, "the newest version");
    Ok(())
}

// A change of another kind names the blocks of 256 bytes that differ.
#[test]
fn other_changes_name_the_blocks_that_differ(rt: HostRuntime) -> Result<(), Fail> {
    let alloc = rt.alloc();
    let mut session = Session::new(InMemory::missing(alloc));
    for line in [CREATE, "update 10:1"] {
        assert!(&rt; run_in(alloc, &mut session, line)?, "{line}");
    }
    for line in OTHERS {
        assert!(&rt; run_in(alloc, &mut session, line)?, "{line}");
        assert_blocks(&rt, session.storage(), line);
    }
    Ok(())
}

// After a write that failed nobody knows what is there: the next change comes without spans.
#[test]
fn a_failed_write_forgets_the_bytes(rt: HostRuntime) -> Result<(), Fail> {
    let alloc = rt.alloc();
    for ending in [Ending::OldStays, Ending::NewStays] {
        let mut storage = InMemory::missing(alloc);
        storage.ending = ending;
        storage.ending_at = Some(3);
        let mut session = Session::new(storage);
        for (line, is_written, has_spans) in [
            (CREATE, true, false),
            ("update 10:1", true, true),
            ("update 20:1", true, true),
            ("update 30:1", false, true),
            ("update 40:1", true, false),
            ("update 50:1", true, true),
        ] {
            assert_eq!(&rt; run_in(alloc, &mut session, line)?, is_written, "{line}");
            assert_eq!(&rt; spans_of(&session).is_some(), has_spans, "{line}");
            assert!(&rt; session.storage().agrees, "{line}");
        }
    }
    Ok(())
}
