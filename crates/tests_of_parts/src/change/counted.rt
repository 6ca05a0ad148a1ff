//! How many writes, bytes and syncs each kind of change takes.
use super::disk::{Disk, NO_FAULTS};
use super::states::{State, states};
use rrd_change::{Span, Syncs, change, create, mark, replace};
use std::alloc::Global;
use std::process::Abort;
use std::test::Fail;

// Where databases of 5,000 bytes, which are more than a page, differ: in the first bytes, and in three places.
const SPANS: &[Span] = &[
    Span { start: 4, end: 16 },
    Span { start: 20, end: 28 },
    Span {
        start: 30,
        end: 130,
    },
    Span {
        start: 4_999,
        end: 5_000,
    },
];

// The bytes in three places; and of a change in a log: its head, and sixteen bytes before those of each span.
const PLACES: usize = 8 + 100 + 1;

const CHANGE: usize = 48 + 4 * 16 + 12 + PLACES;

// A cut mark, the log, its mark, three places, the first bytes under a cut mark, the length, and the mark.
const REPLACED: usize = 4 + 80 + CHANGE + 16 + PLACES + 16 + 4;

// The first change of an open file is the log and its mark, and each further one is one write. The sixteenth brings all
// into place: three writes, since all changes have the same places.
fn assert_opened(rt: &impl Abort, alloc: Global, state: &State, syncs: Syncs) -> Result<(), Fail> {
    let each = if syncs == Syncs::Ordered { 1 } else { 0 };
    let mut disk = Disk::new(alloc, &state.bytes, NO_FAULTS)?;
    mark(&mut disk, syncs)?;
    assert_eq!(rt; disk.take_counts(), [1, 4, each]);
    let mut log = None;
    for number in 0..40 {
        log = change(
            alloc,
            &mut disk,
            log,
            &state.base(),
            &state.bytes,
            SPANS,
            syncs,
        )?;
        let [writes, bytes, made] = disk.take_counts();
        if number % 16 == 0 {
            assert_eq!(rt;
                [writes, bytes, made],
                [2, 80 + CHANGE + 16, 2 * each],
                "{number}"
            );
        } else if number % 16 < 15 {
            assert_eq!(rt; [writes, bytes, made], [1, CHANGE, each], "{number}");
        } else {
            assert!(rt; log.is_none(), "{number}");
            assert_eq!(rt;
                [writes, bytes, made],
                [6, CHANGE + PLACES + 16, 4 * each],
                "{number}"
            );
        }
    }
    Ok(())
}

// The length, the bytes from the seventeenth on in pieces of 65,536, and the first sixteen.
const CREATIONS: [(usize, usize); 4] = [(16, 2), (17, 3), (65_552, 3), (65_553, 4)];

#[test]
fn counts_of_changes(rt: HostRuntime) -> Result<(), Fail> {
    let alloc = rt.alloc();
    for state in states(alloc, &[5_000])? {
        for (syncs, made) in [(Syncs::Never, 0), (Syncs::Ordered, 6)] {
            let mut disk = Disk::new(alloc, &state.bytes, NO_FAULTS)?;
            replace(alloc, &mut disk, &state.base(), &state.bytes, SPANS, syncs)?;
            assert_eq!(&rt; disk.take_counts(), [9, REPLACED, made]);
            assert_opened(&rt, alloc, &state, syncs)?;
        }
    }
    for state in states(alloc, &[4_096])? {
        let mut disk = Disk::new(alloc, &state.bytes, NO_FAULTS)?;
        replace(
            alloc,
            &mut disk,
            &state.base(),
            &state.bytes,
            &[],
            Syncs::Never,
        )?;
        assert_eq!(&rt; disk.take_counts(), [1, 4_096, 0]);
    }
    for (length, writes) in CREATIONS {
        for state in states(alloc, &[length])? {
            let mut disk = Disk::new(alloc, &[], NO_FAULTS)?;
            create(&mut disk, &state.bytes, Syncs::Ordered)?;
            assert_eq!(&rt; disk.take_counts(), [writes, length, 3], "{length}");
        }
    }
    Ok(())
}

// The numbers of writes of the changes of an open file whose database grows from 5,000 bytes on by so many at each change.
fn writes_of_growth(alloc: Global, growth: usize, changes: usize) -> Result<Vec<usize>, Fail> {
    let mut lengths = Vec::new(alloc);
    let mut length: usize = 5_000;
    for _ in 0..changes {
        lengths.push(length)?;
        length = length.saturating_add(growth);
    }
    lengths.push(length)?;
    let states = states(alloc, &lengths)?;
    let mut old = states.first().ok_or("no database")?;
    let mut disk = Disk::new(alloc, &old.bytes, NO_FAULTS)?;
    mark(&mut disk, Syncs::Never)?;
    disk.take_counts();
    let mut writes = Vec::new(alloc);
    let mut log = None;
    for new in states.iter().skip(1) {
        let (base, bytes, spans) = (old.base(), &new.bytes, &new.spans);
        log = change(alloc, &mut disk, log, &base, bytes, spans, Syncs::Never)?;
        let [count, _, _] = disk.take_counts();
        writes.push(count)?;
        old = new;
    }
    Ok(writes)
}

// A log has room for sixteen changes of a database that grows. The sixteenth brings all into place: one place of each change,
// the bytes that came, the first bytes under a cut mark, and the length.
const FULL_LOG: &[usize] = &[2, 1, 1, 1, 1, 1, 1, 1, 1, 1, 1, 1, 1, 1, 1, 20, 2];

// A log leaves at most 65,536 bytes free. The eighth change by 10,000 bytes brings the seven before it into place.
const OUTGROWN_LOG: &[usize] = &[2, 1, 1, 1, 1, 1, 1, 12, 1, 1, 1, 1, 1, 1, 12];

#[test]
fn counts_of_changes_of_a_database_that_grows(rt: HostRuntime) -> Result<(), Fail> {
    let alloc = rt.alloc();
    for growth in [1, 100, 4_369] {
        let writes = writes_of_growth(alloc, growth, FULL_LOG.len())?;
        assert_eq!(&rt; writes.as_slice(), FULL_LOG, "{growth}");
    }
    let writes = writes_of_growth(alloc, 10_000, OUTGROWN_LOG.len())?;
    assert_eq!(&rt; writes.as_slice(), OUTGROWN_LOG);
    Ok(())
}
