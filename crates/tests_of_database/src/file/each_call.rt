//! Files over readers and writers of which each call fails in turn, or is interrupted.
use crate::file::decoding::{WRONG_BYTES, WRONG_IN_BOTH};
use crate::shared::assert_front;
use rrd_base::Database;
use rrd_file::{FileFault, decode, encode};
use std::alloc::Global;
use std::io::ErrorKind;
use std::process::Abort;
use std::test::Fail;
use test_data::each_call::{FAULTS, INTERRUPTS, failing_after, interrupted};
use test_data::joined;
use test_data::plans::made;
use test_data::streams::{Giver, PLAIN, Taker};
use test_data::worked_files::{
    ARCHIVES_CHANGED, FOUR_CHANGES, SAMPLED, changed, file_of, in_first_version, sampled_file,
};

// ---- reads

const ERRORS: &[ErrorKind] = &[
    ErrorKind::Other,
    ErrorKind::WouldBlock,
    ErrorKind::UnexpectedEof,
];

// What is told of a file whose reader fails after so many bytes.
fn fault_after(alloc: Global, bytes: &[u8], calls: usize, kind: ErrorKind) -> Option<FileFault> {
    decode(alloc, Giver::new(bytes, failing_after(calls, Some(kind)))).err()
}

// Each read fails: one a byte, and the one that finds the end. There is no other.
fn assert_each_read_counts(rt: &impl Abort, alloc: Global, bytes: &[u8], kind: ErrorKind) {
    let all = bytes.len().saturating_add(1);
    for calls in 0..all {
        let fault = fault_after(alloc, bytes, calls, kind);
        assert_eq!(rt; fault, Some(FileFault::Read), "{calls}");
    }
    assert_eq!(rt; fault_after(alloc, bytes, all, kind), None);
}

#[test]
fn each_read_of_a_file_fails(rt: HostRuntime) -> Result<(), Fail> {
    let alloc = rt.alloc();
    let bytes = sampled_file(alloc)?;
    for kind in ERRORS {
        assert_each_read_counts(&rt, alloc, &bytes, *kind);
    }
    let first = in_first_version(alloc, &bytes)?;
    assert_each_read_counts(&rt, alloc, &first, ErrorKind::Other);
    Ok(())
}

// These have, taken together, an entry of each kind in their journals.
const JOURNALS: [&str; 2] = [FOUR_CHANGES, ARCHIVES_CHANGED];

#[test]
fn each_read_of_entries_fails(rt: HostRuntime) -> Result<(), Fail> {
    let alloc = rt.alloc();
    for plan in JOURNALS {
        let bytes = file_of(alloc, &made(alloc, plan)?)?;
        assert_each_read_counts(&rt, alloc, &bytes, ErrorKind::Other);
    }
    Ok(())
}

const THREE_SOURCES: &str =
    "create --step 10 --start 0 DS:a:GAUGE:100:U:U DS:b:GAUGE:100:U:U DS:c:GAUGE:100:U:U RRA:LAST:0.5:1:2";

// What is wrong with a piece is told once it is whole, though a later read fails. The source has the bytes from 30 up to
// 127. Of a row of three cells, which has those from 394 up to 442, the second one is past the greatest rate.
#[test]
fn an_earlier_piece_is_told_first(rt: HostRuntime) -> Result<(), Fail> {
    let alloc = rt.alloc();
    let three = file_of(alloc, &made(alloc, THREE_SOURCES)?)?;
    assert_eq!(&rt; three.len(), 490);
    for (bytes, at, whole) in [
        (changed(alloc, &sampled_file(alloc)?, 50, 4)?, 30, 127),
        (changed(alloc, &three, 410, 127)?, 410, 426),
    ] {
        for calls in 0..bytes.len() {
            let told = fault_after(alloc, &bytes, calls, ErrorKind::Other);
            let is_shown = told == Some(FileFault::BadBlock { at });
            assert!(&rt; is_shown || told == Some(FileFault::Read), "{calls}");
            assert_eq!(&rt; is_shown, calls >= whole, "{calls}");
        }
    }
    Ok(())
}

// A read that fails is told as such, until the bytes before the read show what is wrong with the file: then the fault is
// told, and no read follows.
fn assert_told_or_failed(
    rt: &impl Abort,
    alloc: Global,
    bytes: &[u8],
    fault: FileFault,
) -> Result<(), Fail> {
    for calls in 0..bytes.len() {
        let front = bytes.get(..calls).ok_or("short")?;
        let is_shown = decode(alloc, front).err() == Some(fault);
        let wanted = if is_shown { fault } else { FileFault::Read };
        let told = fault_after(alloc, bytes, calls, ErrorKind::Other);
        assert_eq!(rt; told, Some(wanted), "{calls}");
        if is_shown {
            return Ok(());
        }
    }
    Ok(())
}

#[test]
fn each_read_of_a_wrong_file_fails(rt: HostRuntime) -> Result<(), Fail> {
    let alloc = rt.alloc();
    let bytes = sampled_file(alloc)?;
    for (at, byte, fault) in WRONG_IN_BOTH.iter().chain(WRONG_BYTES) {
        let wrong = changed(alloc, &bytes, *at, *byte)?;
        assert_told_or_failed(&rt, alloc, &wrong, *fault)?;
    }
    Ok(())
}

// And a byte behind the last one is found where each read gives few bytes.
#[test]
fn interrupted_reads_of_a_file(rt: HostRuntime) -> Result<(), Fail> {
    let alloc = rt.alloc();
    let bytes = sampled_file(alloc)?;
    for (interrupts, is_read) in INTERRUPTS {
        let end = decode(alloc, Giver::new(&bytes, interrupted(*interrupts)));
        let fault = if *is_read {
            None
        } else {
            Some(FileFault::Read)
        };
        assert_eq!(&rt; end.err(), fault, "{interrupts}");
    }
    let longer = joined(alloc, &[&bytes, &[0]])?;
    let end = decode(alloc, Giver::new(&longer, interrupted(1)));
    assert_eq!(&rt; end.err(), Some(FileFault::Trailing { at: 309 }));
    Ok(())
}

// ---- writes

// Each write of a file fails, one a byte: there is a front of it, and all of it only where none failed.
fn assert_each_write_counts(
    rt: &impl Abort,
    alloc: Global,
    database: &Database,
    faults: &[Option<ErrorKind>],
) -> Result<(), Fail> {
    let bytes = file_of(alloc, database)?;
    for fault in faults {
        for calls in 0..bytes.len().saturating_add(1) {
            let mut out = Taker::new(alloc, failing_after(calls, *fault), PLAIN);
            let end = encode(database, &mut out);
            assert_eq!(rt; end.is_ok(), calls == bytes.len(), "{calls}");
            assert_front(rt, &out.taken, &bytes, calls);
        }
    }
    Ok(())
}

#[test]
fn each_write_of_a_file_fails(rt: HostRuntime) -> Result<(), Fail> {
    let alloc = rt.alloc();
    let database = made(alloc, SAMPLED)?;
    assert_each_write_counts(&rt, alloc, &database, FAULTS)?;
    let bytes = sampled_file(alloc)?;
    for (interrupts, is_written) in INTERRUPTS {
        let mut out = Taker::new(alloc, interrupted(*interrupts), PLAIN);
        let end = encode(&database, &mut out);
        assert_eq!(&rt; end.is_ok(), *is_written, "{interrupts}");
        let room = if *is_written { bytes.len() } else { 0 };
        assert_front(&rt, &out.taken, &bytes, room);
    }
    Ok(())
}

#[test]
fn each_write_of_entries_fails(rt: HostRuntime) -> Result<(), Fail> {
    for plan in JOURNALS {
        let database = made(rt.alloc(), plan)?;
        assert_each_write_counts(&rt, rt.alloc(), &database, &[None])?;
    }
    Ok(())
}
