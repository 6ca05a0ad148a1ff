//! Batches over a storage in memory that may fail.
use super::run_lines;
use super::single::{CREATE, assert_step};
use super::storage::InMemory;
use rrd_file::FileFault;
use rrd_store::{Access, Always, FileBatchEnd, TaskFault, run_file_batch};
use rrd_tool::StreamFault;
use std::alloc::Global;
use std::io::ErrorKind;
use std::test::Fail;
use test_data::each_call::failing_after;
use test_data::streams::Giver;

fn ended(
    alloc: Global,
    refused: u64,
    stream: Option<StreamFault>,
    unstored: Option<TaskFault>,
) -> Option<FileBatchEnd> {
    Some(FileBatchEnd {
        refused,
        lines: Vec::new(alloc),
        stream,
        unstored,
    })
}

#[test]
fn a_batch_over_a_place(rt: HostRuntime) -> Result<(), Fail> {
    let alloc = rt.alloc();
    let mut storage = InMemory::missing(alloc);
    let lines = format!(in alloc; "{CREATE}\nupdate 10:1\nlast\nnothing\n")?;
    let (end, out) = run_lines(alloc, &mut storage, lines.as_str());
    assert_eq!(&rt; end.ok(), ended(alloc, 1, None, None));
    assert_eq!(&rt; out.as_slice(), b"10\nERROR: usage\n".as_slice());
    assert_eq!(&rt; storage.bytes.len(), 309);
    assert_eq!(&rt; storage.access, Some(Access::ReadWrite));
    assert_eq!(&rt; storage.expected, Some(309));
    // What was read is what the next lines run over, and they are stored after a failed read too.
    let lines = b"last\nrevert\nlast\nupda";
    let mut input = Giver::new(lines, failing_after(lines.len(), Some(ErrorKind::Other)));
    let mut out = Vec::new(alloc);
    let end = run_file_batch(alloc, 0, 0, &mut storage, &mut input, &mut out, &Always);
    assert_eq!(&rt; end.ok(), ended(alloc, 0, Some(StreamFault::Read), None));
    assert_eq!(&rt; out.as_slice(), b"10\n0\n".as_slice());
    assert_eq!(&rt; storage.bytes.len(), 224);
    Ok(())
}

#[test]
fn a_batch_that_stores_nothing(rt: HostRuntime) -> Result<(), Fail> {
    let alloc = rt.alloc();
    let mut storage = InMemory::missing(alloc);
    let (end, _) = run_lines(alloc, &mut storage, "last\n");
    assert_eq!(&rt; end.ok(), ended(alloc, 1, None, None));
    assert!(&rt; storage.bytes.is_empty());
    assert_step(&rt, alloc, &mut storage, &(CREATE, "", "", 224))?;
    storage.begins = false;
    let (end, _) = run_lines(alloc, &mut storage, "last\n");
    assert_eq!(&rt;
        end.ok(),
        ended(alloc, 0, None, Some(TaskFault::CannotWrite))
    );
    assert_eq!(&rt; storage.bytes.len(), 224);
    Ok(())
}

#[test]
fn a_batch_over_other_bytes(rt: HostRuntime) -> Result<(), Fail> {
    let alloc = rt.alloc();
    let mut storage = InMemory::with(alloc, b"other bytes")?;
    let mut input = b"last\n".as_slice();
    let mut out = Vec::new(alloc);
    for (opens, fault) in [
        (true, TaskFault::File(FileFault::NotOurs)),
        (false, TaskFault::CannotOpen),
    ] {
        storage.opens = opens;
        let end = run_file_batch(alloc, 0, 0, &mut storage, &mut input, &mut out, &Always);
        assert_eq!(&rt; end.err(), Some(fault));
    }
    assert_eq!(&rt; input.len(), 5);
    assert!(&rt; out.is_empty());
    assert_eq!(&rt; storage.bytes.as_slice(), b"other bytes".as_slice());
    Ok(())
}
