//! Wrong files, each read again if no memory was found for it. `tests/program/test_growths_in_tests.py` has each
//! allocation refused in turn: the fault is then that one or the file's own, and never another.
use crate::file::decoding::{WRONG_BYTES, WRONG_IN_BOTH};
use rrd_file::{FileFault, decode};
use std::alloc::Global;
use std::test::Fail;
use test_data::worked_files::{changed, sampled_file};

fn fault_with_memory(alloc: Global, bytes: &[u8]) -> Option<FileFault> {
    match decode(alloc, bytes) {
        Err(FileFault::OutOfMemory) => decode(alloc, bytes).err(),
        decoded => decoded.err(),
    }
}

#[test]
fn a_wrong_file_is_told(rt: HostRuntime) -> Result<(), Fail> {
    let alloc = rt.alloc();
    let bytes = sampled_file(alloc)?;
    for (at, byte, fault) in WRONG_IN_BOTH.iter().chain(WRONG_BYTES) {
        let wrong = changed(alloc, &bytes, *at, *byte)?;
        assert_eq!(&rt; fault_with_memory(alloc, &wrong), Some(*fault), "{at}");
    }
    Ok(())
}
