//! Batches over the file of a database that no run makes, and files that a revert gives back.
use super::run_lines;
use super::storage::InMemory;
use crate::shared::assert_bytes;
use std::alloc::Global;
use std::process::Abort;
use std::test::Fail;
use test_data::worked_files::{changed, in_first_version, new_file, sampled_file};

// Runs lines over a storage: what they print. None is refused, and no stream fails.
fn printed(
    rt: &impl Abort,
    alloc: Global,
    storage: &mut InMemory,
    lines: &str,
) -> Result<Vec<u8>, Fail> {
    let (end, out) = run_lines(alloc, storage, lines);
    let end = end?;
    assert_eq!(rt;
        (end.refused, end.stream, end.unstored),
        (0, None, None),
        "{lines}"
    );
    Ok(out)
}

// The gauge's last raw value is 1,000,000 millionths: as a counter it stands at 1,000,000. The bytes 46 of the first
// version, and 50 of the second, tell the type.
#[test]
fn a_counter_that_no_run_makes(rt: HostRuntime) -> Result<(), Fail> {
    let alloc = rt.alloc();
    let first = in_first_version(alloc, &sampled_file(alloc)?)?;
    let mut storage = InMemory::with(alloc, &changed(alloc, &first, 46, 1)?)?;
    let lines = "lastupdate\nupdate 20:1000010\nfetch LAST -s 10 -e 19\nrevert\n";
    let out = printed(&rt, alloc, &mut storage, lines)?;
    let text = b"time: g\n10: 1000000\ntime: g\n20: 1.000000\n";
    assert_eq!(&rt; out.as_slice(), text.as_slice());
    let sampled = changed(alloc, &sampled_file(alloc)?, 50, 1)?;
    assert_bytes(&rt, &storage.bytes, &sampled, "reverted once");
    assert!(&rt; printed(&rt, alloc, &mut storage, "revert\n")?.is_empty());
    let new = changed(alloc, &new_file(alloc)?, 50, 1)?;
    assert_bytes(&rt, &storage.bytes, &new, "reverted twice");
    Ok(())
}

// Lines that make a file, and lines that change it and take that back: over a gap of ten years, and over more rows than
// some archives have.
const TAKEN_BACK: &[(&str, &str)] = &[
    (
        "create --step 1 --start 1000000000 DS:g:GAUGE:9999999999:U:U RRA:AVERAGE:0.5:1:24 RRA:MAX:0.5:3600:24\n",
        "update 1315360000:3\nrevert\n",
    ),
    (
        "create --step 10 --start 0 DS:g:GAUGE:1000:U:U RRA:AVERAGE:0.5:4:2 RRA:MIN:0.5:4:10 RRA:MAX:0.5:4:5\n\
update 15:2\n",
        "update 215:5\nrevert\n",
    ),
];

#[test]
fn a_revert_gives_the_file_back(rt: HostRuntime) -> Result<(), Fail> {
    let alloc = rt.alloc();
    for (made, lines) in TAKEN_BACK {
        let mut storage = InMemory::missing(alloc);
        assert!(&rt;
            printed(&rt, alloc, &mut storage, made)?.is_empty(),
            "{made}"
        );
        let before = storage.bytes.clone()?;
        assert!(&rt;
            printed(&rt, alloc, &mut storage, lines)?.is_empty(),
            "{lines}"
        );
        assert_bytes(&rt, &storage.bytes, &before, lines);
    }
    Ok(())
}
