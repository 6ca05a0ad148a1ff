//! Files that are read back: whole ones, cut ones, and ones with a wrong byte; and the texts of faults.
use crate::shared::assert_bytes;
use rrd_file::{FileFault, decode};
use std::alloc::Global;
use std::process::Abort;
use std::test::Fail;
use test_data::joined;
use test_data::plans::made;
use test_data::worked_files::{
    ARCHIVES_CHANGED, DATABASES, FILE_FAULTS, FOUR_CHANGES, REMOVED, changed, file_of,
    in_first_version, new_file, renamed_file, sampled_file,
};

// ---- what is read

fn fault_of(alloc: Global, bytes: &[u8]) -> Option<FileFault> {
    decode(alloc, bytes).err()
}

// The file of what is read.
fn again(alloc: Global, bytes: &[u8]) -> Result<Vec<u8>, Fail> {
    let Ok(database) = decode(alloc, bytes) else {
        return Err(Fail::from("no database"));
    };
    file_of(alloc, &database)
}

// The file, cut to so many bytes, is truncated there.
fn assert_is_cut(rt: &impl Abort, alloc: Global, bytes: &[u8], length: usize) -> Result<(), Fail> {
    let front = bytes.get(..length).ok_or("short")?;
    let at = length as u64;
    let fault = Some(FileFault::Truncated { at });
    assert_eq!(rt; fault_of(alloc, front), fault, "{length}");
    Ok(())
}

// What was written is read. Cut anywhere it is truncated, and bytes behind it are too many.
fn assert_whole_alone(rt: &impl Abort, alloc: Global, plan: &str) -> Result<(), Fail> {
    let written = file_of(alloc, &made(alloc, plan)?)?;
    let bytes = written.as_slice();
    assert_bytes(rt, &again(alloc, bytes)?, bytes, plan);
    for length in 0..bytes.len() {
        assert_is_cut(rt, alloc, bytes, length)?;
    }
    let at = bytes.len() as u64;
    for behind in ["\0", "RRDI"] {
        let longer = joined(alloc, &[bytes, behind.as_bytes()])?;
        let fault = Some(FileFault::Trailing { at });
        assert_eq!(rt; fault_of(alloc, &longer), fault, "{plan}");
    }
    Ok(())
}

#[test]
fn files_are_read_whole_alone(rt: HostRuntime) -> Result<(), Fail> {
    for plan in DATABASES {
        assert_whole_alone(&rt, rt.alloc(), plan)?;
    }
    Ok(())
}

#[test]
fn files_with_entries_are_read_whole_alone(rt: HostRuntime) -> Result<(), Fail> {
    for plan in [FOUR_CHANGES, REMOVED, ARCHIVES_CHANGED] {
        assert_whole_alone(&rt, rt.alloc(), plan)?;
    }
    Ok(())
}

// The first version has no archive that came or went: the tag is bad, also where nothing stands behind it.
#[test]
fn no_archive_comes_or_goes_in_the_first_version(rt: HostRuntime) -> Result<(), Fail> {
    let alloc = rt.alloc();
    let bytes = file_of(alloc, &made(alloc, REMOVED)?)?;
    let first = in_first_version(alloc, &bytes)?;
    let fault = Some(FileFault::BadEntry { number: 1 });
    assert_eq!(&rt; fault_of(alloc, &first), fault);
    let cut = first.get(..221).ok_or("short")?;
    assert_eq!(&rt; fault_of(alloc, cut), fault);
    let announced = changed(alloc, &new_file(alloc)?, 29, 1)?;
    for tag in [4u8, 5] {
        let newest = joined(alloc, &[&announced, &[tag]])?;
        let first = in_first_version(alloc, &newest)?;
        assert_eq!(&rt; fault_of(alloc, &first), fault, "{tag}");
    }
    // An addition leaves an archive before it.
    let newest = joined(alloc, &[&announced, &[4]])?;
    assert_eq!(&rt; fault_of(alloc, &newest), fault);
    let newest = joined(alloc, &[&announced, &[5]])?;
    assert_eq!(&rt;
        fault_of(alloc, &newest),
        Some(FileFault::Truncated { at: 225 })
    );
    Ok(())
}

// A byte of the file with a sample, in either version, what it is changed to, and the fault then.
pub(crate) const WRONG_IN_BOTH: &[(usize, u8, FileFault)] = &[
    (0, 83, FileFault::NotOurs),
    (0, 0, FileFault::NotOurs),
    (3, 0, FileFault::NotOurs),
    (4, 1, FileFault::Version),
    (5, 0, FileFault::Version),
    (5, 3, FileFault::Version),
    (9, 0, FileFault::BadBlock { at: 6 }), // no step
    (12, 1, FileFault::BadBlock { at: 6 }), // a last time past 9,999,999,999
];

// The same of the second version alone. The source begins at 30,
// the archive's head at 127, its cells at 160, and the entry at 224.
pub(crate) const WRONG_BYTES: &[(usize, u8, FileFault)] = &[
    (5, 1, FileFault::BadBlock { at: 6 }), // a header of the first version, with no depth
    (21, 0, FileFault::BadBlock { at: 6 }), // no depth
    (29, 17, FileFault::BadBlock { at: 6 }), // more entries than the depth
    (30, 20, FileFault::BadBlock { at: 30 }), // a name of 20
    (31, 45, FileFault::BadBlock { at: 30 }), // a name with a hyphen
    (49, 1, FileFault::BadBlock { at: 30 }), // a character behind the name
    (50, 4, FileFault::BadBlock { at: 30 }), // no type
    (58, 0, FileFault::BadBlock { at: 30 }), // no heartbeat
    (110, 1, FileFault::BadBlock { at: 30 }), // a known second where the step begins anew
    (127, 4, FileFault::BadBlock { at: 127 }), // no function
    (139, 0, FileFault::BadBlock { at: 127 }), // no row
    (143, 1, FileFault::BadBlock { at: 140 }), // a known step where each makes a row
    (160, 127, FileFault::BadBlock { at: 160 }), // past the greatest rate
    (208, 127, FileFault::BadBlock { at: 208 }), // the last cell
    (224, 4, FileFault::BadEntry { number: 1 }), // an archive added, where there is one alone
    (224, 6, FileFault::BadEntry { number: 1 }), // no tag
    (232, 10, FileFault::BadEntry { number: 1 }), // not before the last time
    (292, 2, FileFault::BadEntry { number: 1 }), // two rows were not replaced
    (293, 127, FileFault::BadEntry { number: 1 }), // past the greatest rate
];

// The same of the first version alone. The source begins at 26,
// the archive's head at 123, its cells at 156, and the entry at 220.
const WRONG_FIRST_BYTES: &[(usize, u8, FileFault)] = &[
    (5, 2, FileFault::BadBlock { at: 6 }), // a header of the second version
    (18, 4, FileFault::BadBlock { at: 6 }), // a depth of 1,040
    (23, 65, FileFault::BadBlock { at: 6 }), // 65 archives
    (19, 0, FileFault::BadBlock { at: 6 }), // no depth
    (25, 17, FileFault::BadBlock { at: 6 }), // more entries than the depth
    (25, 2, FileFault::Truncated { at: 305 }), // two entries
    (25, 0, FileFault::Trailing { at: 220 }), // no entry
    (21, 0, FileFault::BadBlock { at: 6 }), // no source
    (26, 20, FileFault::BadBlock { at: 26 }), // a name of 20
    (27, 45, FileFault::BadBlock { at: 26 }), // a name with a hyphen
    (45, 1, FileFault::BadBlock { at: 26 }), // a character behind the name
    (46, 4, FileFault::BadBlock { at: 26 }), // no type
    (54, 0, FileFault::BadBlock { at: 26 }), // no heartbeat
    (106, 1, FileFault::BadBlock { at: 26 }), // a known second where the step begins anew
    (123, 4, FileFault::BadBlock { at: 123 }), // no function
    (135, 0, FileFault::BadBlock { at: 123 }), // no row
    (139, 1, FileFault::BadBlock { at: 136 }), // a known step where each makes a row
    (156, 127, FileFault::BadBlock { at: 156 }), // past the greatest rate
    (204, 127, FileFault::BadBlock { at: 204 }), // the last cell
    (220, 4, FileFault::BadEntry { number: 1 }), // no tag of this version
    (220, 5, FileFault::BadEntry { number: 1 }), // nor this
    (228, 10, FileFault::BadEntry { number: 1 }), // not before the last time
    (248, 1, FileFault::BadEntry { number: 1 }), // a known second where the step began
    (288, 2, FileFault::BadEntry { number: 1 }), // two rows were not replaced
    (289, 127, FileFault::BadEntry { number: 1 }), // past the greatest rate
];

// A byte of the file whose first archive was removed. The removal begins at 224, its archive's settings at 227, the
// preparation at 240, the cells at 260, and the addition at 324.
const WRONG_REMOVALS: &[(usize, u8, FileFault)] = &[
    (224, 6, FileFault::BadEntry { number: 1 }), // no tag
    (226, 2, FileFault::BadEntry { number: 1 }), // behind the archive that would come after the last
    (227, 4, FileFault::BadEntry { number: 1 }), // no function
    (239, 0, FileFault::BadEntry { number: 1 }), // no row
    (243, 1, FileFault::BadEntry { number: 1 }), // a known step where each makes a row
    (260, 127, FileFault::BadEntry { number: 1 }), // past the greatest rate
    (308, 127, FileFault::BadEntry { number: 1 }), // the last cell
    (324, 0, FileFault::BadEntry { number: 2 }), // no tag
];

#[test]
fn wrong_bytes_have_their_places(rt: HostRuntime) -> Result<(), Fail> {
    let alloc = rt.alloc();
    let sampled = sampled_file(alloc)?;
    let first = in_first_version(alloc, &sampled)?;
    let removed = file_of(alloc, &made(alloc, REMOVED)?)?;
    for (bytes, wrong_bytes) in [
        (&sampled, WRONG_IN_BOTH),
        (&sampled, WRONG_BYTES),
        (&first, WRONG_IN_BOTH),
        (&first, WRONG_FIRST_BYTES),
        (&removed, WRONG_REMOVALS),
    ] {
        for (at, byte, fault) in wrong_bytes {
            let wrong = changed(alloc, bytes, *at, *byte)?;
            assert_eq!(&rt; fault_of(alloc, &wrong), Some(*fault), "{at}");
        }
    }
    Ok(())
}

// A byte of the file of the first version, what it is changed to, how many bytes are left, and the fault then: a piece of the entry that is
// whole is told, though the input ends in a later one.
const WRONG_AND_CUT: &[(usize, u8, usize, FileFault)] = &[
    (220, 4, 265, FileFault::BadEntry { number: 1 }),
    (228, 10, 265, FileFault::BadEntry { number: 1 }),
    (248, 1, 265, FileFault::BadEntry { number: 1 }),
    (248, 1, 264, FileFault::Truncated { at: 264 }),
];

#[test]
fn a_wrong_entry_is_told_before_its_end(rt: HostRuntime) -> Result<(), Fail> {
    let alloc = rt.alloc();
    let bytes = in_first_version(alloc, &sampled_file(alloc)?)?;
    for (at, byte, length, fault) in WRONG_AND_CUT {
        let wrong = changed(alloc, &bytes, *at, *byte)?;
        let front = wrong.get(..*length).ok_or("short")?;
        assert_eq!(&rt; fault_of(alloc, front), Some(*fault), "{at} {length}");
    }
    Ok(())
}

// It is read to the database that it stood for, and is written in the second version.
#[test]
fn the_first_version_is_written_in_the_second(rt: HostRuntime) -> Result<(), Fail> {
    let alloc = rt.alloc();
    for plan in DATABASES {
        let second = file_of(alloc, &made(alloc, plan)?)?;
        let first = in_first_version(alloc, &second)?;
        assert_bytes(&rt, &again(alloc, &first)?, &second, plan);
    }
    Ok(())
}

// Once the tune is undone, the first source has the name of the second. Byte 411 is the name in the entry.
#[test]
fn names_differ_once_a_rename_is_undone(rt: HostRuntime) -> Result<(), Fail> {
    let alloc = rt.alloc();
    let renamed = renamed_file(alloc)?;
    for (name, fault) in [
        (b'a', None),
        (b'b', Some(FileFault::BadEntry { number: 1 })),
        (b'c', None),
    ] {
        let bytes = changed(alloc, &renamed, 411, name)?;
        assert_eq!(&rt; fault_of(alloc, &bytes), fault, "{name}");
    }
    Ok(())
}

// The tune is the third entry. A source has the name of another, once it is undone.
#[test]
fn names_differ_once_a_tune_is_undone(rt: HostRuntime) -> Result<(), Fail> {
    let alloc = rt.alloc();
    let bytes = file_of(alloc, &made(alloc, FOUR_CHANGES)?)?;
    let mut is_found = false;
    for (at, three) in bytes.as_slice().windows(3).enumerate() {
        if three == b"s00".as_slice() {
            let wrong = changed(alloc, &bytes, at.saturating_add(2), b'1')?;
            let fault = FileFault::BadEntry { number: 3 };
            assert!(&rt; !is_found);
            assert_eq!(&rt; fault_of(alloc, &wrong), Some(fault));
            is_found = true;
        }
    }
    assert!(&rt; is_found);
    Ok(())
}

// ---- long files

// A file of more bytes than come at once.
const LONG: &str = "create --step 10 --start 0 DS:g:GAUGE:100:U:U RRA:LAST:0.5:1:10000";

#[test]
fn a_long_file(rt: HostRuntime) -> Result<(), Fail> {
    let alloc = rt.alloc();
    let bytes = file_of(alloc, &made(alloc, LONG)?)?;
    assert_eq!(&rt; bytes.len(), 160_160);
    assert_bytes(&rt, &again(alloc, &bytes)?, &bytes, "10,000 rows");
    for length in [2_047, 2_048, 2_049, 65_536, 160_159] {
        assert_is_cut(&rt, alloc, &bytes, length)?;
    }
    Ok(())
}

// Three sources and rows across the end of what comes at once: the cells begin at 394, so the cell 103 lies
// across it, in the row of 102 to 104.
const ACROSS: &str =
    "create --step 10 --start 0 DS:a:GAUGE:100:U:U DS:b:GAUGE:100:U:U DS:c:GAUGE:100:U:U RRA:LAST:0.5:1:2000";

// The file with all cells unknown, or known and zero.
fn file_across(alloc: Global, known: bool) -> Result<Vec<u8>, Fail> {
    let mut bytes = file_of(alloc, &made(alloc, ACROSS)?)?;
    if known {
        for cell in 0..6_000 {
            *bytes.get_mut(394 + 16 * cell).ok_or("short")? = 0;
        }
    }
    Ok(bytes)
}

#[test]
fn rows_across_the_end_of_a_block(rt: HostRuntime) -> Result<(), Fail> {
    let alloc = rt.alloc();
    for known in [false, true] {
        let bytes = file_across(alloc, known)?;
        assert_eq!(&rt; bytes.len(), 394 + 16 * 6_000, "{known}");
        assert_bytes(&rt, &again(alloc, &bytes)?, &bytes, ACROSS);
        // A cell past the greatest rate, at each place of the row across the end and of those beside it.
        for cell in 99..108 {
            let at = 394 + 16 * cell;
            let wrong = changed(alloc, &bytes, at, 127)?;
            let fault = FileFault::BadBlock { at: at as u64 };
            assert_eq!(&rt; fault_of(alloc, &wrong), Some(fault), "{cell}");
            // Other cells have the other kind.
            let other = changed(alloc, &bytes, at, if known { 128 } else { 0 })?;
            assert_bytes(&rt, &again(alloc, &other)?, &other, ACROSS);
        }
    }
    Ok(())
}

// The input ends within that row, and before it within one there is a cell past the greatest rate.
#[test]
fn a_cut_row_across_the_end_of_a_block(rt: HostRuntime) -> Result<(), Fail> {
    let alloc = rt.alloc();
    let bytes = file_across(alloc, true)?;
    for length in 2_020..2_080usize {
        assert_is_cut(&rt, alloc, &bytes, length)?;
    }
    let wrong = changed(alloc, &bytes, 2_042, 127)?;
    for (length, fault) in [
        (2_057, FileFault::Truncated { at: 2_057 }),
        (2_058, FileFault::BadBlock { at: 2_042 }),
    ] {
        let front = wrong.get(..length).ok_or("short")?;
        assert_eq!(&rt; fault_of(alloc, front), Some(fault), "{length}");
    }
    Ok(())
}

// ---- the texts of faults

#[test]
fn faults_of_files(rt: HostRuntime) -> Result<(), Fail> {
    let alloc = rt.alloc();
    for (fault, text) in FILE_FAULTS {
        let shown = format!(in alloc; "{fault}")?;
        assert_eq!(&rt; shown.as_str(), *text, "{text}");
    }
    Ok(())
}
