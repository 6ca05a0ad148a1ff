//! Files byte by byte, worked out by hand.
use crate::shared::assert_bytes;
use std::test::Fail;
use test_data::joined;
use test_data::plans::{NEW, made};
use test_data::worked_files::{
    ABSENT, ADDED, NEW_FILE, NOTHING, ONE_ADDED, ONE_ARCHIVE_REMOVED, ONE_RENAMED, REMOVED,
    RENAMED, ROWS_BEFORE_1970, SAMPLED, SAMPLED_FILE, TAKEN_BACK, THREE_CHANGES, THREE_ENTRIES,
    TWO_SOURCES_SAMPLED, file_of, joined_parts, new_file,
};

// Databases, their files, and how long these are.
const FILES: &[(&str, &[&[&[u8]]], usize)] = &[
    (NEW, NEW_FILE, 224),
    (SAMPLED, SAMPLED_FILE, 309),
    (TAKEN_BACK, NEW_FILE, 224),
    (TWO_SOURCES_SAMPLED, ROWS_BEFORE_1970, 915),
    (THREE_CHANGES, THREE_ENTRIES, 494),
    (ADDED, ONE_ADDED, 322),
    (REMOVED, ONE_ARCHIVE_REMOVED, 325),
    (RENAMED, ONE_RENAMED, 487),
];

#[test]
fn files_byte_by_byte(rt: HostRuntime) -> Result<(), Fail> {
    let alloc = rt.alloc();
    for (plan, parts, length) in FILES {
        let wanted = joined_parts(alloc, parts)?;
        assert_eq!(&rt; wanted.len(), *length, "{plan}");
        let file = file_of(alloc, &made(alloc, plan)?)?;
        assert_bytes(&rt, &file, &wanted, plan);
    }
    Ok(())
}

// These rows fill eight blocks of 4,096 bytes and more: 160 bytes before the cells, and 16 for each.
const LONG: &str = "create --step 10 --start 0 DS:g:GAUGE:100:U:U RRA:LAST:0.5:1:2100";

#[test]
fn a_long_file_goes_out_in_blocks(rt: HostRuntime) -> Result<(), Fail> {
    let alloc = rt.alloc();
    let database = made(alloc, LONG)?;
    let new = new_file(alloc)?;
    let head = new.get(..136).ok_or("short")?;
    let mut wanted = joined(alloc, &[head, &[0x00, 0x00, 0x08, 0x34], &NOTHING])?;
    for _ in 0..2_100 {
        wanted.extend_from_slice(&ABSENT)?;
    }
    assert_eq!(&rt; wanted.len(), 33_760);
    assert_bytes(&rt, &file_of(alloc, &database)?, &wanted, "2,100 rows");
    Ok(())
}
