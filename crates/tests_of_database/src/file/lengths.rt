//! How many bytes files have, summed by hand from the tables of docs/file-format.md.
use rrd_file::{decode, encoded_length};
use std::test::Fail;
use test_data::plans::{NEW, made};
use test_data::worked_files::{
    ADDED, ARCHIVES_CHANGED, FOUR_CHANGES, HALF_A_ROW, REMOVED, SAMPLED, TAKEN_BACK, THREE_CHANGES,
    TWO_SOURCES, TWO_SOURCES_SAMPLED, file_of, in_first_version, sampled_file,
};

// With one source a body has 30 + 97 bytes, 13 + 20 for each archive and 16 for each row; with two 30 + 194,
// 13 + 40 and 32.
const LENGTHS: &[(&str, u64)] = &[
    (NEW, 224), // 30 + 97 + 33 + 64
    (SAMPLED, 309), // and an update of one row: 9 + 36 + 24 + 16
    (TAKEN_BACK, 224),
    (HALF_A_ROW, 277), // three rows: 208; an update of no row: 9 + 36 + 24
    (THREE_CHANGES, 494), // six rows: 256; a resize: 7 + 64; a tune: 3 + 79; an update: 85
    (ADDED, 322), // 30 + 97 + 66 + 128; an addition: 1
    (REMOVED, 325), // a removal: 16 + 20 + 64
    (TWO_SOURCES, 618), // 30 + 194 + 106 + 288
    (TWO_SOURCES_SAMPLED, 915), // an update of three rows and one: 9 + 72 + 44 + 96 + 44 + 32
    // 30 + 194 + 106 + 224; a resize: 7 + 192; an update of two rows and one: 81 + 108 + 76; a tune of two
    // sources: 3 + 158; the journal has no room for the first update.
    (FOUR_CHANGES, 1_179),
    // 30 + 194 + 53 + 64; the newest first: a removal of three rows: 16 + 40 + 96; an addition: 1; a tune: 82;
    // an update of one row: 81 + 76; a removal of six rows: 16 + 40 + 192; a resize: 7 + 128; an update of one
    // row and one: 81 + 76 + 76; an addition: 1; an update of no row: 81 + 44.
    (ARCHIVES_CHANGED, 1_475),
];

#[test]
fn lengths_of_files(rt: HostRuntime) -> Result<(), Fail> {
    let alloc = rt.alloc();
    for (plan, length) in LENGTHS {
        let database = made(alloc, plan)?;
        assert_eq!(&rt; encoded_length(&database), *length, "{plan}");
        let bytes = file_of(alloc, &database)?;
        assert_eq!(&rt; bytes.len() as u64, *length, "{plan}");
    }
    Ok(())
}

// Each revert takes the newest entry off, and the rows that a resize made.
#[test]
fn lengths_fall_with_reverts(rt: HostRuntime) -> Result<(), Fail> {
    let alloc = rt.alloc();
    let mut database = made(alloc, THREE_CHANGES)?;
    for length in [494, 391, 309, 224] {
        assert_eq!(&rt; encoded_length(&database), length, "{length}");
        let _reverted = database.revert();
    }
    Ok(())
}

// What was read of the first version is written in the second.
#[test]
fn the_length_is_that_of_the_second_version(rt: HostRuntime) -> Result<(), Fail> {
    let alloc = rt.alloc();
    let first = in_first_version(alloc, &sampled_file(alloc)?)?;
    assert_eq!(&rt; first.len(), 305);
    let Ok(database) = decode(alloc, first.as_slice()) else {
        return Err(Fail::from("no database"));
    };
    assert_eq!(&rt; encoded_length(&database), 309);
    Ok(())
}

// A cell has 16 bytes, however many there are, and none of them is looked at.
#[test]
fn a_long_length(rt: HostRuntime) -> Result<(), Fail> {
    let million_rows = "create --step 10 --start 0 DS:g:GAUGE:100:U:U RRA:LAST:0.5:1:1000000";
    let database = made(rt.alloc(), million_rows)?;
    assert_eq!(&rt; encoded_length(&database), 16_000_160);
    Ok(())
}
