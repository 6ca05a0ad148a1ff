//! Small databases, each call of rrd_base on its happy path: the readers, and updates of fewer, as many and
//! more rows than an archive has and back.
use crate::shared::assert_rows;
use rrd_base::{Database, Refusal};
use rrd_fixed::{Kind, Raw};
use rrd_fold::Function;
use std::process::Abort;
use std::test::Fail;
use test_data::plans::{done, made};

// ---- each call

// A gauge in rows of one and of three steps: 10 seconds at 2, 10 at 5, and 4 at 6 of a step in
// progress.
const TWO_ARCHIVES: &str =
    "create --step 10 --start 0 --journal 7 DS:g:GAUGE:100:U:U RRA:LAST:0.5:1:4 RRA:AVERAGE:0.5:3:5
update 10:2 20:5 24:6";

fn assert_settings(rt: &impl Abort, database: &Database) {
    assert_eq!(rt; (database.step(), database.depth()), (10, 7));
    assert_eq!(rt; (database.sources(), database.archives()), (1, 2));
    let source = database.source(0);
    assert_eq!(rt; source.name.as_str(), "g");
    assert_eq!(rt; (source.kind, source.heartbeat), (Kind::Gauge, 100));
    let second = database.archive(1);
    assert_eq!(rt; (second.function, second.xff), (Function::Average, 500_000));
    assert_eq!(rt; (second.steps, second.rows), (3, 5));
}

fn assert_unfinished(rt: &impl Abort, database: &Database) {
    assert_eq!(rt; (database.last(), database.undoable()), (24, 1));
    assert_eq!(rt; (database.first(0), database.first(1)), (Ok(-10), Ok(-120)));
    assert_eq!(rt; database.first(2), Err(Refusal::NoSuchArchive));
    assert_eq!(rt; (database.sources(), database.archives()), (1, 2));
    assert_eq!(rt; database.last_raw(0), Raw::Known(6_000_000));
    let step = database.step_prep(0);
    assert_eq!(rt; (step.known(), step.sum()), (4, 24_000_000));
    let row = database.row_prep(1, 0);
    assert_eq!(rt; (row.known(), row.value()), (2, 7_000_000));
    assert_eq!(rt; row.function(), Function::Average);
    let fresh = database.row_prep(0, 0);
    assert_eq!(rt; (fresh.known(), fresh.value()), (0, 0));
}

#[test]
fn settings_and_what_is_unfinished(rt: HostRuntime) -> Result<(), Fail> {
    let database = made(rt.alloc(), TWO_ARCHIVES)?;
    assert_settings(&rt, &database);
    assert_unfinished(&rt, &database);
    Ok(())
}

// ---- updates and what takes them back

// Four rows of 10 seconds, and half a step more.
const BEFORE: &str = "create --step 10 --start 0 DS:g:GAUGE:100:U:U RRA:LAST:0.5:1:4
update 10:1 20:2 30:3 40:4 45:7";

fn assert_before(rt: &impl Abort, database: &Database) {
    assert_eq!(rt; (database.last(), database.undoable()), (45, 1));
    assert_rows(rt, database, 10, 10, &[1, 2, 3, 4]);
    assert!(rt; database.sources() == 1);
    assert_eq!(rt; database.last_raw(0), Raw::Known(7_000_000));
    let step = database.step_prep(0);
    assert_eq!(rt; (step.known(), step.sum()), (5, 35_000_000));
}

// Updates, where their last four rows begin, and those rows. Of several samples that together finish
// fewer rows than the archive has, as many, and more; and of one. The other half of the first step is
// at 5, so its row is 6.
const UPDATES: &[(&str, i64, [i128; 4])] = &[
    ("update 50:5 60:6", 30, [3, 4, 6, 6]),
    ("update 50:5 60:6 80:8", 50, [6, 6, 8, 8]),
    ("update 50:5 60:6 80:8 90:9 100:10", 70, [8, 8, 9, 10]),
    ("update 145:9", 110, [9, 9, 9, 9]),
];

#[test]
fn updates_are_taken_back(rt: HostRuntime) -> Result<(), Fail> {
    let alloc = rt.alloc();
    let mut database = made(alloc, BEFORE)?;
    assert_before(&rt, &database);
    for (line, first, rows) in UPDATES {
        database = done(alloc, Some(database), line)?;
        assert_rows(&rt, &database, *first, 10, rows);
        database.revert()?;
        assert_before(&rt, &database);
    }
    Ok(())
}
