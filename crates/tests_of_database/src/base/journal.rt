//! Tunes and resizes, what the journal holds of a change, and what taking it back leaves.
use crate::shared::assert_rows;
use rrd_base::{Change, Database, Entry, SavedArchive};
use rrd_fixed::{Kind, Raw, StoredCell};
use rrd_fold::Function;
use std::process::Abort;
use std::test::Fail;
use test_data::plans::{done, made, update_of};

// The newest entry.
fn newest<'a>(rt: &impl Abort, database: &'a Database) -> &'a Entry {
    assert!(rt; 0 < database.undoable());
    database.entry(0)
}

// ---- updates

// Three archives, with rows of four steps, and half a step.
const HALF_A_STEP: &str =
    "create --step 10 --start 0 DS:g:GAUGE:1000:U:U RRA:AVERAGE:0.5:4:2 RRA:MIN:0.5:4:10 RRA:MAX:0.5:4:5
update 15:2";

const THREE_ARCHIVES: &str =
    "create --step 10 --start 0 DS:g:GAUGE:1000:U:U RRA:AVERAGE:0.5:4:2 RRA:MIN:0.5:4:10 RRA:MAX:0.5:4:5";

// Steps of a second.
const SECONDS: &str =
    "create --step 1 --start 1000000000 DS:g:GAUGE:9999999999:U:U RRA:AVERAGE:0.5:1:24 RRA:MAX:0.5:3600:24";

const TWO_ROWS: &str = "create --step 10 --start 0 DS:g:GAUGE:100:U:U RRA:LAST:0.5:1:2";

// A database, an update, how many cells its entry holds, and the least and most turns that it takes.
const TURNS: &[(&str, &str, u64, u64, u64)] = &[
    // Half a step at 2, then 20 steps at 5, which finish five rows of each archive: two are all that
    // the first archive has, the second keeps five of ten, and the third loses all its five.
    (THREE_ARCHIVES, "update 15:2", 0, 0, 27),
    (HALF_A_STEP, "update 215:5", 12, 12, 39),
    // A gap of ten years.
    (SECONDS, "update 1315360000:3", 48, 48, 67),
    // Of a thousand rows in an archive of two, two cells are written: the turns are these and at most
    // eleven more, three for the source and eight for it in the archive.
    (TWO_ROWS, "update 10000:3", 2, 2, 13),
];

#[test]
fn turns_of_updates(rt: HostRuntime) -> Result<(), Fail> {
    let alloc = rt.alloc();
    for (plan, line, cells, least, most) in TURNS {
        let mut database = made(alloc, plan)?;
        let receipt = database.update(alloc, &update_of(alloc, line)?)?;
        assert_eq!(&rt; receipt.cells, *cells, "{line}");
        let turns = receipt.turns;
        assert!(&rt; *least <= turns && turns <= *most, "{line}: {turns}");
    }
    Ok(())
}

// An archive of this function lost so many rows, the oldest of them unknown, and had one step at 2 of
// its unfinished row.
fn assert_kept(rt: &impl Abort, kept: &SavedArchive, function: Function, count: u64) {
    assert_eq!(rt; kept.function(), function);
    let rows = kept.rows();
    assert_eq!(rt; rows.len(), count);
    assert!(rt; 0 < rows.len());
    let (_, oldest) = rows.contiguous_rows(0, 1);
    assert_eq!(rt; oldest, [StoredCell::unknown()].as_slice());
    let preps = kept.preps();
    assert!(rt; preps.len() == 1);
    let row = &preps[0];
    assert_eq!(rt; (row.known(), row.value()), (1, 2_000_000));
}

fn assert_second_update_kept(rt: &impl Abort, database: &Database) {
    let Entry::Update(before) = newest(rt, database) else {
        panic!(rt; "no update")
    };
    assert_eq!(rt; before.last, 15);
    assert_eq!(rt; before.raws.as_slice(), [Raw::Known(2_000_000)].as_slice());
    assert_eq!(rt; before.preps.len(), 1);
    let step = &before.preps[0];
    assert_eq!(rt; (step.known(), step.sum()), (5, 10_000_000));
    assert_eq!(rt; before.archives.len(), 3);
    assert_kept(rt, &before.archives[0], Function::Average, 2);
    assert_kept(rt, &before.archives[1], Function::Min, 5);
    assert_kept(rt, &before.archives[2], Function::Max, 5);
}

// It finished no row.
fn assert_first_update_kept(rt: &impl Abort, database: &Database) {
    assert!(rt; 1 < database.undoable());
    let Entry::Update(before) = database.entry(1) else {
        panic!(rt; "no update")
    };
    assert_eq!(rt; (before.last, before.archives.len()), (0, 3));
    for kept in &before.archives {
        assert_eq!(rt; kept.rows().len(), 0, "{:?}", kept.function());
    }
}

#[test]
fn an_update_keeps_what_it_replaces(rt: HostRuntime) -> Result<(), Fail> {
    let alloc = rt.alloc();
    let database = done(alloc, Some(made(alloc, HALF_A_STEP)?), "update 215:5")?;
    assert_second_update_kept(&rt, &database);
    assert_first_update_kept(&rt, &database);
    Ok(())
}

// ---- tunes

const COUNTER: &str = "create --step 10 --start 0 DS:c:COUNTER:100:U:U RRA:LAST:0.5:1:4
update 10:7";

// The only source has this name, type and last raw value.
fn assert_source(rt: &impl Abort, database: &Database, name: &str, kind: Kind, raw: Raw) {
    assert!(rt; database.sources() == 1);
    let source = database.source(0);
    assert_eq!(rt; (source.name.as_str(), source.kind), (name, kind));
    assert_eq!(rt; database.last_raw(0), raw);
}

// The newest entry is that of a tune of a counter.
fn assert_counter_kept(rt: &impl Abort, database: &Database) {
    let Entry::Tune(sources) = newest(rt, database) else {
        panic!(rt; "no tune")
    };
    assert_eq!(rt; sources.len(), 1);
    let before = &sources[0];
    assert_eq!(rt; (before.number, before.source.name.as_str()), (0, "c"));
    assert_eq!(rt; before.source.kind, Kind::Counter);
    assert_eq!(rt; before.raw, Raw::Known(7));
}

// Another type and name forget the raw value, until they are taken back; the same type keeps it.
#[test]
fn another_type_and_the_same(rt: HostRuntime) -> Result<(), Fail> {
    let alloc = rt.alloc();
    let mut database = made(alloc, COUNTER)?;
    assert_source(&rt, &database, "c", Kind::Counter, Raw::Known(7));
    for (line, name, kind, raw) in [
        ("tune -d c:GAUGE -r c:g", "g", Kind::Gauge, Raw::Unknown),
        ("tune -d c:COUNTER", "c", Kind::Counter, Raw::Known(7)),
    ] {
        database = done(alloc, Some(database), line)?;
        assert_source(&rt, &database, name, kind, raw);
        assert_eq!(&rt; (database.last(), database.undoable()), (10, 2), "{name}");
        assert_counter_kept(&rt, &database);
        database.revert()?;
        assert_source(&rt, &database, "c", Kind::Counter, Raw::Known(7));
        assert_eq!(&rt; (database.last(), database.undoable()), (10, 1), "{name}");
    }
    Ok(())
}

// ---- resizes

fn assert_four_rows_kept(rt: &impl Abort, database: &Database) {
    let Entry::Resize { archive: 0, old } = newest(rt, database) else {
        panic!(rt; "no resize")
    };
    assert_eq!(rt; old.rows(), 4);
    assert_eq!(rt; old.row(0), [StoredCell::of_number(1_000_000)].as_slice());
    assert!(rt; database.archives() == 1);
    assert_eq!(rt; database.archive(0).rows, 1);
}

// Two rows at 1, and two at 2.
const FOUR_ROWS: &str = "create --step 10 --start 0 DS:g:GAUGE:100:U:U RRA:LAST:0.5:1:4
update 20:1 40:2";

#[test]
fn a_resize_keeps_the_old_rows(rt: HostRuntime) -> Result<(), Fail> {
    let alloc = rt.alloc();
    let mut database = made(alloc, FOUR_ROWS)?;
    database.resize(alloc, 0, Change::Shrink, 3)?;
    assert_four_rows_kept(&rt, &database);
    assert_rows(&rt, &database, 40, 10, &[2]);
    database.revert()?;
    assert_rows(&rt, &database, 10, 10, &[1, 1, 2, 2]);
    Ok(())
}

// ---- archives that come and go

// The archive that went is kept as it was, with the preparation of its unfinished row.
fn assert_first_kept(rt: &impl Abort, database: &Database) {
    let Entry::Removed { archive: 0, old } = newest(rt, database) else {
        panic!(rt; "no removal")
    };
    assert_eq!(rt; (old.def().steps, old.def().rows), (2, 3));
    assert_eq!(rt; old.preps().len(), 1);
    assert_eq!(rt; old.preps()[0].known(), 1);
    let rows = old.archive();
    assert_eq!(rt; rows.rows(), 3);
    assert_eq!(rt; rows.row(2), [StoredCell::of_number(1_000_000)].as_slice());
}

// Another archive is added, and the first one is removed in the middle of a row.
const FIRST_REMOVED: &str = "create --step 10 --start 0 DS:g:GAUGE:100:U:U RRA:LAST:0.5:2:3
tune RRA:LAST:0.5:1:4
update 20:1 30:2
tune DELRRA:0";

#[test]
fn a_removal_keeps_the_archive(rt: HostRuntime) -> Result<(), Fail> {
    let alloc = rt.alloc();
    let mut database = made(alloc, FIRST_REMOVED)?;
    assert!(&rt; database.archives() == 1);
    assert_eq!(&rt; database.archive(0).rows, 4);
    assert_first_kept(&rt, &database);
    database.revert()?;
    assert!(&rt; database.archives() == 2);
    assert_eq!(&rt; database.archive(0).rows, 3);
    assert_eq!(&rt; database.archive(1).rows, 4);
    assert_eq!(&rt; database.row_prep(0, 0).known(), 1);
    database.revert()?;
    let Entry::Added = newest(&rt, &database) else {
        return Err(Fail::from("no addition"));
    };
    database.revert()?;
    assert!(&rt; database.archives() == 1);
    Ok(())
}
