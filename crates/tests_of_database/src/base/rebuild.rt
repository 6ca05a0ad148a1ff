//! Databases from the pieces of their files, and pieces that are bad.
ghost use Rattle.rrd_base.specs.Names.{IsBounded};

use crate::shared::assert_bytes;
use arrayvec::ArrayVec;
use rrd_base::{
    Database, DsDef, Due, Entry, Header, PieceFault, Rebuild, RraDef, SavedSource, Version,
};
use rrd_fixed::{Kind, Name, Raw, StoredCell};
use rrd_fold::Function;
use rrd_spec::limits::MAX_TUNED;
use std::alloc::Global;
use std::process::Abort;
use std::test::Fail;
use test_data::joined;
use test_data::worked_files::{ONE_RENAMED, file_of, joined_parts, sampled_file};

// An unknown cell.
fn none() -> StoredCell
    ensures { IsBounded result }
{
    StoredCell::unknown()
}

// A cell of 1.
fn one() -> StoredCell
    ensures { IsBounded result }
{
    StoredCell::of_number(1_000_000)
}

const BAD: Result<(), PieceFault> = Err(PieceFault::Bad);

pub(super) fn gauge(name: &[u8], heartbeat: u64) -> Result<DsDef, &'static str> {
    Ok(DsDef {
        name: Name::fit(name).ok_or("no name")?,
        kind: Kind::Gauge,
        heartbeat,
        min: None,
        max: None,
    })
}

// An archive of last values.
pub(super) fn archive(steps: u64, rows: u64) -> RraDef {
    RraDef {
        function: Function::Last,
        xff: 500_000,
        steps,
        rows,
    }
}

// A piece that must be taken.
pub(super) fn taken(taking: Result<(), PieceFault>) -> Result<(), Fail> {
    taking.map_err(|_| Fail::from("not taken"))
}

// A header of one archive.
fn header(step: u64, depth: u64, sources: u64, entries: u64) -> Header {
    Header {
        version: Version::Two,
        step,
        last: 10,
        depth,
        sources,
        archives: 1,
        entries,
    }
}

fn begun(alloc: Global, sources: u64, entries: u64) -> Result<Rebuild, Fail> {
    let header = header(10, 16, sources, entries);
    Rebuild::with_header(alloc, header).map_err(|_| Fail::from("not begun"))
}

// The gauge `g` and an archive of four last values, after a sample of 1 at 10: what a file says of it
// before its cells.
fn with_heads(alloc: Global) -> Result<Rebuild, Fail> {
    let mut pieces = begun(alloc, 1, 1)?;
    let g = gauge(b"g", 100)?;
    taken(pieces.source(g, Raw::Known(1_000_000), 0, 0))?;
    taken(pieces.archive(archive(1, 4)))?;
    taken(pieces.prep(0, 0))?;
    Ok(pieces)
}

// The same with its cells: the row at 10 stands in the slot 1.
fn with_cells(alloc: Global) -> Result<Rebuild, Fail> {
    let mut pieces = with_heads(alloc)?;
    for cell in [none(), one(), none(), none()] {
        taken(pieces.cell(cell))?;
    }
    Ok(pieces)
}

// What a tune kept of the source with a number: it was `a`.
fn before(number: u64) -> Result<ArrayVec<SavedSource, MAX_TUNED>, Fail> {
    let mut olds = ArrayVec::new();
    olds.push(SavedSource {
        number,
        source: gauge(b"a", 100)?,
        raw: Raw::Unknown,
    });
    Ok(olds)
}

// The database of all pieces.
pub(super) fn finished(rt: &impl Abort, pieces: Rebuild) -> Database {
    let Due::NothingDue = pieces.due() else {
        panic!(rt; "a piece is due")
    };
    pieces.finish()
}

// The file of the pieces with cells, and of a tune.
fn tuned_file(alloc: Global) -> Result<Vec<u8>, Fail> {
    let sampled = sampled_file(alloc)?;
    let entry = joined_parts(alloc, ONE_RENAMED.get(13..).ok_or("short")?)?;
    let front = sampled.get(..224).ok_or("short")?;
    Ok(joined(alloc, &[front, &entry])?)
}

#[test]
fn a_file_made_again_by_its_pieces(rt: HostRuntime) -> Result<(), Fail> {
    let alloc = rt.alloc();
    let mut pieces = with_cells(alloc)?;
    taken(pieces.entry(Entry::Tune(before(0)?)))?;
    let undone = pieces.undone().sources.as_slice();
    assert_eq!(&rt; undone.first().ok_or("none")?.name.as_str(), "a");
    let database = finished(&rt, pieces);
    let file = file_of(alloc, &database)?;
    assert_bytes(&rt, &file, &tuned_file(alloc)?, "made again");
    Ok(())
}

#[test]
fn bad_headers(rt: HostRuntime) -> Result<(), Fail> {
    let alloc = rt.alloc();
    for (step, depth, sources, entries) in [(0, 16, 1, 1), (10, 16, 65, 1), (10, 16, 1, 17)] {
        let made = Rebuild::with_header(alloc, header(step, depth, sources, entries));
        let Err(fault) = made else {
            return Err(Fail::from("begun"));
        };
        assert_eq!(&rt;
            fault,
            PieceFault::Bad,
            "{step} {depth} {sources} {entries}"
        );
    }
    Ok(())
}

// A name twice, and rows for more than 8,000,000 cells of 64 sources.
#[test]
fn bad_sources_and_archives(rt: HostRuntime) -> Result<(), Fail> {
    let alloc = rt.alloc();
    let mut pieces = begun(alloc, 64, 0)?;
    for number in 10..74u8 {
        let name = [
            b's',
            b'0'.saturating_add(number / 10),
            b'0'.saturating_add(number % 10),
        ];
        let def = gauge(&name, 1_000)?;
        let again = def.duplicate();
        taken(pieces.source(def, Raw::Unknown, 0, 0))?;
        let double = pieces.source(again, Raw::Unknown, 0, 0);
        assert_eq!(&rt; double, BAD, "{number}");
    }
    assert_eq!(&rt; pieces.archive(archive(1, 125_001)), BAD);
    assert_eq!(&rt; pieces.archive(archive(0, 1)), BAD);
    Ok(())
}

// No step of the row in progress has passed, and there are four cells.
#[test]
fn bad_preparations_and_cells(rt: HostRuntime) -> Result<(), Fail> {
    let alloc = rt.alloc();
    let mut pieces = begun(alloc, 1, 1)?;
    let g = gauge(b"g", 100)?;
    taken(pieces.source(g, Raw::Known(1_000_000), 0, 0))?;
    taken(pieces.archive(archive(1, 4)))?;
    assert_eq!(&rt; pieces.cell(none()), BAD);
    assert_eq!(&rt; pieces.prep(1, 1_000_000), BAD);
    let mut pieces = with_heads(alloc)?;
    let past = StoredCell::of_number(18_446_744_073_709_551_615_000_001);
    assert_eq!(&rt; pieces.cell(past), BAD);
    let mut pieces = with_cells(alloc)?;
    assert_eq!(&rt; pieces.cell(none()), BAD);
    Ok(())
}

// Two sources and an archive of three rows: what a file says of it before its cells.
fn with_two_sources(alloc: Global) -> Result<Rebuild, Fail> {
    let mut pieces = begun(alloc, 2, 0)?;
    taken(pieces.source(gauge(b"a", 100)?, Raw::Unknown, 0, 0))?;
    taken(pieces.source(gauge(b"b", 100)?, Raw::Unknown, 0, 0))?;
    taken(pieces.archive(archive(1, 3)))?;
    taken(pieces.prep(0, 0))?;
    taken(pieces.prep(0, 0))?;
    Ok(pieces)
}

// Rows at once come to the same as their cells one by one.
#[test]
fn rows_are_their_cells(rt: HostRuntime) -> Result<(), Fail> {
    let alloc = rt.alloc();
    let mut pieces = with_two_sources(alloc)?;
    assert_eq!(&rt; pieces.rows(&[one(), none(), one()]), 2);
    assert_eq!(&rt; pieces.unknown_rows(3), 2);
    assert_eq!(&rt; pieces.rows(&[none(), one(), one(), one()]), 2);
    let mut again = with_two_sources(alloc)?;
    for cell in [one(), none(), none(), none(), none(), one()] {
        taken(again.cell(cell))?;
    }
    let (one, other) = (finished(&rt, pieces), finished(&rt, again));
    assert_bytes(
        &rt,
        &file_of(alloc, &one)?,
        &file_of(alloc, &other)?,
        "rows at once",
    );
    Ok(())
}

// Whole rows alone are taken, and none where the next cell isn't the first of a row.
#[test]
fn rows_that_come_at_once(rt: HostRuntime) -> Result<(), Fail> {
    let alloc = rt.alloc();
    let mut pieces = with_two_sources(alloc)?;
    assert_eq!(&rt; pieces.cells_in_row(), 2);
    assert_eq!(&rt; pieces.rows(&[one()]), 0);
    assert_eq!(&rt; pieces.unknown_rows(1), 0);
    assert_eq!(&rt; pieces.rows(&[one(), none(), one()]), 2);
    taken(pieces.cell(none()))?;
    assert_eq!(&rt; pieces.rows(&[one(), one()]), 0);
    assert_eq!(&rt; pieces.unknown_rows(2), 0);
    taken(pieces.cell(one()))?;
    assert_eq!(&rt; pieces.unknown_rows(64), 2);
    assert_eq!(&rt; pieces.unknown_rows(64), 0);
    let database = finished(&rt, pieces);
    // The last time is 10, in slot 1: the newest row stands there.
    let rows = database.rows(0);
    for (number, row) in [[none(), none()], [one(), none()], [none(), one()]]
        .iter()
        .enumerate()
    {
        assert!(&rt; (number as u64) < rows.rows(), "{number}");
        assert_eq!(&rt; rows.row(number as u64), row.as_slice(), "{number}");
    }
    Ok(())
}

// An addition of the only archive, and a tune of a source that isn't there: the right one fits after them.
#[test]
fn bad_entries(rt: HostRuntime) -> Result<(), Fail> {
    let alloc = rt.alloc();
    let mut pieces = with_cells(alloc)?;
    assert_eq!(&rt; pieces.entry(Entry::Added), BAD);
    assert_eq!(&rt; pieces.entry(Entry::Tune(before(1)?)), BAD);
    taken(pieces.entry(Entry::Tune(before(0)?)))?;
    assert_eq!(&rt; finished(&rt, pieces).undoable(), 1);
    Ok(())
}
