//! How the libraries are called: a caller of each of `rrd_base`, `rrd_file` and `rrd_tool`, from the first call to the
//! last.
use rrd_base::{CreateSpec, Database, DsDef, Given, List, RraDef, Sample, Update};
use rrd_file::{decode, encode};
use rrd_fixed::{Cell, Kind, Name, Number};
use rrd_fold::Function;
use rrd_spec::FetchRequest;
use rrd_tool::{Outcome, Unobserved, execute, read_command, run_batch};
use std::alloc::Global;
use std::process::Abort;
use std::test::Fail;
use test_data::words_of;

// ---- rrd_base: a database in memory

// A gauge `g`, and an archive of four rows with the last rate of each step of 10 seconds.
fn new_database(alloc: Global) -> Result<Database, Fail> {
    let mut sources = List::new(alloc);
    sources.push(DsDef {
        name: Name::fit(b"g").ok_or("no name")?,
        kind: Kind::Gauge,
        heartbeat: 100,
        min: None,
        max: None,
    })?;
    let mut archives = List::new(alloc);
    archives.push(RraDef {
        function: Function::Last,
        xff: 500_000, // half of a row's steps may be unknown
        steps: 1,
        rows: 4,
    })?;
    let spec = CreateSpec {
        step: 10,
        start: 0,
        depth: 16,
        sources,
        archives,
    };
    Ok(Database::create(alloc, spec)?)
}

// One sample: a whole number at a time, in seconds since 1970.
fn sample_of(alloc: Global, time: u64, value: i128) -> Result<Update, Fail> {
    let mut values = List::new(alloc);
    values.push(Given::Number(Number {
        millionths: value.saturating_mul(1_000_000),
        point: false,
    }))?;
    let mut samples = List::new(alloc);
    samples.push(Sample { time, values })?;
    Ok(Update {
        template: None,
        samples,
    })
}

// The newest row that a fetch of the last 10 seconds reads.
fn newest_cell(rt: &impl Abort, database: &Database) -> Result<Cell, Fail> {
    let last = database.last();
    let chosen = database.choose_for(FetchRequest {
        function: Function::Last,
        asked: 10,
        start: last.saturating_sub(1),
        end: last,
    })?;
    assert!(rt; chosen.archive < database.archives());
    let time = i64::try_from(last).ok().ok_or("late")?;
    let row = database.row(chosen.archive, time).ok_or("no row")?;
    Ok(row.get(0).ok_or("no cell")?.cell())
}

#[test]
fn a_database_is_made_updated_and_reverted(rt: HostRuntime) -> Result<(), Fail> {
    let alloc = rt.alloc();
    let mut database = new_database(alloc)?;
    database.update(alloc, &sample_of(alloc, 10, 1)?)?;
    database.update(alloc, &sample_of(alloc, 20, 2)?)?;
    assert_eq!(&rt; newest_cell(&rt, &database)?, Cell::Known(2_000_000));
    database.revert()?;
    assert_eq!(&rt; database.last(), 10);
    assert_eq!(&rt; newest_cell(&rt, &database)?, Cell::Known(1_000_000));
    Ok(())
}

// ---- rrd_file: its bytes

#[test]
fn a_database_is_written_and_read_back(rt: HostRuntime) -> Result<(), Fail> {
    let alloc = rt.alloc();
    let mut database = new_database(alloc)?;
    database.update(alloc, &sample_of(alloc, 10, 1)?)?;
    let mut bytes = Vec::new(alloc);
    encode(&database, &mut bytes)?;
    assert_eq!(&rt; bytes.len(), 309);
    let mut again = decode(alloc, bytes.as_slice())?;
    assert_eq!(&rt; (again.last(), again.undoable()), (10, 1));
    again.revert()?;
    assert_eq!(&rt; (again.last(), again.undoable()), (0, 0));
    Ok(())
}

// ---- rrd_tool: lines, and what they print

#[test]
fn a_command_is_read_and_run(rt: HostRuntime) -> Result<(), Fail> {
    let alloc = rt.alloc();
    let now = 1_000; // what `N` stands for
    let words = words_of(alloc, "update 10:1")?;
    let command = read_command(alloc, &words, now)?;
    let mut out = Vec::new(alloc);
    let outcome = execute(alloc, Some(new_database(alloc)?), command, &mut out);
    let Outcome::Changed(database) = outcome else {
        return Err(Fail::from("not changed"));
    };
    let lines = "last\nfetch LAST -s 0 -e 9\nupdate 10:2\n";
    let end = run_batch(
        alloc,
        Some(database),
        now,
        0,
        &mut lines.as_bytes(),
        &mut out,
        &Unobserved,
    );
    assert_eq!(&rt; (end.refused, end.stream), (1, None));
    let text = "10\ntime: g\n10: 1.000000\nERROR: not later than 10\n";
    assert_eq!(&rt; out.as_slice(), text.as_bytes());
    Ok(())
}
