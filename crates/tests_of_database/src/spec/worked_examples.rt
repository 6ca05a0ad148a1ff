//! Worked examples: lines of batches, and what the database then shows.
use crate::shared::{NONE, cell};
use rrd_fixed::Cell;
use rrd_fold::Function;
use rrd_spec::FetchRequest;
use std::alloc::Global;
use std::process::Abort;
use std::test::Fail;
use test_data::plans::made;

// Lines that make a database of one source and update it, and what its archive of averages then shows.
#[derive(Clone, Copy)]
struct Example<'a> {
    lines: &'a str,
    start: u64,
    // The times of the archive's rows since the start, and their cells.
    rows: &'a [(i64, Cell)],
    // What a fetch of about so many seconds a row reads, from the start to the last sample: the archive, the seconds of
    // its rows, and where they begin and end.
    resolution: u64,
    fetched: (u64, u64, u64, u64),
}

fn assert_shown(rt: &impl Abort, alloc: Global, example: Example<'_>) -> Result<(), Fail> {
    let lines = example.lines;
    let database = made(alloc, lines)?;
    let chosen = database.choose_for(FetchRequest {
        function: Function::Average,
        asked: example.resolution,
        start: example.start,
        end: database.last(),
    })?;
    let fetched = (chosen.archive, chosen.res, chosen.lo, chosen.hi);
    assert_eq!(rt; fetched, example.fetched, "{lines}");
    for (time, wanted) in example.rows {
        let shown = cell(rt, &database, chosen.archive, *time, 0);
        assert_eq!(rt; shown, *wanted, "{lines} at {time}");
    }
    Ok(())
}

const EXAMPLES: &[Example<'_>] = &[
    Example {
        lines: "create --step 10 --start 0 DS:g:GAUGE:100:U:U RRA:AVERAGE:0.5:1:4
update 10:1
update 20:2",
        start: 0,
        rows: &[(10, Cell::Known(1_000_000)), (20, Cell::Known(2_000_000))],
        resolution: 1,
        fetched: (0, 10, 0, 30),
    },
    // An interval as long as the heartbeat, and one a second longer.
    Example {
        lines: "create --step 100 --start 1000 DS:g:GAUGE:200:U:U RRA:AVERAGE:0.5:1:10
update 1200:5
update 1401:7",
        start: 1_000,
        rows: &[
            (1100, Cell::Known(5_000_000)),
            (1200, Cell::Known(5_000_000)),
            (1300, NONE),
            (1400, NONE),
        ],
        resolution: 1,
        fetched: (0, 100, 1_000, 1_500),
    },
    // A step of two samples, and a sample of several steps.
    Example {
        lines: "create --step 10 --start 0 DS:g:GAUGE:100:U:U RRA:AVERAGE:0.5:1:4
update 5:2
update 35:4",
        start: 0,
        rows: &[
            (10, Cell::Known(3_000_000)),
            (20, Cell::Known(4_000_000)),
            (30, Cell::Known(4_000_000)),
        ],
        resolution: 1,
        fetched: (0, 10, 0, 40),
    },
    // The counter of rrdtool's manual, by half hours: the first is the average of the five known steps
    // 40000, 20000, 0, 0 and 33333 millionths.
    Example {
        lines: "create --start 920804400 --step 300 DS:speed:COUNTER:600:U:U RRA:AVERAGE:0.5:1:24 RRA:AVERAGE:0.5:6:10
update 920804700:12345 920805000:12357 920805300:12363 920805600:12363 920805900:12363
update 920806200:12373 920806500:12383 920806800:12393 920807100:12399 920807400:12405
update 920807700:12411 920808000:12415 920808300:12420 920808600:12422 920808900:12423",
        start: 920_804_400,
        rows: &[
            (920_806_200, Cell::Known(18_667)),
            (920_808_000, Cell::Known(23_333)),
        ],
        resolution: 1_800,
        fetched: (1, 1_800, 920_804_400, 920_809_800),
    },
];

#[test]
fn worked_examples(rt: HostRuntime) -> Result<(), Fail> {
    for example in EXAMPLES {
        assert_shown(&rt, rt.alloc(), *example)?;
    }
    Ok(())
}
