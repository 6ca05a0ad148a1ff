//! The pieces of a file, each given again where it found no memory: it is taken then, since nothing had changed.
//! `tests/program/test_growths_in_tests.py` has each growth refused in turn; otherwise each piece is taken at once.
use super::rebuild::{archive, finished, gauge, taken};
use crate::shared::assert_bytes;
use rrd_base::{Header, PieceFault, Rebuild, Version};
use rrd_fixed::{Raw, StoredCell};
use std::alloc::Global;
use std::process::Abort;
use std::test::Fail;
use test_data::plans::made;
use test_data::worked_files::file_of;

const TWO_GAUGES: &str =
    "create --step 10 --start 0 DS:a:GAUGE:100:U:U DS:b:GAUGE:100:U:U RRA:LAST:0.5:1:4";

const TAKEN: Result<(), PieceFault> = Ok(());

const NO_MEMORY: Result<(), PieceFault> = Err(PieceFault::OutOfMemory);

fn begin(alloc: Global) -> Result<Rebuild, PieceFault> {
    let header = Header {
        version: Version::Two,
        step: 10,
        last: 0,
        depth: 16,
        sources: 2,
        archives: 1,
        entries: 0,
    };
    Rebuild::with_header(alloc, header)
}

fn begun(rt: &impl Abort, alloc: Global) -> Rebuild {
    let begun = match begin(alloc) {
        Err(PieceFault::OutOfMemory) => begin(alloc),
        begun => begun,
    };
    match begun {
        Ok(pieces) => pieces,
        Err(_) => panic!(rt; "not begun"),
    }
}

fn give_source(rt: &impl Abort, pieces: &mut Rebuild, name: &[u8]) -> Result<(), Fail> {
    let mut taking = pieces.source(gauge(name, 100)?, Raw::Unknown, 0, 0);
    if taking == NO_MEMORY {
        taking = pieces.source(gauge(name, 100)?, Raw::Unknown, 0, 0);
    }
    assert_eq!(rt; taking, TAKEN);
    Ok(())
}

fn give_archive(rt: &impl Abort, pieces: &mut Rebuild) {
    let mut taking = pieces.archive(archive(1, 4));
    if taking == NO_MEMORY {
        taking = pieces.archive(archive(1, 4));
    }
    assert_eq!(rt; taking, TAKEN);
}

fn give_prep(rt: &impl Abort, pieces: &mut Rebuild) {
    let mut taking = pieces.prep(0, 0);
    if taking == NO_MEMORY {
        taking = pieces.prep(0, 0);
    }
    assert_eq!(rt; taking, TAKEN);
}

#[test]
fn pieces_are_taken(rt: HostRuntime) -> Result<(), Fail> {
    let alloc = rt.alloc();
    let mut pieces = begun(&rt, alloc);
    give_source(&rt, &mut pieces, b"a")?;
    give_source(&rt, &mut pieces, b"b")?;
    assert_eq!(&rt; pieces.undone().sources.len(), 2);
    give_archive(&rt, &mut pieces);
    give_prep(&rt, &mut pieces);
    give_prep(&rt, &mut pieces);
    for _ in 0..8 {
        taken(pieces.cell(StoredCell::unknown()))?;
    }
    let file = file_of(alloc, &finished(&rt, pieces))?;
    let wanted = file_of(alloc, &made(alloc, TWO_GAUGES)?)?;
    assert_bytes(&rt, &file, &wanted, TWO_GAUGES);
    Ok(())
}
