//! What batches print at a given time, the numbers of their refused lines, and the largest output. Those that print the
//! same at any time are files of the program's own crate, in `cases`.
use crate::shared::parts_of;
use rrd_fold::Function;
use rrd_spec::FetchRequest;
use rrd_tool::{Command, StreamFault, Unobserved, execute, run_batch};
use std::alloc::{AllocError, Global};
use std::io::{self, Write};
use std::mem;
use std::test::Fail;
use test_data::plans::{NEW, made};

// Its last line has no end.
const TEMPLATES_AND_NOW: &str = "\t\r\n\
frobnicate\n\
last\n\
create --step 10 --start 0 DS:a:GAUGE:100:U:U DS:b:GAUGE:100:U:U RRA:LAST:0.5:1:4\n\
update -t b N:5\n\
lastupdate\n\
fetch LAST -s 0 -e 9\n\
update -t x 20:1";

const PRINTED_AT_TEN: &str = "ERROR: usage\n\
ERROR: no database\n\
time: a b\n\
10: U 5.000000\n\
time: a b\n\
10: nan 5.000000\n\
ERROR: no such data source\n";

#[test]
fn what_is_printed_at_ten(rt: HostRuntime) {
    let alloc = rt.alloc();
    let mut lines = TEMPLATES_AND_NOW.as_bytes();
    let mut out = Vec::new(alloc);
    let end = run_batch(alloc, None, 10, 0, &mut lines, &mut out, &Unobserved);
    assert_eq!(&rt; (end.stream, end.refused), (None, 3));
    assert_eq!(&rt; out.as_slice(), PRINTED_AT_TEN.as_bytes());
}

// Lines, how many numbers of refused ones are asked for, how many are refused, and the numbers.
const NUMBERED: &[(&str, usize, u64, &[u64])] = &[
    ("", 4, 0, &[]),
    ("last\n", 4, 1, &[1]),
    // Lines without words count, and so does a last line without its end.
    ("\n\t \nlast\n\nfirst", 4, 2, &[3, 5]),
    ("last\r\nx\n", 4, 2, &[1, 2]),
    // No more numbers than are asked for.
    ("last\nlast\nlast\n", 2, 3, &[1, 2]),
    ("last\nlast\n", 0, 2, &[]),
    (
        "create --step 10 --start 0 DS:g:GAUGE:100:U:U RRA:LAST:0.5:1:4\nupdate 10:1\nupdate 10:1\nlast\nrevert\nrevert\n",
        9,
        2,
        &[3, 6],
    ),
];

#[test]
fn numbers_of_refused_lines(rt: HostRuntime) {
    let alloc = rt.alloc();
    for (lines, most, refused, numbers) in NUMBERED {
        let mut input = lines.as_bytes();
        let mut out = Vec::new(alloc);
        let end = run_batch(alloc, None, 0, *most, &mut input, &mut out, &Unobserved);
        assert_eq!(&rt; (end.stream, end.refused), (None, *refused), "{lines}");
        assert_eq!(&rt; end.lines.as_slice(), *numbers, "{lines}");
    }
}

// Without room for the numbers nothing is read.
#[test]
fn no_room_for_the_numbers(rt: HostRuntime) {
    let alloc = rt.alloc();
    let mut input = b"last\n".as_slice();
    let mut out = Vec::new(alloc);
    let end = run_batch(
        alloc,
        None,
        0,
        usize::MAX,
        &mut input,
        &mut out,
        &Unobserved,
    );
    assert_eq!(&rt;
        (end.stream, end.refused),
        (Some(StreamFault::OutOfMemory), 0)
    );
    assert!(&rt; end.lines.is_empty());
    assert!(&rt; out.is_empty());
    assert_eq!(&rt; input.len(), 5);
}

// ---- the most rows

// Counts the bytes that it takes, and the lines, of which it keeps the second and the last.
#[derive(Drop)]
struct Lines {
    bytes: u64,
    count: u64,
    second: Vec<u8>,
    last: Vec<u8>,
    unfinished: Vec<u8>,
}

impl Lines {
    fn new(alloc: Global) -> Lines {
        Lines {
            bytes: 0,
            count: 0,
            second: Vec::new(alloc),
            last: Vec::new(alloc),
            unfinished: Vec::new(alloc),
        }
    }

    fn end_line(&mut self) -> Result<(), AllocError> {
        self.count = self.count.saturating_add(1);
        if self.count == 2 {
            self.second.extend_from_slice(&self.unfinished)?;
        }
        mem::swap(&mut self.last, &mut self.unfinished);
        self.unfinished.clear();
        Ok(())
    }
}

impl Write for Lines {
    fn write(&mut self, buf: &[u8]) -> io::Result<usize> {
        for byte in buf {
            self.unfinished.push(*byte)?;
            if *byte == b'\n' {
                self.end_line()?;
            }
        }
        self.bytes = self.bytes.saturating_add(buf.len() as u64);
        Ok(buf.len())
    }

    fn flush(&mut self) -> io::Result<()> {
        Ok(())
    }
}

// The header, and for each time up to 10,000,000 its digits, `: nan` and the end of the line.
#[test]
fn a_million_rows(rt: HostRuntime) -> Result<(), Fail> {
    let alloc = rt.alloc();
    let mut out = Lines::new(alloc);
    let fetch = Command::Fetch(FetchRequest {
        function: Function::Last,
        asked: 1,
        start: 0,
        end: 9_999_990,
    });
    let end = parts_of(execute(alloc, Some(made(alloc, NEW)?), fetch, &mut out));
    assert!(&rt; end.fault.is_none());
    assert_eq!(&rt; (out.bytes, out.count), (12_888_904, 1_000_001));
    assert_eq!(&rt; out.second.as_slice(), b"10: nan\n".as_slice());
    assert_eq!(&rt; out.last.as_slice(), b"10000000: nan\n".as_slice());
    Ok(())
}
